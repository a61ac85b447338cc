// What is said of a column that was saved: a line.
use crate::pen::Pen;
use crate::refusals::Refusal;
use crate::rows::Piece;
use crate::saved::{Fate, Saved};
use crate::{announced, edit, kinds};

// Did a column lose something by such a fate?
pub fn is_loss(fate: Fate) -> bool {
    !matches!(fate, Fate::Whole | Fate::Unread)
}

// How many of its bytes are there, where not all are.
fn say_had(pen: &mut Pen<'_>, c: Piece<'_>) {
    if !c.is_whole() {
        write!(pen, "; {} of its {} bytes are there", c.had(), c.len);
    }
}

fn say_gone(pen: &mut Pen<'_>, readings: u64) {
    writeln!(pen, "; gone: all from index {readings} on");
}

// The counts of its runs may promise more than survived.
fn say_salvaged(pen: &mut Pen<'_>, c: Piece<'_>, fault: Refusal, s: Saved) {
    let readings = s.readings;
    let announced = announced::readings(c.part, kinds::of_spec(c.spec), fault.place);
    write!(pen, "salvaged: {readings} readings survived");
    if readings < announced {
        write!(pen, " of at least {announced} announced");
    }
    write!(pen, "; {fault}");
    say_had(pen, c);
    say_gone(pen, readings);
    // Absent readings alone are written as nothing, and that is said.
    if s.len == Some(0) && readings != 0 {
        edit::say_lost(pen, readings as usize);
    }
}

fn say_short(pen: &mut Pen<'_>, c: Piece<'_>, readings: u64) {
    write!(pen, "salvaged: {readings} readings survived");
    say_had(pen, c);
    write!(
        pen,
        " and read: the cut falls between two runs, where nothing but the table shows it"
    );
    say_gone(pen, readings);
}

fn say_lost(pen: &mut Pen<'_>, c: Piece<'_>, why: Option<Refusal>) {
    write!(pen, "lost, and written empty");
    say_had(pen, c);
    if let Some(refusal) = why {
        write!(pen, "; {refusal}");
    }
    writeln!(pen);
}

// The column at a position, of which this piece was there.
pub fn say(pen: &mut Pen<'_>, position: usize, c: Piece<'_>, s: Saved) {
    let name = kinds::name(c.spec);
    let id = kinds::id(c.spec);
    let readings = s.readings;
    write!(pen, "column {position}, {name}, id {id}: ");
    match s.fate {
        Fate::Whole => writeln!(pen, "whole, {readings} readings"),
        Fate::Unread => writeln!(
            pen,
            "whole, kept as its bytes: columns of this type are not read here"
        ),
        Fate::Short => say_short(pen, c, readings),
        Fate::Salvaged(fault) => say_salvaged(pen, c, fault, s),
        Fate::Long(fault) => writeln!(
            pen,
            "kept as it is, still broken: {fault}; {readings} readings survived, more than the 32,768 that this tool has room for (refusal 9)"
        ),
        Fate::Lost(why) => say_lost(pen, c, why),
    }
}
