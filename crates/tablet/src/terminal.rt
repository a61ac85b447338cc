// The picture in the terminal: a row a step of depth, a place across for one or more readings. Depth grows downward, as in clay.
use crate::draw::Subject;
use crate::kinds::Kind;
use crate::numbers::{Kept, digits};
use crate::pen::Pen;
use crate::{draw, places};
use picture::{Scale, Stretch};

const WIDTH: usize = 72;

// What is drawn: the scale, the kind of the readings, the stretches of its places, and whether the column breaks behind the last reading.
#[derive(Clone, Copy)]
struct Drawing<'s> {
    scale: Scale,
    kind: Kind,
    stretches: &'s [Stretch],
    broken: bool,
}

// How many characters a place across takes: few readings are drawn wide.
fn cell(places: usize) -> usize {
    match places {
        0..=18 => 4,
        19..=36 => 2,
        _ => 1,
    }
}

// The first n of four equal signs, in one call: each call of a pen is one of the system's.
fn signs(pen: &mut Pen<'_>, four: &str, n: usize) {
    let size = (four.len() / 4).saturating_mul(n);
    pen.bytes(four.as_bytes().get(..size).unwrap_or_default());
}

// The sign of a shade, four times. A yes or no has no clay.
fn four_of(kind: Kind, shade: usize) -> &'static str {
    match shade {
        1 => "████",
        2 => "▒▒▒▒",
        3 if kind != Kind::YesNo => "░░░░",
        _ => "    ",
    }
}

// The end of a row: a crack from top to bottom where the column breaks behind the last reading.
fn end_of(broken: bool, row: usize) -> &'static str {
    match (broken, row % 2) {
        (false, _) => "",
        (true, 0) => "╲",
        (true, _) => "╱",
    }
}

impl Drawing<'_> {
    fn cell(self) -> usize {
        cell(self.scale.places)
    }

    // How many characters all places take.
    fn across(self) -> usize {
        self.scale.places.saturating_mul(self.cell())
    }

    // A row, behind the depth where it begins.
    fn say_row(self, pen: &mut Pen<'_>, row: usize, width: usize) {
        let depth = Kept {
            kind: self.kind,
            value: picture::depth_of(row, self.scale.base, self.scale.step),
        };
        write!(pen, "{depth:>width$} |");
        for s in self.stretches.iter().take(self.scale.places) {
            let shade = picture::shade_at(self.scale, row, *s);
            signs(pen, four_of(self.kind, shade), self.cell());
        }
        writeln!(pen, "{}", end_of(self.broken, row));
    }

    // The ruler below has a gap where every reading of a place is absent.
    fn say_ruler(self, pen: &mut Pen<'_>, width: usize) {
        write!(pen, "{:width$} +", "");
        for s in self.stretches.iter().take(self.scale.places) {
            signs(pen, if s.here == 0 { "    " } else { "────" }, self.cell());
        }
        writeln!(pen, "{}", if self.broken { "╳" } else { "" });
    }

    // The first and the last index of n readings, below the ends of the ruler.
    fn say_indices(self, pen: &mut Pen<'_>, n: usize, width: usize) {
        write!(pen, "{:width$}  0", "");
        if 1 < n {
            let last = n - 1;
            let used = digits(last as u64).saturating_add(1);
            let blanks = self.across().saturating_sub(used);
            write!(pen, "{:blanks$}{last}", "");
        }
        writeln!(pen);
    }

    // What a place and a row stand for, and the gaps where there are any.
    fn say_legend(self, pen: &mut Pen<'_>, gone: usize) {
        let per = self.scale.per;
        write!(pen, "across: the index, {per} to a place");
        if self.kind != Kind::YesNo {
            write!(pen, "; down: the depth, {} µm to a row", self.scale.step);
        }
        if 0 < gone && per == 1 {
            write!(pen, "; gaps: absent readings");
        } else if 0 < gone {
            write!(pen, "; gaps: absent readings; ▒: some of a place's absent");
        }
        writeln!(pen);
    }
}

// How wide the depths are that stand beside the rows.
fn label_width(kind: Kind, base: u64, high: u64) -> usize {
    let first = Kept { kind, value: base };
    let last = Kept { kind, value: high };
    first.width().max(last.width())
}

fn draw_picture(pen: &mut Pen<'_>, s: Subject<'_>, n: usize, all: Stretch) {
    let kind = s.kind();
    let scale = draw::scale_for(all, kind, n, WIDTH);
    let stretches = places::of_scale(s.part(), kind, scale);
    let drawing = Drawing {
        scale,
        kind,
        stretches: &stretches,
        broken: s.is_broken(),
    };
    let width = label_width(kind, scale.base, all.high);
    for row in 0..scale.rows {
        drawing.say_row(pen, row, width);
    }
    drawing.say_ruler(pen, width);
    drawing.say_indices(pen, n, width);
    drawing.say_legend(pen, all.gone);
}

// The column, a line for its file and what it holds.
fn say_subject(pen: &mut Pen<'_>, s: Subject<'_>) {
    pen.bytes(s.path);
    s.say(pen);
    writeln!(pen);
}

// The n readings of a column, or those before its break, of which `all` is known.
pub fn picture(pen: &mut Pen<'_>, s: Subject<'_>, n: usize, all: Stretch) {
    say_subject(pen, s);
    s.say_facts(pen, all);
    writeln!(pen);
    if all.here == 0 {
        writeln!(pen, "there is no depth to draw");
    } else {
        writeln!(pen);
        draw_picture(pen, s, n, all);
    }
    // The crack's line of the legend.
    if s.is_broken() {
        write!(pen, "╲╱: ");
        s.say_break(pen);
        writeln!(pen);
    }
}

// A break alone: no clay, and no reading.
pub fn fracture(pen: &mut Pen<'_>, s: Subject<'_>) {
    say_subject(pen, s);
    writeln!(
        pen,
        "\n  /\\/\\/\\/\\/\\/\\/\\/\\/\\/\\/\\/\\/\\/\\/\\/\\/\\/\\/\\/\\"
    );
    if let Some(fault) = s.fault {
        writeln!(pen, "  BROKEN: {fault}");
    }
    writeln!(
        pen,
        "  \\/\\/\\/\\/\\/\\/\\/\\/\\/\\/\\/\\/\\/\\/\\/\\/\\/\\/\\/\\/\n"
    );
    s.say_alone(pen);
    writeln!(pen);
}
