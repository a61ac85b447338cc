// tablet edit FILE COLUMN START END READING.. --to OUT: a range of a column's readings replaced, in a new block.
ghost use Rattle.std.specs.Prelude.{◌≡◌, ◌+◌, ◌-◌, ◌^◌, min};

use crate::column::Column;
use crate::given::Given;
use crate::kinds::Kind;
use crate::parts::between;
use crate::pen::{Desk, Pen, Said};
use crate::range::Range;
use crate::{apply, column, files, given, help, kinds, range, rooms, walk, words};
use std::fs::File;
use std::rt::Files;

// What is edited: the range, its column's kind, how many readings that has, and whether a file that is there may be replaced.
#[derive(Clone, Copy)]
struct Wanted {
    range: Range,
    kind: Kind,
    old: usize,
    over: bool,
}

// How many readings a column has; 0 where it does not read, which the edit itself refuses.
fn count_of(part: &[u8], kind: Kind) -> usize {
    walk::count(part, kind).unwrap_or(0) as usize
}

// How many readings the edited list has, of so many old and new ones.
fn edited_len(old: usize, start: usize, end: usize, new: usize) -> usize
    ensures { result ≡ min (2 ^ 64 - 1) (start + new + (old - end)) }
{
    start
        .saturating_add(new)
        .saturating_add(old.saturating_sub(end))
}

// A list of absent readings alone is written as nothing, and that is said.
pub fn say_lost(pen: &mut Pen<'_>, meant: usize) {
    writeln!(
        pen,
        "  note: no reading of the list is present (absent: {meant}); such a list is written as nothing and reads back as empty"
    );
}

// What was written: its length, and how many readings the column has now, which was to have so many.
pub fn say_written(
    to: &[u8],
    block: &[u8],
    position: usize,
    meant: usize,
    desk: Desk,
) -> Result<(), Said> {
    let n = column::locate(block, position).map_or(0, |c| count_of(c.part, kinds::of_spec(c.spec)));
    let mut out = desk.out();
    out.bytes(to);
    writeln!(
        out,
        ": {} bytes, column {position} has {n} readings",
        block.len()
    );
    if n != meant {
        say_lost(&mut out, meant);
    }
    out.finish(desk)
}

// The edit, and what it comes to in a new file.
fn edit_with(
    rt: &impl Files<File = File>,
    path: &[u8],
    block: &[u8],
    w: Wanted,
    new: Given<'_>,
    to: &[u8],
    desk: Desk,
) -> Result<(), Said> {
    let mut out = rooms::block();
    let r = w.range;
    let len = apply::apply(block, r, w.kind, new, &mut out).map_err(|refusal| column::say_refused(
        path, r.position, refusal, desk,
    ))?;
    let edited = between(&out, 0, len);
    files::save(rt, to, edited, w.over, desk)?;
    let meant = edited_len(w.old, r.start, r.end_of(w.old), new.values.len());
    say_written(to, edited, r.position, meant, desk)
}

// The edit of a column that the block has, by readings as text.
fn edit_column(
    rt: &impl Files<File = File>,
    path: &[u8],
    block: &[u8],
    w: Wanted,
    text: &[u8],
    to: &[u8],
    desk: Desk,
) -> Result<(), Said> {
    let mut names = rooms::names();
    let mut values = rooms::unsigned();
    let mut present = rooms::flags();
    let new = given::readings(text, w.kind, &mut names, &mut values, &mut present, desk)?;
    edit_with(rt, path, block, w, new, to, desk)
}

fn wanted_of(c: Column<'_>, range: Range, over: bool) -> Wanted {
    let kind = kinds::of_spec(c.spec);
    Wanted {
        range,
        kind,
        old: count_of(c.part, kind),
        over,
    }
}

// The words from 5 up to the option are readings, and the word behind it is the new file.
fn edit_to(
    rt: &impl Files<File = File>,
    line: &[u8],
    option: usize,
    over: bool,
    desk: Desk,
) -> Result<(), Said> {
    let mut room = rooms::block();
    let (block, c) = column::open(rt, line, &mut room, desk)?;
    let range = range::of_line(line, c.position, desk)?;
    let text = between(line, words::start(line, 5), words::start(line, option));
    let to = words::word(line, option.saturating_add(1));
    let w = wanted_of(c, range, over);
    edit_column(rt, words::word(line, 1), block, w, text, to, desk)
}

pub fn run(rt: &impl Files<File = File>, line: &[u8], desk: Desk) -> Result<(), Said> {
    if let Some(option) = words::option(line, 5) {
        if matches!(words::word(line, option), b"--to") {
            if let Some(over) = words::over(line, option.saturating_add(2)) {
                return edit_to(rt, line, option, over, desk);
            }
        }
    }
    help::wrong(
        "edit FILE COLUMN START END READING.. --to OUT [--over]",
        desk,
    )
}
