// tablet read FILE COLUMN [START END]: the readings, one a line, of all the column or of a range.
use crate::column::Column;
use crate::kinds::Kind;
use crate::numbers::Kept;
use crate::parts::between;
use crate::pen::{Desk, Pen, Said};
use crate::range::Range;
use crate::refusals::Refusal;
use crate::walk::Walk;
use crate::{column, help, kinds, names, range, rooms, walk, words};
use refusal::Why;
use splice::End;
use std::fs::File;
use std::rt::Files;

fn say_line(pen: &mut Pen<'_>, kind: Kind, reading: Option<u64>) {
    match reading {
        Some(value) => writeln!(pen, "{}", Kept { kind, value }),
        None => writeln!(pen, "-"),
    }
}

// The readings from a up to e, or up to the refusal that the walk meets.
fn say_between(
    pen: &mut Pen<'_>,
    part: &[u8],
    kind: Kind,
    a: usize,
    e: usize,
) -> Result<(), Refusal> {
    let mut walk = Walk::begin(part, kind);
    for i in 0..e {
        let Some(reading) = walk.next().transpose()? else {
            return Ok(());
        };
        if a <= i {
            say_line(pen, kind, reading);
        }
    }
    Ok(())
}

// The name of so many bytes from `start` on.
fn say_name(pen: &mut Pen<'_>, part: &[u8], start: u64, len: u64) {
    let end = start.saturating_add(len);
    names::say(pen, between(part, start as usize, end as usize));
    writeln!(pen);
}

fn say_names(pen: &mut Pen<'_>, part: &[u8], starts: &[u64], lens: &[u64], present: &[u8]) {
    for ((start, len), here) in starts.iter().zip(lens).zip(present) {
        if *here == 0 {
            writeln!(pen, "-");
        } else {
            say_name(pen, part, *start, *len);
        }
    }
}

// Names are decoded into slots, of which there are as many as for an edit.
fn read_names(path: &[u8], part: &[u8], r: Range, e: usize, desk: Desk) -> Result<(), Said> {
    let mut starts = rooms::unsigned();
    let mut lens = rooms::unsigned();
    let mut present = rooms::flags();
    match text_decoder::decode(part, &mut starts, &mut lens, &mut present) {
        Ok(_) => {
            let mut out = desk.out();
            say_names(
                &mut out,
                part,
                between(&starts, r.start, e),
                between(&lens, r.start, e),
                between(&present, r.start, e),
            );
            out.finish(desk)
        }
        Err(refusal) => Err(column::say_refused(path, r.position, refusal.into(), desk)),
    }
}

// A range that the column has.
fn read_between(
    path: &[u8],
    part: &[u8],
    kind: Kind,
    r: Range,
    e: usize,
    desk: Desk,
) -> Result<(), Said> {
    if kind == Kind::Text {
        return read_names(path, part, r, e, desk);
    }
    let mut out = desk.out();
    let walked = say_between(&mut out, part, kind, r.start, e);
    let written = out.finish(desk);
    match walked {
        Ok(()) => written,
        Err(refusal) => Err(column::say_refused(path, r.position, refusal, desk)),
    }
}

// Nothing is said of a column's readings before it is known to read whole, to have the range, and to be walked so far.
fn read_range(path: &[u8], c: Column<'_>, r: Range, desk: Desk) -> Result<(), Said> {
    let kind = kinds::of_spec(c.spec);
    let n = walk::count(c.part, kind).map_err(|refusal| column::say_refused(
        path, r.position, refusal, desk,
    ))?;
    if !r.is_in(n as usize) {
        let refusal = Refusal::new(Why::BadRange, 0);
        return Err(column::say_refused(path, r.position, refusal, desk));
    }
    let e = r.end_of(n as usize);
    if walk::LONGEST < e as u64 {
        return Err(column::say_long(path, r.position, n, desk));
    }
    read_between(path, c.part, kind, r, e, desk)
}

// The words are as many as they may be. The room is the first thing: one that stands behind a test is cleared twice.
fn read_column(rt: &impl Files<File = File>, line: &[u8], desk: Desk) -> Result<(), Said> {
    let mut room = rooms::block();
    let (_, c) = column::open(rt, line, &mut room, desk)?;
    // All of it, where no range is named.
    let r = if words::count(line) == 5 {
        range::of_line(line, c.position, desk)?
    } else {
        Range {
            position: c.position,
            start: 0,
            end: End::OfList,
        }
    };
    read_range(words::word(line, 1), c, r, desk)
}

pub fn run(rt: &impl Files<File = File>, line: &[u8], desk: Desk) -> Result<(), Said> {
    match words::count(line) {
        3 | 5 => read_column(rt, line, desk),
        _ => help::wrong("read FILE COLUMN [START END]", desk),
    }
}
