// tablet make OUT COLUMN..: a block from text. It begins as a table of empty columns, and each column's readings are edited in.
use crate::given::Given;
use crate::kinds::Kind;
use crate::parts::{between, put};
use crate::pen::{Desk, Said};
use crate::range::Range;
use crate::refusals::Refusal;
use crate::{apply, column, edit, files, given, help, kinds, rooms, words};
use column_specification::{ColumnSpec, ColumnType};
use decimal::DecimalError;
use refusal::Why;
use splice::End;
use std::fs::File;
use std::rt::Files;

// Why a column's text begins with no specification.
#[derive(Clone, Copy)]
enum NoSpec {
    NoColumn,
    Refused(Refusal),
}

// The text before the first such byte, and the text behind it.
fn parted(text: &[u8], at: u8) -> Option<(&[u8], &[u8])> {
    let i = text.iter().position(|b| *b == at)?;
    Some((
        between(text, 0, i),
        between(text, i.saturating_add(1), text.len()),
    ))
}

// An id that is no u32 is too large as well.
fn with_id(t: ColumnType, id: Result<u64, DecimalError>) -> Result<u32, NoSpec> {
    let too_large = NoSpec::Refused(Refusal::new(Why::IdTooLarge, 0));
    match id {
        Ok(n) => {
            let id = u32::try_from(n).map_err(|_| too_large)?;
            let spec = ColumnSpec::new(id, t, false).map_err(|_| too_large)?;
            Ok(spec.0)
        }
        Err(DecimalError::NoNumber) => Err(NoSpec::NoColumn),
        Err(DecimalError::TooLarge) => Err(too_large),
    }
}

// The types that can be made.
fn type_of(name: &[u8]) -> Option<ColumnType> {
    match name {
        b"actor" => Some(ColumnType::Actor),
        b"integer" => Some(ColumnType::Integer),
        b"delta" => Some(ColumnType::DeltaInteger),
        b"boolean" => Some(ColumnType::Boolean),
        b"text" => Some(ColumnType::String),
        _ => None,
    }
}

// TYPE:ID=..
fn spec_of(text: &[u8]) -> Result<u32, NoSpec> {
    let (name, _) = parted(text, b'=').ok_or(NoSpec::NoColumn)?;
    let (t, id) = parted(name, b':').ok_or(NoSpec::NoColumn)?;
    let t = type_of(t).ok_or(NoSpec::NoColumn)?;
    with_id(t, decimal::decimal_of(id))
}

fn say_no_spec(text: &[u8], why: NoSpec, desk: Desk) -> Said {
    let mut notes = desk.notes();
    write!(notes, "tablet: \"");
    notes.bytes(text);
    match why {
        NoSpec::NoColumn => writeln!(
            notes,
            "\" is no column: TYPE:ID=READING,READING,.. with the type delta, integer, actor, boolean or text"
        ),
        NoSpec::Refused(refusal) => writeln!(notes, "\": {refusal}"),
    }
    Said
}

// A number behind those that are there, where there is room.
pub fn put_number(block: &mut [u8], at: usize, n: u64) -> Option<usize> {
    leb128_writer::put_u64(n, block, at).ok()
}

// A row of a table.
pub fn put_row(table: &mut [u8], at: usize, spec: u32, len: u64) -> Option<usize> {
    let next = put_number(table, at, u64::from(spec))?;
    put_number(table, next, len)
}

// The table of n columns without readings; how long it is.
fn put_table(line: &[u8], n: usize, block: &mut [u8], desk: Desk) -> Result<usize, Said> {
    let mut at = put_number(block, 0, n as u64).ok_or(Said)?;
    for i in 0..n {
        let text = words::word(line, i.saturating_add(2));
        let spec = spec_of(text).map_err(|why| say_no_spec(text, why, desk))?;
        at = put_row(block, at, spec, 0).ok_or(Said)?;
    }
    Ok(at)
}

// Is it a table? 11 and 12 are found here.
fn check_table(to: &[u8], block: &[u8], desk: Desk) -> Result<(), Said> {
    match column::table(block) {
        Ok(_) => Ok(()),
        Err(refusal) => Err(files::say_refused(to, refusal, desk)),
    }
}

// The block of len bytes with the readings of a column edited in; how long it is then.
fn fill_column(
    text: &[u8],
    position: usize,
    block: &mut [u8],
    len: usize,
    desk: Desk,
) -> Result<usize, Said> {
    let (name, list) = parted(text, b'=').ok_or(Said)?;
    let spec = spec_of(text).map_err(|_| Said)?;
    let kind = kinds::of_spec(spec);
    let mut names = rooms::names();
    let mut values = rooms::unsigned();
    let mut present = rooms::flags();
    let new = given::readings(list, kind, &mut names, &mut values, &mut present, desk)?;
    replace(name, position, kind, new, block, len, desk)
}

fn replace(
    name: &[u8],
    position: usize,
    kind: Kind,
    new: Given<'_>,
    block: &mut [u8],
    len: usize,
    desk: Desk,
) -> Result<usize, Said> {
    let mut out = rooms::block();
    let r = Range {
        position,
        start: 0,
        end: End::At(0),
    };
    let n = apply::apply(between(block, 0, len), r, kind, new, &mut out).map_err(
        |refusal| column::say_refused(name, position, refusal, desk),
    )?;
    let edited = between(&out, 0, n);
    note_lost(edited, position, new.values.len(), desk);
    put(block, 0, edited).ok_or(Said)
}

// A list of absent readings alone is written as nothing, and that is said.
fn note_lost(block: &[u8], position: usize, n: usize, desk: Desk) {
    if 0 < n && column::locate(block, position).is_ok_and(|c| c.part.is_empty()) {
        let mut out = desk.out();
        writeln!(out, "column {position}:");
        edit::say_lost(&mut out, n);
    }
}

// The table, then the columns, then the file.
fn make(
    rt: &impl Files<File = File>,
    line: &[u8],
    n: usize,
    over: bool,
    desk: Desk,
) -> Result<(), Said> {
    let mut block = rooms::block();
    let to = words::word(line, 1);
    let mut len = put_table(line, n, &mut block, desk)?;
    check_table(to, between(&block, 0, len), desk)?;
    for i in 0..n {
        let text = words::word(line, i.saturating_add(2));
        len = fill_column(text, i, &mut block, len, desk)?;
    }
    files::save(rt, to, between(&block, 0, len), over, desk)?;
    let mut out = desk.out();
    out.bytes(to);
    writeln!(out, ": {len} bytes, columns: {n}");
    out.finish(desk)
}

pub fn run(rt: &impl Files<File = File>, line: &[u8], desk: Desk) -> Result<(), Said> {
    let end = words::option(line, 2).unwrap_or(words::count(line));
    if 2 < end {
        if let Some(over) = words::over(line, end) {
            return make(rt, line, end - 2, over, desk);
        }
    }
    help::wrong("make OUT COLUMN.. [--over]", desk)
}
