// tablet layer CORRECTIONS FIRST --to OUT: one block of two, the corrections over the first scan, which every other command then takes.
use crate::parts::between;
use crate::pen::{Desk, Pen, Said};
use crate::refusals::Refusal;
use crate::{column, files, help, kinds, make, parts, rooms, words};
use corrections::Layered;
use raw_column::Table;
use refusal::Why;
use std::fs::File;
use std::rt::Files;

// What was written so far: how many bytes of the new table and of the new data, none where there was no room, and how many columns.
#[derive(Clone, Copy)]
struct Sofar {
    table: Option<usize>,
    data: Option<usize>,
    columns: usize,
}

// The two blocks, and the words of the command, which name their files.
#[derive(Clone, Copy)]
struct Both<'a> {
    line: &'a [u8],
    later: &'a [u8],
    older: &'a [u8],
}

// The least specification above `last` that a table has; of all that it has, where there is no last one.
fn next_in(t: &Table, last: Option<u32>) -> Option<u32> {
    let specs = t.specs.iter().take(t.rows).copied();
    specs
        .filter(|spec| last.is_none_or(|last| last < *spec))
        .min()
}

// The same of two tables.
fn next_of(later: &Table, older: &Table, last: Option<u32>) -> Option<u32> {
    match (next_in(later, last), next_in(older, last)) {
        (Some(a), Some(b)) => Some(a.min(b)),
        (a, b) => a.or(b),
    }
}

// A column, and the file that shows it.
fn say(pen: &mut Pen<'_>, both: Both<'_>, position: usize, spec: u32, len: usize) {
    let name = kinds::name(spec);
    let id = kinds::id(spec);
    write!(pen, "column {position}, {name}, id {id}: {len} bytes from ");
    match corrections::locate(both.later, both.older, spec) {
        Ok(Some(Layered::Corrections(_))) => pen.bytes(words::word(both.line, 1)),
        Ok(Some(Layered::First(_))) => pen.bytes(words::word(both.line, 2)),
        _ => {}
    }
    writeln!(pen);
}

// One column more: its bytes, its row, and what is said of it.
fn add(
    pen: &mut Pen<'_>,
    both: Both<'_>,
    spec: u32,
    table: &mut [u8],
    data: &mut [u8],
    s: Sofar,
) -> Sofar {
    let part = corrections::bytes(both.later, both.older, spec);
    say(pen, both, s.columns, spec, part.len());
    Sofar {
        table: s
            .table
            .and_then(|at| make::put_row(table, at, spec, part.len() as u64)),
        data: s.data.and_then(|at| parts::put(data, at, part)),
        columns: s.columns.saturating_add(1),
    }
}

// A column for each specification that one of the two tables has, in order: 128 at most.
fn add_all(
    pen: &mut Pen<'_>,
    both: Both<'_>,
    tables: (&Table, &Table),
    table: &mut [u8],
    data: &mut [u8],
) -> Sofar {
    let mut s = Sofar {
        table: Some(1),
        data: Some(0),
        columns: 0,
    };
    let mut last = None;
    for _ in 0..128 {
        last = next_of(tables.0, tables.1, last);
        let Some(spec) = last else {
            return s;
        };
        s = add(pen, both, spec, table, data, s);
    }
    s
}

// How many bytes the new block has; or the refusal that it would have: 11, or 10 where this tool has no room for it.
fn size(s: Sofar) -> Result<usize, Refusal> {
    if 64 < s.columns {
        return Err(Refusal::new(Why::TooManyColumns, 0));
    }
    rooms::within(s.table, s.data)
}

// Two blocks whose tables have no fault. How many columns there are is known at the end, and takes one byte where it is no refusal.
fn layer_blocks(
    rt: &impl Files<File = File>,
    both: Both<'_>,
    tables: (&Table, &Table),
    over: bool,
    desk: Desk,
) -> Result<(), Said> {
    let to = words::word(both.line, 4);
    let mut table = [0u8; 2048];
    let mut data = rooms::block();
    let mut out = desk.out();
    let s = add_all(&mut out, both, tables, &mut table, &mut data);
    make::put_number(&mut table, 0, s.columns as u64);
    let size = size(s).map_err(|refusal| files::say_refused(to, refusal, desk))?;
    let front = between(&table, 0, s.table.unwrap_or(0));
    let rest = between(&data, 0, s.data.unwrap_or(0));
    files::save_both(rt, to, front, rest, over, desk)?;
    out.bytes(to);
    writeln!(out, ": {size} bytes, columns: {}", s.columns);
    out.finish(desk)
}

fn table_of(path: &[u8], block: &[u8], desk: Desk) -> Result<Table, Said> {
    column::table(block).map_err(|refusal| column::say_table_refused(path, block, refusal, desk))
}

// CORRECTIONS FIRST --to OUT. Of both files it is said where they are not read.
fn layer(rt: &impl Files<File = File>, line: &[u8], over: bool, desk: Desk) -> Result<(), Said> {
    let mut later_room = rooms::block();
    let mut older_room = rooms::block();
    let later = files::read(rt, words::word(line, 1), &mut later_room, desk);
    let older = files::read(rt, words::word(line, 2), &mut older_room, desk);
    let both = Both {
        line,
        later: later?,
        older: older?,
    };
    let later = table_of(words::word(line, 1), both.later, desk)?;
    let older = table_of(words::word(line, 2), both.older, desk)?;
    files::check_free(rt, words::word(line, 4), over, desk)?;
    layer_blocks(rt, both, (&later, &older), over, desk)
}

pub fn run(rt: &impl Files<File = File>, line: &[u8], desk: Desk) -> Result<(), Said> {
    match (words::word(line, 3), words::over(line, 5)) {
        (b"--to", Some(over)) => layer(rt, line, over, desk),
        _ => help::wrong("layer CORRECTIONS FIRST --to OUT [--over]", desk),
    }
}
