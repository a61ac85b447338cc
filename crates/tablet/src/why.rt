// tablet why FILE [COLUMN]: why a block is refused, in sentences, with the bytes around the place.
use crate::column::Column;
use crate::kinds::Kind;
use crate::pen::{Desk, Pen, Said};
use crate::refusals::{OfTable, Refusal};
use crate::{around, because, column, cut, files, help, kinds, rooms, words};
use reason::Reason;
use refusal::Why;
use std::fs::File;
use std::rt::Files;
use table_reason::TableReason;

fn say_column(pen: &mut Pen<'_>, c: Column<'_>) {
    let name = kinds::name(c.spec);
    let id = kinds::id(c.spec);
    write!(pen, "column {} ({name}, id {id}): ", c.position);
}

// The run at fault, the facts, and the bytes.
fn say_run(pen: &mut Pen<'_>, part: &[u8], r: Reason) {
    because::say(pen, r);
    around::say(pen, part, r.refusal.1);
}

// The reason of a column's fault.
fn say_reason(pen: &mut Pen<'_>, part: &[u8], r: Reason) {
    let refusal = Refusal::from(r.refusal).in_name(because::is_name(r));
    writeln!(pen, "{refusal}");
    say_run(pen, part, r);
}

// The reason of the fault of a column, by its specification and its bytes, where it has one.
fn reason_of(spec: u32, part: &[u8]) -> Option<Reason> {
    column_reason::column_reason(kinds::number(spec), part).ok()?
}

// Of a block whose file ends too early, the column in which it ends.
fn say_cut(pen: &mut Pen<'_>, block: &[u8]) {
    cut::explain(pen, block);
    let c = cut::broken(block);
    if let Some(r) = reason_of(c.spec, c.part) {
        say_run(pen, c.part, r);
    }
}

// Has the column a fault? It is said.
fn ask_column(pen: &mut Pen<'_>, c: Column<'_>) -> bool {
    let Some(r) = reason_of(c.spec, c.part) else {
        return false;
    };
    say_column(pen, c);
    say_reason(pen, c.part, r);
    true
}

// Has any column a fault? Each is said.
fn ask_columns(pen: &mut Pen<'_>, block: &[u8], rows: usize) -> bool {
    let mut bad = false;
    for position in 0..rows {
        if let Ok(c) = column::locate(block, position) {
            bad |= ask_column(pen, c);
        }
    }
    bad
}

// The reason of the table's fault; where the file ends too early, where that is.
fn say_table(pen: &mut Pen<'_>, block: &[u8], r: TableReason) {
    writeln!(pen, "{}", OfTable(r.refusal.into()));
    because::say_table(pen, r);
    if because::is_of_number(r) {
        around::say(pen, block, r.refusal.1);
    }
    if r.refusal.0 == Why::ColumnsTooLong {
        say_cut(pen, block);
    }
}

// Where no column that is read has a fault, that is said.
fn ask_block(block: &[u8], desk: Desk) -> Result<(), Said> {
    let mut out = desk.out();
    match table_reason::table_reason(block) {
        Some(r) => say_table(&mut out, block, r),
        None => {
            let rows = column::table(block).map_or(0, |table| table.rows);
            if !ask_columns(&mut out, block, rows) {
                writeln!(
                    out,
                    "nothing is wrong: the table reads, and so does every column that is read here"
                );
            }
        }
    }
    out.finish(desk)
}

// The column at a position, of a block whose table reads.
fn ask_one(c: Column<'_>, desk: Desk) -> Result<(), Said> {
    let mut out = desk.out();
    if kinds::of_spec(c.spec) == Kind::Unserved {
        say_column(&mut out, c);
        writeln!(out, "{}", Refusal::new(Why::NotServed, 0));
    } else if !ask_column(&mut out, c) {
        say_column(&mut out, c);
        writeln!(out, "nothing is wrong: it reads");
    }
    out.finish(desk)
}

// In this and the next the room is the first thing: one that stands behind a test is cleared twice.
fn ask_file(rt: &impl Files<File = File>, path: &[u8], desk: Desk) -> Result<(), Said> {
    let mut room = rooms::block();
    ask_block(files::read(rt, path, &mut room, desk)?, desk)
}

fn ask_position(
    rt: &impl Files<File = File>,
    path: &[u8],
    position: usize,
    desk: Desk,
) -> Result<(), Said> {
    let mut room = rooms::block();
    let block = files::read(rt, path, &mut room, desk)?;
    match column::locate(block, position) {
        Ok(c) => ask_one(c, desk),
        Err(refusal) if refusal.why == Why::NoSuchColumn => {
            Err(column::say_refused(path, position, refusal, desk))
        }
        Err(_) => ask_block(block, desk),
    }
}

pub fn run(rt: &impl Files<File = File>, line: &[u8], desk: Desk) -> Result<(), Said> {
    let path = words::word(line, 1);
    match words::count(line) {
        2 => ask_file(rt, path, desk),
        3 => {
            let position = column::place(words::word(line, 2), "a column's position", desk)?;
            ask_position(rt, path, position, desk)
        }
        _ => help::wrong("why FILE [COLUMN]", desk),
    }
}
