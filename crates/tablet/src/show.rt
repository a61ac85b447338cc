// tablet show FILE: the table, a row a column.
use crate::column::Column;
use crate::kinds::Kind;
use crate::pen::{Desk, Pen, Said};
use crate::{column, files, forms, help, kinds, rooms, walk, words};
use std::fs::File;
use std::rt::Files;

// A row up to its readings.
fn say_row(pen: &mut Pen<'_>, c: Column<'_>) {
    let spec = c.spec;
    let blanks = 13usize.saturating_sub(hex_digits(spec));
    write!(pen, "{:<10}0x{spec:02x}{:blanks$}", c.position, "");
    write!(
        pen,
        "{:<11}{:<16}{:<8}",
        kinds::id(spec),
        kinds::name(spec),
        c.part.len()
    );
}

// How many hex digits a specification is shown with, at least 2.
fn hex_digits(spec: u32) -> usize {
    let digits = spec.checked_ilog2().unwrap_or(0) as usize / 4 + 1;
    digits.max(2)
}

// How many readings a column has, or the refusal in words. Does it read, where it is read here?
fn say_readings(pen: &mut Pen<'_>, c: Column<'_>) -> bool {
    let kind = kinds::of_spec(c.spec);
    if kind == Kind::Unserved {
        writeln!(pen, "not read");
        return true;
    }
    match walk::count(c.part, kind) {
        Ok(n) => {
            write!(pen, "{n}");
            // A mark where a column is not in our form.
            if forms::is_other(c.part, c.spec) {
                write!(pen, "; ");
                forms::say(pen, c.part, kind);
            }
            writeln!(pen);
            true
        }
        Err(refusal) => {
            writeln!(pen, "{refusal}");
            false
        }
    }
}

// How many columns do not read.
fn show_columns(pen: &mut Pen<'_>, block: &[u8], rows: usize) -> usize {
    let mut bad: usize = 0;
    for position in 0..rows {
        if let Ok(c) = column::locate(block, position) {
            say_row(pen, c);
            if !say_readings(pen, c) {
                bad = bad.saturating_add(1);
            }
        }
    }
    bad
}

// With a note where columns do not read.
fn show_block(path: &[u8], block: &[u8], desk: Desk) -> Result<(), Said> {
    let table = column::table(block).map_err(|refusal| column::say_table_refused(
        path, block, refusal, desk,
    ))?;
    let mut out = desk.out();
    writeln!(
        out,
        "position  specification  id         type            bytes   readings"
    );
    match show_columns(&mut out, block, table.rows) {
        0 => out.finish(desk),
        bad => Err(column::say_unread(path, bad, desk)),
    }
}

// Its room is the first thing in it: one that stands behind a test is cleared twice.
fn show_file(rt: &impl Files<File = File>, path: &[u8], desk: Desk) -> Result<(), Said> {
    let mut room = rooms::block();
    show_block(path, files::read(rt, path, &mut room, desk)?, desk)
}

pub fn run(rt: &impl Files<File = File>, line: &[u8], desk: Desk) -> Result<(), Said> {
    if words::count(line) != 2 {
        return help::wrong("show FILE", desk);
    }
    show_file(rt, words::word(line, 1), desk)
}
