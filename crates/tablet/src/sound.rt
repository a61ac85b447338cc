// tablet check FILE..: one line a file, for scripts.
use crate::kinds::Kind;
use crate::pen::{Desk, Pen, Said};
use crate::refusals::{OfTable, Refusal};
use crate::{column, files, forms, help, kinds, rooms, walk, words};
use std::fs::File;
use std::rt::Files;

// The refusals of columns, each with its position and a semicolon between two. Is there none?
fn judge_columns(pen: &mut Pen<'_>, block: &[u8], rows: usize) -> bool {
    let mut sound = true;
    for position in 0..rows {
        if let Err(refusal) = judge_column(block, position) {
            if !sound {
                write!(pen, "; ");
            }
            write!(pen, "column {position}: {refusal}");
            sound = false;
        }
    }
    sound
}

// Does a column read, where it is read here?
fn judge_column(block: &[u8], position: usize) -> Result<(), Refusal> {
    let c = column::locate(block, position)?;
    let kind = kinds::of_spec(c.spec);
    if kind != Kind::Unserved {
        walk::count(c.part, kind)?;
    }
    Ok(())
}

// A mark where a column is not in our form: it is no refusal.
fn mark_columns(pen: &mut Pen<'_>, block: &[u8], rows: usize) {
    for position in 0..rows {
        if let Ok(c) = column::locate(block, position) {
            if forms::is_other(c.part, c.spec) {
                write!(pen, "; column {position}: ");
                forms::say(pen, c.part, kinds::of_spec(c.spec));
            }
        }
    }
}

fn judge_block(pen: &mut Pen<'_>, block: &[u8]) -> bool {
    let rows = match column::table(block) {
        Ok(table) => table.rows,
        Err(refusal) => {
            writeln!(pen, "{}", OfTable(refusal));
            return false;
        }
    };
    let sound = judge_columns(pen, block, rows);
    if sound {
        write!(pen, "sound, columns: {rows}");
    }
    mark_columns(pen, block, rows);
    writeln!(pen);
    sound
}

fn is_sound(rt: &impl Files<File = File>, path: &[u8], desk: Desk) -> bool {
    let mut room = rooms::block();
    let Ok(block) = files::read(rt, path, &mut room, desk) else {
        return false;
    };
    let mut out = desk.out();
    out.bytes(path);
    write!(out, ": ");
    judge_block(&mut out, block)
}

pub fn run(rt: &impl Files<File = File>, line: &[u8], desk: Desk) -> Result<(), Said> {
    let n = words::count(line).saturating_sub(1);
    if n == 0 {
        return help::wrong("check FILE..", desk);
    }
    let mut bad: usize = 0;
    for i in 1..=n {
        if !is_sound(rt, words::word(line, i), desk) {
            bad = bad.saturating_add(1);
        }
    }
    if bad == 0 {
        return Ok(());
    }
    let mut notes = desk.notes();
    writeln!(notes, "tablet: files that are not sound: {bad} of {n}");
    Err(Said)
}
