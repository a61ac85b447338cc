// tablet salvage FILE --to OUT: a sound block of what a cut or broken one still holds.
use crate::parts::between;
use crate::pen::{Desk, Pen, Said};
use crate::refusals::{OfTable, Refusal};
use crate::rows::Piece;
use crate::{column, fates, files, help, make, rooms, rows, saved, words};
use refusal::Why;
use std::fs::File;
use std::rt::Files;

// What was written so far: how many bytes of the new table and of the new data, none where there was no room, and how many columns lost something.
#[derive(Clone, Copy)]
struct Sofar {
    table: Option<usize>,
    data: Option<usize>,
    lost: usize,
}

// One column more, its bytes in the data from `at` on: its row, and what is said of it.
fn save_column(
    pen: &mut Pen<'_>,
    position: usize,
    c: Piece<'_>,
    table: &mut [u8],
    data: &mut [u8],
    at: usize,
    s: Sofar,
) -> Sofar {
    let saved = saved::save(c, data, at);
    fates::say(pen, position, c, saved);
    let len = saved.len.unwrap_or(usize::MAX);
    let lost = usize::from(fates::is_loss(saved.fate));
    Sofar {
        table: s
            .table
            .and_then(|at| make::put_row(table, at, c.spec, len as u64)),
        data: saved.len.map(|len| at.saturating_add(len)),
        lost: s.lost.saturating_add(lost),
    }
}

// All n columns, or those up to one for which there is no room.
fn save_columns(
    pen: &mut Pen<'_>,
    block: &[u8],
    n: usize,
    table: &mut [u8],
    data: &mut [u8],
) -> Sofar {
    let mut s = Sofar {
        table: make::put_number(table, 0, n as u64),
        data: Some(0),
        lost: 0,
    };
    for position in 0..n {
        if let Some(at) = s.data {
            let c = rows::piece_at(block, position);
            s = save_column(pen, position, c, table, data, at, s);
        }
    }
    s
}

// The last words: the new file, and as a note that something is gone, of a column or behind the last one.
fn say_done(
    mut out: Pen<'static>,
    path: &[u8],
    to: &[u8],
    size: usize,
    n: usize,
    lost: usize,
    whole: bool,
    desk: Desk,
) -> Result<(), Said> {
    out.bytes(to);
    write!(out, ": {size} bytes, columns: {n}");
    if whole && lost == 0 {
        writeln!(out, ", all of them whole");
        return out.finish(desk);
    }
    writeln!(out);
    let _ = out.finish(desk);
    let mut notes = files::about(to, desk);
    write!(notes, "it is a salvage of ");
    notes.bytes(path);
    writeln!(notes, "; columns that lost something: {lost} of {n}");
    Err(Said)
}

// A block whose rows are known, and fit the data where it is whole, saved in a new file.
fn save_block(
    rt: &impl Files<File = File>,
    path: &[u8],
    block: &[u8],
    to: &[u8],
    over: bool,
    whole: bool,
    desk: Desk,
) -> Result<(), Said> {
    let n = rows::count(block);
    let mut table = [0u8; 1024];
    let mut data = rooms::block();
    let mut out = desk.out();
    let s = save_columns(&mut out, block, n, &mut table, &mut data);
    let size = rooms::within(s.table, s.data).map_err(|refusal| files::say_refused(
        to, refusal, desk,
    ))?;
    let front = between(&table, 0, s.table.unwrap_or(0));
    let rest = between(&data, 0, s.data.unwrap_or(0));
    files::save_both(rt, to, front, rest, over, desk)?;
    say_done(out, path, to, size, n, s.lost, whole, desk)
}

// The refusal of a table is said. 14 and 15 leave its rows, by which the columns can be told apart; no other does.
fn say_table(path: &[u8], block: &[u8], refusal: Refusal, desk: Desk) {
    let mut notes = files::about(path, desk);
    writeln!(notes, "{}", OfTable(refusal));
    match refusal.why {
        Why::ColumnsTooLong => {}
        Why::ColumnsTooShort => {
            let end = rows::piece_at(block, rows::count(block)).start;
            writeln!(
                notes,
                "  bytes behind the last column, which belong to no column and are left out: {}",
                block.len().saturating_sub(end)
            );
        }
        _ => writeln!(
            notes,
            "  the table itself is broken: its columns cannot be told apart, and nothing is saved"
        ),
    }
}

// FILE --to OUT: saved as far as the table lets the columns be told apart. Bytes that are left out are a loss too.
fn salvage(rt: &impl Files<File = File>, line: &[u8], over: bool, desk: Desk) -> Result<(), Said> {
    let mut room = rooms::block();
    let path = words::word(line, 1);
    let to = words::word(line, 3);
    let block = files::read(rt, path, &mut room, desk)?;
    files::check_free(rt, to, over, desk)?;
    let Err(refusal) = column::table(block) else {
        return save_block(rt, path, block, to, over, true, desk);
    };
    say_table(path, block, refusal, desk);
    if matches!(refusal.why, Why::ColumnsTooLong | Why::ColumnsTooShort) {
        let _ = save_block(rt, path, block, to, over, false, desk);
    }
    Err(Said)
}

pub fn run(rt: &impl Files<File = File>, line: &[u8], desk: Desk) -> Result<(), Said> {
    match (words::word(line, 2), words::over(line, 4)) {
        (b"--to", Some(over)) => salvage(rt, line, over, desk),
        _ => help::wrong("salvage FILE --to OUT [--over]", desk),
    }
}
