// tablet rewrite FILE --to OUT: the block with every sound column in our form.
use crate::column::Column;
use crate::forms::Bytes;
use crate::parts::between;
use crate::pen::{Desk, Pen, Said};
use crate::renewed::{Change, Renewed};
use crate::{column, files, help, kinds, make, renewed, rooms, words};
use std::fs::File;
use std::rt::Files;

// What was written so far: how many bytes of the new table and of the new data, none where there was no room, and how many columns do not read.
#[derive(Clone, Copy)]
struct Sofar {
    table: Option<usize>,
    data: Option<usize>,
    bad: usize,
}

// How many bytes there were, and are now.
fn say_saved(pen: &mut Pen<'_>, before: usize, now: usize) {
    if now < before {
        writeln!(pen, "{} saved", Bytes(before - now));
    } else if before < now {
        writeln!(pen, "{} more than before", Bytes(now - before));
    } else {
        writeln!(pen, "as long as before");
    }
}

// A column, and what became of it. One for which there was no room counts as longer than any.
fn say(pen: &mut Pen<'_>, c: Column<'_>, r: Renewed) {
    let name = kinds::name(c.spec);
    let id = kinds::id(c.spec);
    let readings = r.readings;
    write!(pen, "column {}, {name}, id {id}: ", c.position);
    match r.change {
        Change::Ours => writeln!(pen, "in our form"),
        Change::Renewed => {
            write!(pen, "rewritten: ");
            say_saved(pen, c.part.len(), r.len.unwrap_or(usize::MAX));
        }
        Change::Absent => writeln!(
            pen,
            "left as it stands: absent readings alone ({readings}), for which our form has no bytes"
        ),
        Change::Long => writeln!(
            pen,
            "left as it stands: {readings} readings, more than the 32,768 that this tool has room for (refusal 9)"
        ),
        Change::Broken(fault) => writeln!(pen, "left as it stands, and it does not read: {fault}"),
        Change::Unread => writeln!(
            pen,
            "left as it stands: columns of this type are not read here"
        ),
    }
}

// One column more, its bytes in the data from `at` on: its row, and what is said of it.
fn renew_column(
    pen: &mut Pen<'_>,
    c: Column<'_>,
    table: &mut [u8],
    data: &mut [u8],
    at: usize,
    s: Sofar,
) -> Sofar {
    let r = renewed::renew(c, data, at);
    say(pen, c, r);
    let len = r.len.unwrap_or(usize::MAX);
    let bad = usize::from(matches!(r.change, Change::Broken(_)));
    Sofar {
        table: s
            .table
            .and_then(|at| make::put_row(table, at, c.spec, len as u64)),
        data: r.len.map(|len| at.saturating_add(len)),
        bad: s.bad.saturating_add(bad),
    }
}

// All n columns, or those up to one for which there is no room.
fn renew_columns(
    pen: &mut Pen<'_>,
    block: &[u8],
    n: usize,
    table: &mut [u8],
    data: &mut [u8],
) -> Sofar {
    let mut s = Sofar {
        table: make::put_number(table, 0, n as u64),
        data: Some(0),
        bad: 0,
    };
    for position in 0..n {
        if let (Some(at), Ok(c)) = (s.data, column::locate(block, position)) {
            s = renew_column(pen, c, table, data, at, s);
        }
    }
    s
}

fn rewrite_block(
    rt: &impl Files<File = File>,
    path: &[u8],
    block: &[u8],
    n: usize,
    to: &[u8],
    over: bool,
    desk: Desk,
) -> Result<(), Said> {
    let mut table = [0u8; 1024];
    let mut data = rooms::block();
    let mut out = desk.out();
    let s = renew_columns(&mut out, block, n, &mut table, &mut data);
    let size = rooms::within(s.table, s.data).map_err(|refusal| files::say_refused(
        to, refusal, desk,
    ))?;
    let front = between(&table, 0, s.table.unwrap_or(0));
    let rest = between(&data, 0, s.data.unwrap_or(0));
    files::save_both(rt, to, front, rest, over, desk)?;
    // The last words: the new file and what it saved, and as a note that columns do not read.
    out.bytes(to);
    write!(out, ": {size} bytes, columns: {n}, ");
    say_saved(&mut out, block.len(), size);
    let written = out.finish(desk);
    if s.bad == 0 {
        return written;
    }
    Err(column::say_unread(path, s.bad, desk))
}

// FILE --to OUT.
fn rewrite(rt: &impl Files<File = File>, line: &[u8], over: bool, desk: Desk) -> Result<(), Said> {
    let mut room = rooms::block();
    let path = words::word(line, 1);
    let to = words::word(line, 3);
    let block = files::read(rt, path, &mut room, desk)?;
    files::check_free(rt, to, over, desk)?;
    let table = column::table(block).map_err(|refusal| column::say_table_refused(
        path, block, refusal, desk,
    ))?;
    rewrite_block(rt, path, block, table.rows, to, over, desk)
}

pub fn run(rt: &impl Files<File = File>, line: &[u8], desk: Desk) -> Result<(), Said> {
    match (words::word(line, 2), words::over(line, 4)) {
        (b"--to", Some(over)) => rewrite(rt, line, over, desk),
        _ => help::wrong("rewrite FILE --to OUT [--over]", desk),
    }
}
