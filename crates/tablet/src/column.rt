// One column of a file, as a command names it: FILE COLUMN.
use crate::parts::between;
use crate::pen::{Desk, Said};
use crate::refusals::{OfTable, Refusal};
use crate::{cut, files, words};
use raw_column::Table;
use refusal::Why;
use std::fs::File;
use std::rt::Files;

// A column that the table has: its position, its specification, and its part of the block.
#[derive(Clone, Copy)]
pub struct Column<'b> {
    pub position: usize,
    pub spec: u32,
    pub part: &'b [u8],
}

// The table of a block.
pub fn table(block: &[u8]) -> Result<Table, Refusal> {
    Ok(raw_column::read_table(block)?.table)
}

// The column at a position of a block.
pub fn locate(block: &[u8], position: usize) -> Result<Column<'_>, Refusal> {
    let part = column_part::locate(block, position)?;
    Ok(Column {
        position,
        spec: part.spec,
        part: between(block, part.start, part.start.saturating_add(part.len)),
    })
}

// A position, a start or an end as a number. A word that is none is said, but for 18446744073709551615: no list and no table is so long.
pub fn place(word: &[u8], what: &str, desk: Desk) -> Result<usize, Said> {
    match decimal::decimal_of(word) {
        Ok(u64::MAX) => Err(Said),
        Ok(n) => Ok(n as usize),
        Err(_) => {
            let mut notes = desk.notes();
            write!(
                notes,
                "tablet: {what} is to be a whole number from 0 to 18446744073709551614, and is \""
            );
            notes.bytes(word);
            writeln!(notes, "\"");
            Err(Said)
        }
    }
}

// A refusal of a file's column, said as a note.
pub fn say_refused(path: &[u8], position: usize, refusal: Refusal, desk: Desk) -> Said {
    writeln!(files::about(path, desk), "column {position}: {refusal}");
    Said
}

// A column of n readings, more than are walked, said as a note.
pub fn say_long(path: &[u8], position: usize, n: u64, desk: Desk) -> Said {
    writeln!(
        files::about(path, desk),
        "column {position}: it announces {n} readings, and at most 10,000,000 are listed or drawn"
    );
    Said
}

// So many columns of a file that do not read, said as a note.
pub fn say_unread(path: &[u8], bad: usize, desk: Desk) -> Said {
    writeln!(
        files::about(path, desk),
        "columns that do not read: {bad}; tablet salvage saves what it can of them"
    );
    Said
}

// A refusal of a file's table, said as a note; where the file ends too early, where that is.
pub fn say_table_refused(path: &[u8], block: &[u8], refusal: Refusal, desk: Desk) -> Said {
    let mut notes = files::about(path, desk);
    writeln!(notes, "{}", OfTable(refusal));
    if refusal.why == Why::ColumnsTooLong {
        cut::explain(&mut notes, block);
        writeln!(notes, "  tablet salvage saves what it can");
    }
    Said
}

// The column at a position of a file's block, or a note. 16 is the column's, the others are the table's.
pub fn found<'b>(
    path: &[u8],
    block: &'b [u8],
    position: usize,
    desk: Desk,
) -> Result<Column<'b>, Refusal> {
    locate(block, position).inspect_err(|refusal| {
        if refusal.why == Why::NoSuchColumn {
            say_refused(path, position, *refusal, desk);
        } else {
            say_table_refused(path, block, *refusal, desk);
        }
    })
}

// The position that word 2 names, and the block of the file that word 1 does, which is read into the room. What is wrong is said.
pub fn named<'r>(
    rt: &impl Files<File = File>,
    line: &[u8],
    room: &'r mut [u8],
    desk: Desk,
) -> Result<(usize, &'r [u8]), Said> {
    let position = place(words::word(line, 2), "a column's position", desk)?;
    let block = files::read(rt, words::word(line, 1), room, desk)?;
    Ok((position, block))
}

// The block and its column that words 1 and 2 name. What is wrong is said.
pub fn open<'r>(
    rt: &impl Files<File = File>,
    line: &[u8],
    room: &'r mut [u8],
    desk: Desk,
) -> Result<(&'r [u8], Column<'r>), Said> {
    let (position, block) = named(rt, line, room, desk)?;
    match found(words::word(line, 1), block, position, desk) {
        Ok(column) => Ok((block, column)),
        Err(_) => Err(Said),
    }
}
