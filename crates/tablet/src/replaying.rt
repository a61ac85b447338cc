// tablet replay FILE COLUMN LOG --to OUT: the pen's log over a delta column, told entry by entry, and the block with the column that it makes.
use crate::column::Column;
use crate::kinds::Kind;
use crate::parts::between;
use crate::pen::{Desk, Pen, Said};
use crate::refusals::Refusal;
use crate::{column, edit, files, help, kinds, parts, rooms, words};
use pen_log::LogEntry;
use refusal::Why;
use std::fs::File;
use std::rt::Files;

// What is replayed: the file's block and column, how many entries of the log at most, and whether a file that is there may be replaced.
#[derive(Clone, Copy)]
struct Wanted<'b> {
    block: &'b [u8],
    column: Column<'b>,
    most: Option<usize>,
    over: bool,
}

// What an entry does.
fn say_entry(pen: &mut Pen<'_>, n: usize, e: LogEntry) {
    match e {
        LogEntry::Insert(i, x, _) => writeln!(pen, "entry {n}: inserts at {i} {x}"),
        LogEntry::InsertAbsent(i, _) => {
            writeln!(pen, "entry {n}: inserts at {i} an absent reading")
        }
        LogEntry::Remove(i, _) => writeln!(pen, "entry {n}: removes reading {i}"),
        LogEntry::Change(i, x, _) => writeln!(pen, "entry {n}: changes reading {i} to {x}"),
    }
}

// Where the log goes on behind an entry.
fn behind(e: LogEntry) -> usize {
    match e {
        LogEntry::Insert(_, _, next) => next,
        LogEntry::InsertAbsent(_, next) => next,
        LogEntry::Remove(_, next) => next,
        LogEntry::Change(_, _, next) => next,
    }
}

// The first entries in words, so many at most, and the part of the log that they take. An entry has a byte at least, so there are no more of them than bytes.
// Of one that cannot be read, and of what stands behind it, nothing is said: the replay refuses it.
fn tell<'l>(pen: &mut Pen<'_>, log: &'l [u8], most: Option<usize>) -> &'l [u8] {
    let mut at = 0;
    for i in 0..most.unwrap_or(log.len()).min(log.len()) {
        if log.len() <= at {
            break;
        }
        let Ok(entry) = pen_log::entry_at(log, at) else {
            return log;
        };
        say_entry(pen, i, entry);
        at = behind(entry);
    }
    between(log, 0, at)
}

// The block with the new column at its place.
fn save(
    rt: &impl Files<File = File>,
    w: Wanted<'_>,
    new: &[u8],
    readings: u64,
    to: &[u8],
    desk: Desk,
) -> Result<(), Said> {
    let mut out = rooms::block();
    let position = w.column.position;
    let f = block_frame::put_frame(w.block, position, new.len(), &mut out).map_err(
        |refusal| files::say_refused(to, refusal.into(), desk),
    )?;
    parts::put(&mut out, f.at, new);
    let whole = between(&out, 0, f.len);
    files::save(rt, to, whole, w.over, desk)?;
    edit::say_written(to, whole, position, readings as usize, desk)
}

// 23 is the log's, the others are the column's.
fn say_refused(line: &[u8], position: usize, refusal: Refusal, desk: Desk) -> Said {
    if refusal.why == Why::BadEntry {
        files::say_refused(words::word(line, 3), refusal, desk)
    } else {
        column::say_refused(words::word(line, 1), position, refusal, desk)
    }
}

// The part of the log that is replayed, over the column's part.
fn follow(
    rt: &impl Files<File = File>,
    line: &[u8],
    log: &[u8],
    w: Wanted<'_>,
    desk: Desk,
) -> Result<(), Said> {
    let mut values = rooms::signed();
    let mut present = rooms::flags();
    let mut new = rooms::block();
    match pen_log::replay(w.column.part, log, &mut values, &mut present, &mut new) {
        Ok((readings, len)) => {
            let new = between(&new, 0, len);
            save(rt, w, new, readings, words::word(line, 5), desk)
        }
        Err(refusal) => Err(say_refused(line, w.column.position, refusal.into(), desk)),
    }
}

fn replay_log(
    rt: &impl Files<File = File>,
    line: &[u8],
    w: Wanted<'_>,
    desk: Desk,
) -> Result<(), Said> {
    let mut room = rooms::block();
    let log = files::read(rt, words::word(line, 3), &mut room, desk)?;
    let mut out = desk.out();
    let told = tell(&mut out, log, w.most);
    out.finish(desk)?;
    follow(rt, line, told, w, desk)
}

fn replay(
    rt: &impl Files<File = File>,
    line: &[u8],
    most: Option<usize>,
    over: bool,
    desk: Desk,
) -> Result<(), Said> {
    let mut room = rooms::block();
    let (block, column) = column::open(rt, line, &mut room, desk)?;
    if kinds::of_spec(column.spec) != Kind::Signed {
        writeln!(
            files::about(words::word(line, 1), desk),
            "column {}: a log goes over a delta column alone (refusal 17)",
            column.position
        );
        return Err(Said);
    }
    files::check_free(rt, words::word(line, 5), over, desk)?;
    let w = Wanted {
        block,
        column,
        most,
        over,
    };
    replay_log(rt, line, w, desk)
}

// Behind --at stands how many entries are replayed.
fn replay_at(
    rt: &impl Files<File = File>,
    line: &[u8],
    over: bool,
    desk: Desk,
) -> Result<(), Said> {
    if !matches!(words::word(line, 6), b"--at") {
        return wrong(desk);
    }
    let most = column::place(words::word(line, 7), "a number of entries", desk)?;
    replay(rt, line, Some(most), over, desk)
}

fn wrong(desk: Desk) -> Result<(), Said> {
    help::wrong(
        "replay FILE COLUMN LOG --to OUT [--at ENTRIES] [--over]",
        desk,
    )
}

// What stands behind --to OUT: nothing, --over, --at ENTRIES, or both.
pub fn run(rt: &impl Files<File = File>, line: &[u8], desk: Desk) -> Result<(), Said> {
    if !matches!(words::word(line, 4), b"--to") {
        return wrong(desk);
    }
    match (words::over(line, 6), words::over(line, 8)) {
        (Some(over), _) => replay(rt, line, None, over, desk),
        (_, Some(over)) => replay_at(rt, line, over, desk),
        _ => wrong(desk),
    }
}
