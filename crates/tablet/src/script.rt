// tablet script FILE: each line of a file as a command. What goes wrong is written in its place among the rest.
use crate::parts::{between, put};
use crate::pen::{Desk, Said};
use crate::{commands, files, help, rooms, words};
use std::fs::File;
use std::rt::Files;

// How many commands there were, and how many went wrong.
#[derive(Clone, Copy)]
struct Tally {
    run: usize,
    wrong: usize,
}

// The words of a line, each with a 0 byte behind it; none where there is no room. A blank between double quotes ends no word; the line's end does.
fn split<'r>(line: &[u8], out: &'r mut [u8]) -> &'r [u8] {
    let mut n = 0;
    let mut open = false;
    if line.len() < out.len() {
        for b in line {
            n = if *b == b' ' && !open {
                end_word(out, n)
            } else {
                put(out, n, &[*b]).unwrap_or(n)
            };
            if *b == b'"' {
                open = !open;
            }
        }
        n = end_word(out, n);
    }
    between(out, 0, n)
}

// Ends the word before n, where one stands open there.
fn end_word(out: &mut [u8], n: usize) -> usize {
    if matches!(between(out, 0, n), [] | [.., 0]) {
        return n;
    }
    put(out, n, b"\0").unwrap_or(n)
}

fn run_line(rt: &impl Files<File = File>, line: &[u8], desk: Desk) -> Result<(), Said> {
    let mut room = rooms::block();
    let words = split(line, &mut room);
    let mut out = desk.out();
    write!(out, "> tablet ");
    out.bytes(line);
    writeln!(out);
    commands::run(rt, words, desk)
}

fn is_remark(line: &[u8]) -> bool {
    matches!(line, [] | [b'#', ..])
}

fn run_lines(rt: &impl Files<File = File>, s: &[u8], desk: Desk) -> Tally {
    let mut tally = Tally { run: 0, wrong: 0 };
    for line in s.split(|b| *b == b'\n') {
        if !is_remark(line) {
            tally.run = tally.run.saturating_add(1);
            if run_line(rt, line, desk).is_err() {
                tally.wrong = tally.wrong.saturating_add(1);
            }
        }
    }
    tally
}

pub fn run(rt: &impl Files<File = File>, line: &[u8], desk: Desk) -> Result<(), Said> {
    if words::count(line) != 2 {
        return help::wrong("script FILE", desk);
    }
    let mut room = rooms::block();
    let lines = files::read(rt, words::word(line, 1), &mut room, desk)?;
    let page = Desk {
        out: desk.out,
        notes: desk.out,
    };
    let Tally { run, wrong } = run_lines(rt, lines, page);
    if wrong == 0 {
        return Ok(());
    }
    let mut notes = desk.notes();
    writeln!(
        notes,
        "tablet: commands that were refused: {wrong} of {run}"
    );
    Err(Said)
}
