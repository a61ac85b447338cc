// The commands by name.
use crate::pen::{Desk, Said};
use crate::{
    draw, edit, help, layer, make, read, replaying, rewrite, salvaging, show, sound, why, words,
};
use std::fs::File;
use std::rt::Files;

// Runs a command.
pub fn run(rt: &impl Files<File = File>, line: &[u8], desk: Desk) -> Result<(), Said> {
    match words::word(line, 0) {
        b"show" => show::run(rt, line, desk),
        b"read" => read::run(rt, line, desk),
        b"draw" => draw::run(rt, line, desk),
        b"check" => sound::run(rt, line, desk),
        b"edit" => edit::run(rt, line, desk),
        b"make" => make::run(rt, line, desk),
        b"salvage" => salvaging::run(rt, line, desk),
        b"rewrite" => rewrite::run(rt, line, desk),
        b"why" => why::run(rt, line, desk),
        b"layer" => layer::run(rt, line, desk),
        b"replay" => replaying::run(rt, line, desk),
        b"help" | b"--help" | b"-h" => help::run(desk),
        name => help::unknown(name, desk),
    }
}
