// The tool a desk uses: it looks at blocks of columns, draws them, edits them, makes them and saves what is left of them. `help.rt` says how it is used.
//
// What was asked for goes to standard output, and what went wrong to standard error: the program ends with status 0 either way, and the script
// ./tablet makes one of that.
#![tactic(auto)]

mod announced;
mod apply;
mod around;
mod because;
mod column;
mod commands;
mod cut;
mod draw;
mod edit;
mod fates;
mod files;
mod forms;
mod given;
mod help;
mod kept;
mod kinds;
mod layer;
mod lists;
mod make;
mod names;
mod numbers;
mod parts;
mod pen;
mod places;
mod range;
mod read;
mod refusals;
mod renewed;
mod replaying;
mod rewrite;
mod rooms;
mod rows;
mod salvaging;
mod saved;
mod script;
mod show;
mod sound;
mod svg;
mod terminal;
mod walk;
mod why;
mod words;

use pen::{Desk, Said, Sheet};
use std::fs::File;
use std::rt::Files;

// A script is no command of a script.
fn run(rt: &impl Files<File = File>, line: &[u8], desk: Desk) -> Result<(), Said> {
    match words::word(line, 0) {
        [] => help::missing(desk),
        b"script" => script::run(rt, line, desk),
        _ => commands::run(rt, line, desk),
    }
}

fn main(rt: HostRuntime) {
    let desk = Desk {
        out: Sheet::Out(rt.stdout()),
        notes: Sheet::Notes(rt.stderr()),
    };
    let mut room = rooms::block();
    if let Some(line) = words::arguments(&rt, &mut room) {
        let _ = run(&rt, line, desk);
    } else {
        let mut notes = desk.notes();
        writeln!(
            notes,
            "tablet: the words of the command are longer than the 524,288 bytes that this tool takes; tablet script takes long lists"
        );
    }
}
