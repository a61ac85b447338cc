// Writing: a pen is a sheet, and whether all that was written so far came through.
use std::fmt::Display;
use std::fs::File;
use std::io;
use std::io::{Stderr, Stdout, Write};

// What is written on: standard output, standard error, or a file.
#[derive(Clone, Copy)]
pub enum Sheet<'a> {
    Out(Stdout),
    Notes(Stderr),
    Page(&'a File),
}

impl Write for Sheet<'_> {
    fn write(&mut self, buf: &[u8]) -> io::Result<usize> {
        match *self {
            Sheet::Out(mut out) => out.write(buf),
            Sheet::Notes(mut notes) => notes.write(buf),
            Sheet::Page(mut file) => file.write(buf),
        }
    }

    fn flush(&mut self) -> io::Result<()> {
        Ok(())
    }
}

// The error is the system's number of what last kept a text from coming through, where something did; 0 where it has no number.
#[derive(Clone, Copy)]
pub struct Pen<'a> {
    sheet: Sheet<'a>,
    pub error: Option<i32>,
}

// Where a command writes: what it was asked for, and what went wrong.
#[derive(Clone, Copy)]
pub struct Desk {
    pub out: Sheet<'static>,
    pub notes: Sheet<'static>,
}

// A command went wrong, and what was wrong is said.
#[derive(Clone, Copy)]
pub struct Said;

impl<'a> Pen<'a> {
    pub fn on(sheet: Sheet<'a>) -> Pen<'a> {
        Pen { sheet, error: None }
    }

    fn keep_error(&mut self, wrote: io::Result<()>) {
        if let Err(error) = wrote {
            self.error = Some(error.raw_os_error().unwrap_or(0));
        }
    }

    // Bytes as they stand, which may be no UTF-8.
    pub fn bytes(&mut self, text: &[u8]) {
        let wrote = self.sheet.write_all(text);
        self.keep_error(wrote);
    }

    // What `write!` and `writeln!` call.
    pub fn write_fmt<D: Display + Drop>(&mut self, text: D) {
        let wrote = self.sheet.write_fmt(text);
        self.keep_error(wrote);
    }

    // Did all of it come through? Where not, that is said.
    pub fn finish(self, desk: Desk) -> Result<(), Said> {
        if self.error.is_none() {
            return Ok(());
        }
        let mut notes = desk.notes();
        writeln!(notes, "tablet: not all of the output could be written");
        Err(Said)
    }
}

impl Desk {
    pub fn out(self) -> Pen<'static> {
        Pen::on(self.out)
    }

    pub fn notes(self) -> Pen<'static> {
        Pen::on(self.notes)
    }
}
