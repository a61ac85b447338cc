// Files: read whole, and written completely or not at all.
use crate::parts;
use crate::pen::{Desk, Pen, Said, Sheet};
use crate::refusals::Refusal;
use std::fs::{File, OpenOptions};
use std::io::Read;
use std::rt::Files;
use std::{fmt, fs, io, str};

// The system's numbers of the errors that are told apart. An `ErrorKind` would take EPERM for EACCES.
const ENOENT: i32 = 2;

const EACCES: i32 = 13;

const EEXIST: i32 = 17;

const EISDIR: i32 = 21;

const ENOSPC: i32 = 28;

// Why a file is not read or written: an error of the system by its number, or 0 where it has none; its name is not text, by which alone a file is opened; or
// it is larger than the room.
#[derive(Clone, Copy)]
enum Failure {
    System(i32),
    NoText,
    TooLarge,
}

impl From<io::Error> for Failure {
    fn from(error: io::Error) -> Failure {
        Failure::System(error.raw_os_error().unwrap_or(0))
    }
}

impl fmt::Display for Failure {
    fn fmt<W: fmt::Write>(&self, f: &mut fmt::Formatter<W>) -> fmt::Result {
        f.write_str(match *self {
            Failure::System(ENOENT) => "there is no such file or folder",
            Failure::System(EACCES) => "it may not be opened",
            Failure::System(EISDIR) => "it is a folder",
            Failure::System(ENOSPC) => "the disk is full",
            Failure::System(EEXIST) => {
                "the unfinished file beside it, of the same name with .part behind it, is in the way; remove it if no other run writes it"
            }
            Failure::System(_) => "the system failed to open, read or write it",
            Failure::NoText => "its name is not UTF-8, and no such file is opened",
            Failure::TooLarge => "larger than the 524,288 bytes that this tool takes",
        })
    }
}

// The name of a file as text.
fn name_of(path: &[u8]) -> Result<&str, Failure> {
    str::from_utf8(path).map_err(|_| Failure::NoText)
}

fn open(rt: &impl Files<File = File>, path: &[u8]) -> Result<File, Failure> {
    Ok(fs::open(rt, name_of(path)?)?)
}

// A new file.
fn create(rt: &impl Files<File = File>, path: &[u8]) -> Result<File, Failure> {
    let name = name_of(path)?;
    let file = OpenOptions::new()
        .write(true)
        .create_new(true)
        .open(rt, name)?;
    Ok(file)
}

fn rename(rt: &impl Files<File = File>, from: &[u8], to: &[u8]) -> Result<(), Failure> {
    Ok(fs::rename(rt, name_of(from)?, name_of(to)?)?)
}

fn remove(rt: &impl Files<File = File>, path: &[u8]) -> Result<(), Failure> {
    Ok(fs::remove_file(rt, name_of(path)?)?)
}

// The file has come to its end only where one more read gives nothing.
fn fill<'r>(file: &mut File, room: &'r mut [u8]) -> Result<&'r [u8], Failure> {
    let mut n = 0;
    while n < room.len() {
        let got = file.read(&mut room[n..])?;
        if got == 0 {
            return Ok(&room[..n]);
        }
        n += got;
    }
    let mut more = [0u8; 1];
    if file.read(&mut more)? != 0 {
        return Err(Failure::TooLarge);
    }
    Ok(room)
}

fn fetch<'r>(
    rt: &impl Files<File = File>,
    path: &[u8],
    room: &'r mut [u8],
) -> Result<&'r [u8], Failure> {
    let mut file = open(rt, path)?;
    fill(&mut file, room)
}

// The beginning of a message about a file.
pub fn about(path: &[u8], desk: Desk) -> Pen<'static> {
    let mut notes = desk.notes();
    write!(notes, "tablet: ");
    notes.bytes(path);
    write!(notes, ": ");
    notes
}

// A refusal of a whole file.
pub fn say_refused(path: &[u8], refusal: Refusal, desk: Desk) -> Said {
    writeln!(about(path, desk), "{refusal}");
    Said
}

fn say_failed(path: &[u8], failure: Failure, desk: Desk) -> Said {
    writeln!(about(path, desk), "{failure}");
    Said
}

// Reads a file into the room, and answers its bytes. What fails is said.
pub fn read<'r>(
    rt: &impl Files<File = File>,
    path: &[u8],
    room: &'r mut [u8],
    desk: Desk,
) -> Result<&'r [u8], Said> {
    fetch(rt, path, room).map_err(|failure| say_failed(path, failure, desk))
}

// The name of the file that is written first; empty where it is longer than the room.
fn part_name<'n>(path: &[u8], name: &'n mut [u8]) -> &'n [u8] {
    let n = put_part_name(path, name).unwrap_or(0);
    parts::between(name, 0, n)
}

fn put_part_name(path: &[u8], name: &mut [u8]) -> Option<usize> {
    let at = parts::put(name, 0, path)?;
    parts::put(name, at, b".part")
}

fn is_there(rt: &impl Files<File = File>, path: &[u8]) -> bool {
    !matches!(
        open(rt, path),
        Err(Failure::System(ENOENT) | Failure::NoText)
    )
}

// May a file of this name be written? One that is there is in the way, unless `over`, and that is said.
pub fn check_free(
    rt: &impl Files<File = File>,
    path: &[u8],
    over: bool,
    desk: Desk,
) -> Result<(), Said> {
    if over || !is_there(rt, path) {
        return Ok(());
    }
    writeln!(
        about(path, desk),
        "it is there already, and is left as it is; --over as the last word replaces it"
    );
    Err(Said)
}

// Opens the part file of a path, or says why not.
pub fn begin(
    rt: &impl Files<File = File>,
    path: &[u8],
    over: bool,
    desk: Desk,
) -> Result<File, Said> {
    check_free(rt, path, over, desk)?;
    let mut name = [0u8; 4096];
    create(rt, part_name(path, &mut name)).map_err(|failure| say_failed(path, failure, desk))
}

// Closes the part file and gives it its name, or removes it and says why. The error is that of the pen which wrote it.
pub fn end(
    rt: &impl Files<File = File>,
    path: &[u8],
    file: File,
    error: Option<i32>,
    desk: Desk,
) -> Result<(), Said> {
    let mut name = [0u8; 4096];
    let part = part_name(path, &mut name);
    let Err(failure) = name_kept(rt, file, error, part, path) else {
        return Ok(());
    };
    let _ = remove(rt, part);
    Err(say_failed(path, failure, desk))
}

// The part file under its name, where it is kept.
fn name_kept(
    rt: &impl Files<File = File>,
    file: File,
    error: Option<i32>,
    part: &[u8],
    path: &[u8],
) -> Result<(), Failure> {
    close(file, error)?;
    rename(rt, part, path)
}

// Closes what was written. It is kept where all of it is on the disk.
fn close(file: File, error: Option<i32>) -> Result<(), Failure> {
    file.sync_all()?;
    match error {
        Some(error) => Err(Failure::System(error)),
        None => Ok(()),
    }
}

// Writes a file, completely or not at all.
pub fn save(
    rt: &impl Files<File = File>,
    path: &[u8],
    content: &[u8],
    over: bool,
    desk: Desk,
) -> Result<(), Said> {
    save_both(rt, path, content, b"", over, desk)
}

// The same for a file of two parts.
pub fn save_both(
    rt: &impl Files<File = File>,
    path: &[u8],
    front: &[u8],
    rest: &[u8],
    over: bool,
    desk: Desk,
) -> Result<(), Said> {
    let file = begin(rt, path, over, desk)?;
    let mut page = Pen::on(Sheet::Page(&file));
    page.bytes(front);
    page.bytes(rest);
    let error = page.error;
    end(rt, path, file, error, desk)
}
