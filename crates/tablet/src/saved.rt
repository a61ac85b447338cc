// One column saved: its bytes as they are where they read, else what survives of it, written anew by the library's salvage of its kind.
use crate::kinds::Kind;
use crate::refusals::Refusal;
use crate::rows::Piece;
use crate::walk::Surveyed;
use crate::{kinds, parts, rooms, walk};
use refusal::Why;
use salvage::Salvaged;

#[derive(Clone, Copy)]
pub enum Fate {
    // All its bytes are there, and read.
    Whole,
    // All its bytes are there, and its type is not read here.
    Unread,
    // The bytes that are there read, and the table says that there were more.
    Short,
    // The readings before its fault are written anew.
    Salvaged(Refusal),
    // More readings survive than there are slots; all its bytes are there, and are kept with the fault.
    Long(Refusal),
    // Nothing of it is written, and why, where anything is known.
    Lost(Option<Refusal>),
}

// What became of a column; how many of its readings survive; and how many bytes were written, none where there was no room for them.
#[derive(Clone, Copy)]
pub struct Saved {
    pub fate: Fate,
    pub readings: u64,
    pub len: Option<usize>,
}

fn unsigned(typ: u8, part: &[u8], out: &mut [u8]) -> Salvaged {
    let mut values = rooms::unsigned();
    let mut present = rooms::flags();
    rle_salvage::salvage(typ, part, &mut values, &mut present, out)
}

fn signed(typ: u8, part: &[u8], out: &mut [u8]) -> Salvaged {
    let mut values = rooms::signed();
    let mut present = rooms::flags();
    delta_salvage::salvage(typ, part, &mut values, &mut present, out)
}

fn yes_no(typ: u8, part: &[u8], out: &mut [u8]) -> Salvaged {
    let mut values = rooms::flags();
    boolean_salvage::salvage(typ, part, &mut values, out)
}

fn names(typ: u8, part: &[u8], out: &mut [u8]) -> Salvaged {
    let mut starts = rooms::unsigned();
    let mut lens = rooms::unsigned();
    let mut present = rooms::flags();
    text_salvage::salvage(typ, part, &mut starts, &mut lens, &mut present, out)
}

// What survives of a column, all of a sound one, at the front of out.
pub fn renew(spec: u32, part: &[u8], out: &mut [u8]) -> Salvaged {
    let typ = kinds::number(spec);
    match kinds::of_spec(spec) {
        Kind::Signed => signed(typ, part, out),
        Kind::Unsigned => unsigned(typ, part, out),
        Kind::YesNo => yes_no(typ, part, out),
        Kind::Text => names(typ, part, out),
        Kind::Unserved => Err(refusal::Refusal(Why::NotServed, 0)),
    }
}

// How many bytes of a column were put into the data from `at` on as they are.
pub fn keep(part: &[u8], data: &mut [u8], at: usize) -> Option<usize> {
    parts::put(data, at, part)?;
    Some(part.len())
}

fn kept(fate: Fate, readings: u64, part: &[u8], data: &mut [u8], at: usize) -> Saved {
    Saved {
        fate,
        readings,
        len: keep(part, data, at),
    }
}

fn lost(why: Option<Refusal>) -> Saved {
    Saved {
        fate: Fate::Lost(why),
        readings: 0,
        len: Some(0),
    }
}

// A broken column for which there is no room in the data: its fault's number is said.
fn no_room(fault: Refusal) -> Saved {
    Saved {
        fate: Fate::Lost(Some(fault.at(0))),
        readings: 0,
        len: None,
    }
}

// A broken column whose salvage is refused: 10, for want of room in the data, or 9, of slots.
fn refused(
    why: Why,
    readings: u64,
    fault: Refusal,
    c: Piece<'_>,
    data: &mut [u8],
    at: usize,
) -> Saved {
    if why == Why::OutputTooShort {
        return no_room(fault);
    }
    if c.is_whole() {
        return kept(Fate::Long(fault), readings, c.part, data, at);
    }
    lost(Some(Refusal::new(why, 0)))
}

fn save_broken(readings: u64, fault: Refusal, c: Piece<'_>, data: &mut [u8], at: usize) -> Saved {
    let Some(room) = data.get_mut(at..) else {
        return no_room(fault);
    };
    match renew(c.spec, c.part, room) {
        Ok(saved) => Saved {
            fate: Fate::Salvaged(fault),
            readings,
            len: Some(saved.written),
        },
        Err(refusal) => refused(refusal.0, readings, fault, c, data, at),
    }
}

// What a type that is not read here comes to: all its bytes, or nothing.
fn save_unread(c: Piece<'_>, data: &mut [u8], at: usize) -> Saved {
    if c.is_whole() {
        return kept(Fate::Unread, 0, c.part, data, at);
    }
    lost(Some(Refusal::new(Why::NotServed, 0)))
}

// A column of which a part is there, which may be all of it, saved in the data from `at` on.
pub fn save(c: Piece<'_>, data: &mut [u8], at: usize) -> Saved {
    let kind = kinds::of_spec(c.spec);
    if kind == Kind::Unserved {
        return save_unread(c, data, at);
    }
    let Surveyed { readings, fault } = walk::survey(c.part, kind);
    match fault {
        Some(fault) => save_broken(readings, fault, c, data, at),
        None if c.is_whole() => kept(Fate::Whole, readings, c.part, data, at),
        None if c.part.is_empty() => lost(None),
        None => kept(Fate::Short, readings, c.part, data, at),
    }
}
