// One column in our form, written anew by the library's salvage of its kind, which keeps all of a sound one; or its bytes as they are, where it has that form or
// cannot have it.
use crate::column::Column;
use crate::kinds::Kind;
use crate::refusals::Refusal;
use crate::walk::Surveyed;
use crate::{forms, kinds, saved, walk};
use refusal::Why;

#[derive(Clone, Copy)]
pub enum Change {
    // It is in our form.
    Ours,
    // It is written anew.
    Renewed,
    // It has absent readings alone, for which our form has no bytes.
    Absent,
    // It has more readings than there are slots.
    Long,
    // It does not read.
    Broken(Refusal),
    // Its type is not read here.
    Unread,
}

// What became of a column; how many readings it has before its fault; and how many bytes were written, none where there was no room for them.
#[derive(Clone, Copy)]
pub struct Renewed {
    pub change: Change,
    pub readings: u64,
    pub len: Option<usize>,
}

// Refused with 10 for want of room in the data, with 9 for want of slots.
fn write_anew(c: Column<'_>, data: &mut [u8], at: usize) -> (Change, Option<usize>) {
    let Some(room) = data.get_mut(at..) else {
        return (Change::Renewed, None);
    };
    match saved::renew(c.spec, c.part, room) {
        Ok(saved) => (Change::Renewed, Some(saved.written)),
        Err(refusal) if refusal.0 == Why::OutputTooShort => (Change::Renewed, None),
        Err(_) => (Change::Long, saved::keep(c.part, data, at)),
    }
}

// Why a column's bytes are kept as they are, where they are.
fn reason_to_keep(c: Column<'_>, kind: Kind, fault: Option<Refusal>) -> Option<Change> {
    if kind == Kind::Unserved {
        return Some(Change::Unread);
    }
    if let Some(fault) = fault {
        return Some(Change::Broken(fault));
    }
    if !forms::is_other(c.part, c.spec) {
        return Some(Change::Ours);
    }
    forms::is_absent(c.part, kind).then_some(Change::Absent)
}

// A column in the data from `at` on.
pub fn renew(c: Column<'_>, data: &mut [u8], at: usize) -> Renewed {
    let kind = kinds::of_spec(c.spec);
    let Surveyed { readings, fault } = walk::survey(c.part, kind);
    let (change, len) = match reason_to_keep(c, kind, fault) {
        Some(change) => (change, saved::keep(c.part, data, at)),
        None => write_anew(c, data, at),
    };
    Renewed {
        change,
        readings,
        len,
    }
}
