// An edit of a block by the splice of its column's kind, with readings as `decimal` and `names.rt` keep them.
use crate::given::Given;
use crate::kinds::Kind;
use crate::parts::between;
use crate::range::Range;
use crate::refusals::Refusal;
use crate::{column, kept, names, rooms};
use refusal::Why;

// How long the new block is, or a refusal.
type Edited = Result<usize, Refusal>;

fn unsigned(block: &[u8], r: Range, new: Given<'_>, out: &mut [u8]) -> Edited {
    let mut values = rooms::unsigned();
    let mut present = rooms::flags();
    let spliced = rle_range::splice_integer(
        block,
        r.position,
        r.start,
        r.end,
        new.values,
        new.present,
        &mut values,
        &mut present,
        out,
    )?;
    Ok(spliced.len)
}

fn signed(block: &[u8], r: Range, new: &[i64], new_present: &[u8], out: &mut [u8]) -> Edited {
    let mut values = rooms::signed();
    let mut present = rooms::flags();
    let spliced = delta_range::splice_delta(
        block,
        r.position,
        r.start,
        r.end,
        new,
        new_present,
        &mut values,
        &mut present,
        out,
    )?;
    Ok(spliced.len)
}

fn signed_of(block: &[u8], r: Range, new: Given<'_>, out: &mut [u8]) -> Edited {
    let mut meant = rooms::signed();
    kept::mean_all(new.values, &mut meant);
    let values = between(&meant, 0, new.values.len());
    signed(block, r, values, new.present, out)
}

fn yes_no(block: &[u8], r: Range, new: &[u64], out: &mut [u8]) -> Edited {
    let mut values = rooms::flags();
    let mut flags = rooms::flags();
    kept::narrow_all(new, &mut flags);
    let given = between(&flags, 0, new.len());
    let spliced = boolean_range::splice_boolean(
        block,
        r.position,
        r.start,
        r.end,
        given,
        &mut values,
        out,
    )?;
    Ok(spliced.len)
}

// New names by their starts and lengths in some bytes.
fn names_at(
    block: &[u8],
    r: Range,
    bytes: &[u8],
    new_starts: &[u64],
    new_lens: &[u64],
    new_present: &[u8],
    out: &mut [u8],
) -> Edited {
    let mut starts = rooms::unsigned();
    let mut lens = rooms::unsigned();
    let mut present = rooms::flags();
    let spliced = text_encoder::range::splice_text(
        block,
        r.position,
        r.start,
        r.end,
        bytes,
        new_starts,
        new_lens,
        new_present,
        &mut starts,
        &mut lens,
        &mut present,
        out,
    )?;
    Ok(spliced.len)
}

// A refusal 1 is the column's: the table was read before.
fn names_of(block: &[u8], r: Range, new: Given<'_>, out: &mut [u8]) -> Edited {
    let mut starts = rooms::unsigned();
    let mut lens = rooms::unsigned();
    names::part_all(new.values, &mut starts, &mut lens);
    let n = new.values.len();
    let from = between(&starts, 0, n);
    let long = between(&lens, 0, n);
    names_at(block, r, new.names, from, long, new.present, out).map_err(|refusal| {
        let part = column::locate(block, r.position).map_or(&block[..0], |column| column.part);
        refusal.in_names(part)
    })
}

// The block with the readings of a range replaced by new ones: how long it is.
pub fn apply(block: &[u8], r: Range, kind: Kind, new: Given<'_>, out: &mut [u8]) -> Edited {
    match kind {
        Kind::Signed => signed_of(block, r, new, out),
        Kind::Unsigned => unsigned(block, r, new, out),
        Kind::YesNo => yes_no(block, r, new.values, out),
        Kind::Text => names_of(block, r, new, out),
        Kind::Unserved => Err(Refusal::new(Why::NotServed, 0)),
    }
}
