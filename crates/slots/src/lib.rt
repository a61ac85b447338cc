// A list in lent slots, a range of it replaced in place.
#![tactic(auto)]

ghost use Rattle.std.specs.Prelude.{◌≡◌, ◌+◌, ◌-◌, ◌≤◌, pos, length, take};
ghost use Rattle.std.specs.List.{copy_within};
ghost use Rattle.std.proofs.Math.Seq.{paste};
ghost use Rattle.std.proofs.Common.{rules};
ghost use Rattle.encoding.specs.Cases.{answer_of};
ghost use Rattle.slots.specs.Splice.{spliced, in_slots, spliced_slots, splice_answer};

use encoding::Answer;
use refusal::{Refusal, Why};

// What a slot holds that no element of the list is in. A clone of it is itself, as `fill` asks.
pub trait Blank: Copy {
    ghost BLANK: { Self };

    const BLANK: Self;

    ghost clones: { Self.is_infallible BLANK × ((y : Self) → Self.is_clone BLANK y → y ≡ BLANK) };
}

impl Blank for u64 {
    ghost BLANK = { 0 };

    const BLANK: u64 = 0;

    ghost clones = { Prim.search rules };
}

impl Blank for i64 {
    ghost BLANK = { pos 0 };

    const BLANK: i64 = 0;

    ghost clones = { Prim.search rules };
}

impl Blank for u8 {
    ghost BLANK = { 0 };

    const BLANK: u8 = 0;

    ghost clones = { Prim.search rules };
}

// The elements from `from` up to `end`, to `to` on. Where as many replace as many, nothing moves: `copy_within` would go over them all.
fn move_to<T: Copy>(s: &mut [T], from: usize, end: usize, to: usize)
    requires { (from ≤ end) × (end ≤ length s.old) × (to + (end - from) ≤ length s.old) }
    ensures { s.new ≡ copy_within s.old from end to }
{
    if to != from {
        s.copy_within(from..end, to);
    }
}

// The new elements, to `at` on. A loop: of `copy_from_slice` the compiler makes a call of memmove, and hosts lend memcpy and memset alone.
fn put<T: Copy>(s: &mut [T], at: usize, new: &[T])
    requires { at + length new.now ≤ length s.old }
    ensures { s.new ≡ paste s.old at new.now (length new.now) }
{
    for i in 0..new.len() {
        s[at + i] = new[i];
    }
}

// The splice where there is room for it.
fn place<T: Blank>(s: &mut [T], old: usize, start: usize, end: usize, new: &[T]) -> usize
    requires { (start ≤ end) × (end ≤ old) × (old ≤ length s.old) × (start + length new.now + (old - end) ≤ length s.old) }
    ensures { (result ≡ start + length new.now + (old - end))
        × (s.new ≡ in_slots T.BLANK s.old old (spliced (take old s.old) start end new.now)) }
{
    let to = start + new.len();
    let len = to + (old - end);
    move_to(s, end, old, to);
    put(s, start, new);
    if len < old {
        s[len..old].fill(T::BLANK);
    }
    len
}

// The first `old` elements of s are a list, of which those from start up to end are replaced by new: the new list's length.
pub fn splice<T: Blank>(s: &mut [T], old: usize, start: usize, end: usize, new: &[T]) -> Answer
    ensures result_value { answer_of result ≡ splice_answer (length s.old) old start end (length new.now) }
    ensures s_after { s.new ≡ spliced_slots T.BLANK (splice_answer (length s.old) old start end (length new.now))
        s.old old start end new.now }
{
    if end < start || old < end {
        return Err(Refusal(Why::BadRange, 0));
    }
    if s.len() < old || s.len() - old + (end - start) < new.len() {
        return Err(Refusal(Why::TooFewSlots, 0));
    }
    Ok(place(s, old, start, end, new) as u64)
}
