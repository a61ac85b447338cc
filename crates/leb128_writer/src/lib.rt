// Writing the one encoding of a number that the readers of `leb128` accept.
#![tactic(auto)]

ghost use Rattle.std.specs.Prelude.{◌≡◌, ◌+◌, ◌<◌, ◌≤◌, Bool, length};
ghost use Rattle.std.proofs.lemmas.List.Edits.{sets};
ghost use Rattle.leb128.specs.Answer.{written, left};
ghost use Rattle.leb128.specs.Write.{group, encoded, u64_bytes, i64_bytes, put_at, put_out};
ghost use Rattle.leb128_writer.specs.Cases.{written_of};

use leb128::magnitude;
use refusal::{Refusal, Why};

// The position behind what was written.
pub type Written = Result<usize, Refusal>;

// How many bytes the encoding of v has, whose final byte has less than limit.
fn encoded_len(limit: u64, v: u64) -> usize
    requires { 2 ≤ limit }
    ensures { (neg : Bool) → result ≡ length (encoded limit neg v) }
{
    let mut n: usize = 1;
    let mut w = v;
    while limit <= w {
        w = w / 128;
        n = n + 1;
    }
    n
}

// The seven bits d, complemented in a negative number: its sign, extended through every byte.
fn group_of(neg: bool, d: u64) -> u8
    requires { d < 128 }
    ensures { (result ≡ group neg d) × (result < 128) }
{
    if neg { 127 - d as u8 } else { d as u8 }
}

// Writes the encoding of v into out, from at on.
fn put_digits(limit: u64, neg: bool, v: u64, out: &mut [u8], at: usize)
    requires le_limit { (2 ≤ limit) × (limit ≤ 128) }
    requires v_in_bounds { at + length (encoded limit neg v) ≤ length out.old }
    ensures { out.new ≡ sets out.old at (encoded limit neg v) }
{
    let mut w = v;
    let mut i = at;
    while limit <= w {
        out[i] = 128 + group_of(neg, w % 128);
        w = w / 128;
        i = i + 1;
    }
    out[i] = group_of(neg, w);
}

// The same where it fits, and else refusal 10, which changes nothing.
fn put_encoded(limit: u64, neg: bool, v: u64, out: &mut [u8], at: usize) -> Written
    requires { (2 ≤ limit) × (limit ≤ 128) }
    ensures result_value { written_of result ≡ put_at out.old at (encoded limit neg v) }
    ensures out_after { out.new ≡ put_out out.old at (encoded limit neg v) }
{
    let n = encoded_len(limit, v);
    if out.len() < n {
        return Err(Refusal(Why::OutputTooShort, 0));
    }
    if out.len() - n < at {
        return Err(Refusal(Why::OutputTooShort, 0));
    }
    put_digits(limit, neg, v, out, at);
    Ok(at + n)
}

// How many bytes v takes.
pub fn len_u64(v: u64) -> usize
    ensures { result ≡ length (u64_bytes v) }
{
    encoded_len(128, v)
}

pub fn len_i64(x: i64) -> usize
    ensures { result ≡ length (i64_bytes x) }
{
    encoded_len(64, magnitude(x))
}

// Writes v at a position of out.
pub fn put_u64(v: u64, out: &mut [u8], at: usize) -> Written
    ensures result_value { written_of result ≡ put_at out.old at (u64_bytes v) }
    ensures out_after { out.new ≡ put_out out.old at (u64_bytes v) }
{
    put_encoded(128, false, v, out, at)
}

pub fn put_i64(x: i64, out: &mut [u8], at: usize) -> Written
    ensures result_value { written_of result ≡ put_at out.old at (i64_bytes x) }
    ensures out_after { out.new ≡ put_out out.old at (i64_bytes x) }
{
    if x < 0 {
        put_encoded(64, true, magnitude(x), out, at)
    } else {
        put_encoded(64, false, magnitude(x), out, at)
    }
}

// Writes v at the front of out.
pub fn write_u64(v: u64, out: &mut [u8]) -> Written
    ensures result_value { written_of result ≡ written out.old (u64_bytes v) }
    ensures out_after { out.new ≡ left (written out.old (u64_bytes v)) (u64_bytes v) out.old }
{
    put_u64(v, out, 0)
}

pub fn write_i64(x: i64, out: &mut [u8]) -> Written
    ensures result_value { written_of result ≡ written out.old (i64_bytes x) }
    ensures out_after { out.new ≡ left (written out.old (i64_bytes x)) (i64_bytes x) out.old }
{
    put_i64(x, out, 0)
}
