// Writing a list of booleans as a column, in both forms (the encoders of the crate's columnar/encoding/boolean.rs): the lent
// list is gone over byte by byte for the size of its counts, and looking ahead to write them.
#![tactic(auto)]

ghost use Rattle.std.specs.Prelude.{◌≡◌, true, false, [], ◌+◌, ◌≤◌, length, drop};
ghost use Rattle.std.proofs.lemmas.List.Edits.{sets};
ghost use Rattle.leb128.specs.Write.{u64_bytes};
ghost use Rattle.encoding.specs.Ahead.{PutAt};
ghost use Rattle.encoding.specs.Cases.{answer_of};
ghost use Rattle.encoding.specs.Given.{list_judged, sized, Encoded};
ghost use Rattle.encoding.specs.Limit.{limit};
ghost use Rattle.boolean_encoder.specs.Ahead.{alike, Flags};
ghost use Rattle.boolean_encoder.specs.Writer.{bool_bytes, maybe_bytes};

use encoding::Answer;
use refusal::{Refusal, Why};

// Do the 32 bytes from k on all equal `flag`? No early way out, so that they are looked at at once.
fn alike_block(values: &[u8], k: usize, flag: u8) -> bool
    requires { k + 32 ≤ length values.now }
    ensures { result ≡ true → k + alike flag (drop k values.now) ≡ k + 32 + alike flag (drop (k + 32) values.now) }
{
    let mut other: u8 = 0;
    let mut j: usize = 0;
    while j < 32 {
        if values[k + j] != flag {
            other = 1;
        }
        j += 1;
    }
    other == 0
}

// Past as many blocks of 32 bytes that equal `flag` as stand from i on.
fn skip_blocks(values: &[u8], i: usize, flag: u8) -> usize
    requires { i ≤ length values.now }
    ensures { (i + alike flag (drop i values.now) ≡ result + alike flag (drop result values.now))
        × (i ≤ result) × (result ≤ length values.now) }
{
    let mut k = i;
    while 32 <= values.len() - k {
        if !alike_block(values, k, flag) {
            return k;
        }
        k += 32;
    }
    k
}

// The index behind the bytes from i on that equal `flag`: in blocks at first; and one by one at first, since most runs are short.
fn far_end(values: &[u8], i: usize, flag: u8) -> usize
    requires { i ≤ length values.now }
    ensures { result ≡ i + alike flag (drop i values.now) }
{
    let mut k = skip_blocks(values, i, flag);
    while k < values.len() {
        if values[k] != flag {
            return k;
        }
        k += 1;
    }
    k
}

fn turn_end(values: &[u8], i: usize, flag: u8) -> usize
    requires { i ≤ length values.now }
    ensures { result ≡ i + alike flag (drop i values.now) }
{
    let stop = if values.len() - i < 16 {
        values.len()
    } else {
        i + 16
    };
    let mut k = i;
    while k < stop {
        if values[k] != flag {
            return k;
        }
        k += 1;
    }
    far_end(values, k, flag)
}

// How many bytes the count of a run takes where it ends; none where it goes on.
fn ended_len(run: usize, ends: bool) -> usize
    ensures { (ends ≡ true → result ≡ length (u64_bytes run)) × (ends ≡ false → result ≡ 0) × (result ≤ 10) }
{
    let mut size: usize = 0;
    if ends {
        size = 1;
    }
    if run >= 128 {
        if ends {
            size = leb128_writer::len_u64(run as u64);
        }
    }
    size
}

// How many bytes a list within the limit takes. Whether a run ends at k decides no branch, since that cannot be foretold; whole blocks of one
// run are skipped. The run at k begins at i.
fn counts_len(values: &[u8]) -> usize
    requires { Flags values.now × (length values.now ≤ limit) }
    ensures { result ≡ length (bool_bytes values.now) }
{
    if values.len() == 0 {
        return 0;
    }
    let mut n: usize = 0;
    let mut i: usize = 0;
    let mut flag: u8 = 0;
    let mut k: usize = 0;
    while k < values.len() {
        k = skip_blocks(values, k, flag);
        let stop = if values.len() - k < 32 {
            values.len()
        } else {
            k + 32
        };
        while k < stop {
            let b = values[k];
            n += ended_len(k - i, b != flag);
            if b != flag {
                i = k;
            }
            flag = b;
            k += 1;
        }
    }
    n + leb128_writer::len_u64((k - i) as u64)
}

// A number where there is room for it; the position behind it.
fn put_number(out: &mut [u8], at: usize, v: u64) -> usize
    requires { at + length (u64_bytes v) ≤ length out.old }
    ensures { PutAt out.old out.new at result (u64_bytes v) }
{
    match leb128_writer::put_u64(v, out, at) {
        Ok(next) => next,
        Err(Refusal(_, place)) => place,
    }
}

// All counts.
fn put_counts(values: &[u8], out: &mut [u8])
    requires { Flags values.now × (length (bool_bytes values.now) ≤ length out.old) }
    ensures { out.new ≡ sets out.old 0 (bool_bytes values.now) }
{
    let mut at: usize = 0;
    let mut i: usize = 0;
    let mut flag: u8 = 0;
    while i < values.len() {
        let k = turn_end(values, i, flag);
        at = put_number(out, at, (k - i) as u64);
        i = k;
        flag = 1 - flag;
    }
}

// How many bytes a list takes, or why it is refused.
pub fn encoded_len(values: &[u8]) -> Answer
    ensures { answer_of result ≡ sized (bool_bytes values.now) (list_judged (length values.now) values.now) }
{
    given_list::judge_list(values.len(), values)?;
    Ok(counts_len(values) as u64)
}

// The list as a column, at the front of `out`.
pub fn encode(values: &[u8], out: &mut [u8]) -> Answer
    ensures { Encoded (bool_bytes values.now) (list_judged (length values.now) values.now)
        out.old out.new (answer_of result) }
{
    let n = encoded_len(values)?;
    if (out.len() as u64) < n {
        return Err(Refusal(Why::OutputTooShort, 0));
    }
    put_counts(values, out);
    Ok(n)
}

// A list that is written as no bytes: 0, or why it is refused.
fn nothing_len(values: &[u8]) -> Answer
    ensures { answer_of result ≡ sized [] (list_judged (length values.now) values.now) }
{
    given_list::judge_list(values.len(), values)?;
    Ok(0)
}

// The same two of the form that writes nothing when all is false.
pub fn maybe_encoded_len(values: &[u8]) -> Answer
    ensures { answer_of result ≡ sized (maybe_bytes values.now) (list_judged (length values.now) values.now) }
{
    if given_list::any_present(values) {
        encoded_len(values)
    } else {
        nothing_len(values)
    }
}

pub fn maybe_encode(values: &[u8], out: &mut [u8]) -> Answer
    ensures { Encoded (maybe_bytes values.now) (list_judged (length values.now) values.now)
        out.old out.new (answer_of result) }
{
    if !given_list::any_present(values) {
        return nothing_len(values);
    }
    encode(values, out)
}
