// The check of a given list of names: its three slices, each pair within the lent bytes, each name UTF-8.
#![tactic(auto)]

ghost use Rattle.std.specs.Prelude.{◌≡◌, true, length};
ghost use Rattle.std.proofs.Math.Option.{none};
ghost use Rattle.encoding.specs.Cases.{answer_of, maybe_of};
ghost use Rattle.text.specs.Text.{bytes_at};
ghost use Rattle.text.specs.Given.{name_list, good_pair, bad_pair, good_text, bad_text, names_given, names_judged};

use encoding::{Answer, LIMIT};
use refusal::{Refusal, Why};

// Is the presence byte 0 or 1, and the pair of a name that is present within `size` bytes? Nothing is added, so that no sum wraps.
fn is_good_pair(size: usize, start: u64, len: u64, flag: u8) -> bool
    ensures { result ≡ good_pair size start len flag }
{
    if flag == 0 {
        return true;
    }
    if flag > 1 {
        return false;
    }
    if size as u64 >= len {
        return start <= size as u64 - len;
    }
    false
}

// The first index whose presence byte or pair is bad.
fn check_pairs(size: usize, starts: &[u64], lens: &[u64], present: &[u8]) -> Option<usize>
    requires { (length lens.now ≡ length starts.now) × (length present.now ≡ length starts.now) }
    ensures { maybe_of result ≡ bad_pair size 0 starts.now lens.now present.now }
{
    let mut i: usize = 0;
    while i < starts.len() {
        if !is_good_pair(size, starts[i], lens[i], present[i]) {
            return Some(i);
        }
        i += 1;
    }
    None
}

// Is the name UTF-8, if it is present?
fn is_good_text(bytes: &[u8], start: usize, len: usize, flag: u8) -> bool
    requires { good_pair (length bytes.now) start len flag ≡ true }
    ensures { result ≡ good_text (bytes_at bytes.now start len) flag }
{
    if flag == 0 {
        return true;
    }
    let end = start + len;
    utf8::is_utf8(&bytes[start..end])
}

// The first index whose name is not UTF-8.
fn check_text(bytes: &[u8], starts: &[u64], lens: &[u64], present: &[u8]) -> Option<usize>
    requires lens_len { (length lens.now ≡ length starts.now) × (length present.now ≡ length starts.now) }
    requires present_value { bad_pair (length bytes.now) 0 starts.now lens.now present.now ≡ none }
    ensures { maybe_of result ≡ bad_text 0 (name_list bytes.now starts.now lens.now present.now) }
{
    let mut i: usize = 0;
    while i < starts.len() {
        if !is_good_text(bytes, starts[i] as usize, lens[i] as usize, present[i]) {
            return Some(i);
        }
        i += 1;
    }
    None
}

// Is this a list of names, whatever its length? 8, then 20.
pub fn check_names(bytes: &[u8], starts: &[u64], lens: &[u64], present: &[u8]) -> Answer
    ensures { answer_of result ≡ names_given bytes.now starts.now lens.now present.now }
{
    if starts.len() != lens.len() {
        return Err(Refusal(Why::BadList, 0));
    }
    if lens.len() != present.len() {
        return Err(Refusal(Why::BadList, 0));
    }
    if let Some(i) = check_pairs(bytes.len(), starts, lens, present) {
        return Err(Refusal(Why::BadList, i));
    }
    if let Some(i) = check_text(bytes, starts, lens, present) {
        return Err(Refusal(Why::NotUtf8, i));
    }
    Ok(0)
}

// And within the limit? Its length, or the refusal.
pub fn judge_names(bytes: &[u8], starts: &[u64], lens: &[u64], present: &[u8]) -> Answer
    ensures { answer_of result ≡ names_judged bytes.now starts.now lens.now present.now }
{
    check_names(bytes, starts, lens, present)?;
    if starts.len() as u64 <= LIMIT {
        return Ok(starts.len() as u64);
    }
    Err(Refusal(Why::TooMany, 0))
}
