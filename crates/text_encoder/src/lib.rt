// Writing a list of names as a String column (the crate's RleEncoder over strings): the stretches of the list found by looking ahead, once for their
// size and once to write them. One walk serves the plain list, as a column of no bytes with nothing replaced, and the edit of a column (`range`).
#![tactic(auto)]

ghost use Rattle.std.specs.Prelude.{◌≡◌, ◌-◌, ◌^◌, ◌≤◌, length};
ghost use Rattle.std.proofs.lemmas.List.Edits.{sets};
ghost use Rattle.leb128.specs.Answer.{within};
ghost use Rattle.encoding.specs.Cases.{answer_of, maybe_of, fit};
ghost use Rattle.encoding.specs.Given.{sized, Encoded};
ghost use Rattle.encoding.specs.Limit.{limit};
ghost use Rattle.encoding.specs.Writer.{column_bytes};
ghost use Rattle.text.specs.Text.{text_e};
ghost use Rattle.text.specs.Given.{name_list, names_judged};
ghost use Rattle.text_encoder.specs.Walks.{Pairs};

pub mod range;
mod sizes;
mod spliced;
mod stretches;
mod walk;
mod writing;

use crate::spliced::{put_spliced, spliced_len};
use encoding::{Answer, Size};
use refusal::{Refusal, Why};

// How many bytes a list that was judged takes.
fn list_len(bytes: &[u8], starts: &[u64], lens: &[u64], present: &[u8]) -> Size
    requires { (Pairs bytes.now starts.now lens.now present.now) × (length starts.now ≤ limit) }
    ensures { maybe_of result ≡ fit (length (column_bytes text_e
        (name_list bytes.now starts.now lens.now present.now))) }
{
    spliced_len(&bytes[..0], bytes, starts, lens, present, 0, 0)
}

// How many bytes a list takes, or why it is refused; 10 where it takes more than a u64 counts.
pub fn encoded_len(bytes: &[u8], starts: &[u64], lens: &[u64], present: &[u8]) -> Answer
    ensures { answer_of result ≡ within 10 (2 ^ 64 - 1)
        (sized (column_bytes text_e (name_list bytes.now starts.now lens.now present.now))
        (names_judged bytes.now starts.now lens.now present.now)) }
{
    given_names::judge_names(bytes, starts, lens, present)?;
    match list_len(bytes, starts, lens, present) {
        Some(n) => Ok(n),
        None => Err(Refusal(Why::OutputTooShort, 0)),
    }
}

// A list that was judged, at the front of an output with room for it.
fn put_list(bytes: &[u8], starts: &[u64], lens: &[u64], present: &[u8], out: &mut [u8])
    requires pairs { (Pairs bytes.now starts.now lens.now present.now) × (length starts.now ≤ limit) }
    requires present_in_bounds { length (column_bytes text_e (name_list bytes.now starts.now lens.now present.now)) ≤ length out.old }
    ensures { out.new ≡ sets out.old 0 (column_bytes text_e
        (name_list bytes.now starts.now lens.now present.now)) }
{
    put_spliced(&bytes[..0], bytes, starts, lens, present, 0, 0, out);
}

// The list as a column, at the front of `out`.
pub fn encode(bytes: &[u8], starts: &[u64], lens: &[u64], present: &[u8], out: &mut [u8]) -> Answer
    ensures { Encoded
        (column_bytes text_e (name_list bytes.now starts.now lens.now present.now))
        (names_judged bytes.now starts.now lens.now present.now)
        out.old out.new (answer_of result) }
{
    let n = encoded_len(bytes, starts, lens, present)?;
    if n <= out.len() as u64 {
        put_list(bytes, starts, lens, present, out);
        return Ok(n);
    }
    Err(Refusal(Why::OutputTooShort, 0))
}
