// A run-length column walked run by run, whatever its values are: where a value ends, and what comes behind a run. Nothing is kept of the values.
#![tactic(auto)]

ghost use Rattle.std.specs.Prelude.{◌≡◌, ◌+◌, ◌≤◌};
ghost use Rattle.encoding.specs.Column.{spot, repeated, literals, run_at};
ghost use Rattle.encoding.specs.Limit.{limit};
ghost use Rattle.runs.specs.Cases.{end_of, next_of};
ghost use Rattle.runs.specs.Values.{element_of, behind};

pub mod walk;

use encoding::Head;
use refusal::Refusal;

// What the values of a run-length column are: unsigned numbers, the differences of a delta column, or names.
#[derive(Clone, Copy, Debug, PartialEq, Eq)]
pub enum Values {
    Words,
    Differences,
    Names,
}

// Behind a run: the next position and how many readings came so far, none where the column is over before it; or the run's fault.
pub type RunEnd = Result<Option<(usize, u64)>, Refusal>;

// Where the value at q ends.
pub fn value_end(s: &[u8], values: Values, q: usize) -> Result<usize, Refusal>
    ensures { end_of result ≡ behind ((element_of values).E.read s.now q) }
{
    match values {
        Values::Words => {
            let (_, word_end) = leb128::leb128_u64(s, q)?;
            Ok(word_end)
        }
        Values::Differences => {
            let (_, difference_end) = leb128::leb128_i64(s, q)?;
            Ok(difference_end)
        }
        Values::Names => {
            let (start, len) = text_decoder::name_at(s, q)?;
            Ok(start + len)
        }
    }
}

// A repeated run of c readings behind `had` others, whose value stands at q.
fn repeat_end(s: &[u8], values: Values, q: usize, had: u64, c: u64) -> RunEnd
    requires { had + c ≤ limit }
    ensures { next_of result ≡ (repeated had c q ((element_of values).E.read s.now q)).next }
{
    let next = value_end(s, values, q)?;
    Ok(Some((next, had + c)))
}

// c literal values from q on, behind which there are `total` readings.
fn literal_end(s: &[u8], values: Values, q: usize, total: u64, c: u64) -> RunEnd
    ensures { next_of result ≡ (literals (element_of values).E s.now total c q).next }
{
    let mut at = q;
    for _ in 0..c {
        at = value_end(s, values, at)?;
    }
    Ok(Some((at, total)))
}

// What comes behind the run at a position, before which there are `had` readings.
pub fn run_end(s: &[u8], values: Values, at: usize, had: u64) -> RunEnd
    ensures { next_of result ≡ (run_at (element_of values).E s.now (spot at had)).next }
{
    if s.len() <= at {
        return Ok(None);
    }
    match run_head::head_at(s, at, had)? {
        Head::Repeat(c, q) => repeat_end(s, values, q, had, c),
        Head::Literal(c, q) => literal_end(s, values, q, had + c, c),
        Head::Absent(c, next) => Ok(Some((next, had + c))),
    }
}
