// Whether a Boolean column is in the form that our writer gives, the plain one: its counts beside those that the writer gives for what it reads as,
// without slots.
#![tactic(auto)]

ghost use Rattle.std.specs.Prelude.{◌≡◌, ◌+◌, ◌≤◌, length};
ghost use Rattle.encoding.specs.Limit.{limit};
ghost use Rattle.boolean_decoder.specs.Turns.{turn, turns_from, bool_trace};
ghost use Rattle.boolean_encoder.specs.Ahead.{alike};
ghost use Rattle.boolean_encoder.specs.Writer.{bool_bytes};
ghost use Rattle.own_form.specs.Cases.{form_as};
ghost use Rattle.own_form.specs.Difference.{differ_at};
ghost use Rattle.own_form.specs.Form.{compared, form_in};

use count_place::Differs;
use encoding::LIMIT;
use own_form::Form;

// The index behind the readings `flag` from the count at `at` on, before the first of the other byte: counts of 0 between are passed over. Only a column
// that is not ours has any, and it differs at this count or the next, so that none is passed over more than twice.
fn turn_end(s: &[u8], at: usize, had: u64, flag: u8) -> u64
    requires { (had ≤ limit) × (flag ≤ 1) }
    ensures { result ≡ had + alike flag (turns_from s.now (turn at had flag)).readings }
{
    let mut p = at;
    let mut k = had;
    let mut f = flag;
    while let Ok((c, next)) = leb128::leb128_u64(s, p) {
        if LIMIT - k < c {
            return k;
        }
        if f != flag && 0 < c {
            return k;
        }
        p = next;
        k += c;
        f = 1 - f;
    }
    k
}

// Where a column and what our writer gives for its readings, of which there are so many, differ: before `at` both have the same counts.
fn turns_compared(s: &[u8], total: u64) -> Form
    requires { total ≡ length (bool_trace s.now).readings }
    ensures { form_as result ≡ compared (differ_at 0 s.now (bool_bytes (bool_trace s.now).readings)) }
{
    let mut at: usize = 0;
    let mut had: u64 = 0;
    let mut flag: u8 = 0;
    while had < total {
        let k = turn_end(s, at, had, flag);
        match count_place::compare_u64(s, at, k - had) {
            Ok(next) => {
                at = next;
                had = k;
                flag = 1 - flag;
            }
            Err(Differs(place)) => {
                return Ok(Some(place));
            }
        }
    }
    if at < s.len() {
        return Ok(Some(at));
    }
    Ok(None)
}

// Whether a column is what our writer gives for the list it reads as; if not, where it differs first; or the column's own fault.
pub fn turns_form(s: &[u8]) -> Form
    ensures { form_as result ≡ form_in bool_trace bool_bytes s.now }
{
    let found = boolean_decoder::survey(s);
    match found.fault {
        None => turns_compared(s, found.readings),
        Some(e) => Err(e),
    }
}
