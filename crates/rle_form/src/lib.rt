// Whether a run-length column is in the form that our writer gives, whatever its values are: it is walked run by run, beside the stretches of the list that it
// reads as, and what they begin with is compared. Nothing is written and no slot is used.
#![tactic(auto)]

ghost use Rattle.std.specs.Prelude.{◌≡◌, map, ◌≤◌, ◌<◌, length, drop};
ghost use Rattle.encoding.specs.Column.{value, trace};
ghost use Rattle.encoding.specs.Limit.{limit};
ghost use Rattle.encoding.specs.Walk.{sound};
ghost use Rattle.encoding.specs.Writer.{any_present, column_bytes};
ghost use Rattle.count_place.specs.Cases.{place_of};
ghost use Rattle.count_place.specs.Place.{standing};
ghost use Rattle.own_form.specs.Cases.{form_as};
ghost use Rattle.own_form.specs.Difference.{differ_at};
ghost use Rattle.own_form.specs.Form.{compared, form_in};
ghost use Rattle.runs.specs.Values.{element_of};
ghost use Rattle.rle_form.specs.Turns.{ending_of, count_in, count_bytes, Sound, stretched_from, Turned};

pub mod ahead;

use crate::ahead::stretch_at;
use count_place::{Differs, Place};
use encoding::StretchEnd;
use own_form::Form;
use refusal::Refusal;
use runs::Values;
use runs::walk::{advanced, first, is_absent};

// Behind a run that is the writer's next stretch: the next position and how many readings came so far; or the place at which the two differ.
type Turn = Result<(usize, u64), Differs>;

// How a column ends: soundly, or with its fault.
fn column_end(s: &[u8], values: Values) -> Result<(), Refusal>
    ensures { ending_of result ≡ (trace (element_of values).E s.now).ending }
{
    let mut at: usize = 0;
    let mut had: u64 = 0;
    while let Some((next, n)) = runs::run_end(s, values, at, had)? {
        at = next;
        had = n;
    }
    Ok(())
}

// Is any reading present?
fn any_value(s: &[u8], values: Values) -> bool
    ensures { result ≡ any_present (map value (trace (element_of values).E s.now).readings) }
{
    let mut p = first(s, values, 0, 0);
    while 0 < p.times {
        let held = p.held;
        if !is_absent(held) {
            return true;
        }
        p = advanced(s, values, p);
    }
    false
}

// The numbers that a run of n absent readings begins with, beside the bytes at a position.
fn compare_absent(s: &[u8], at: usize, n: u64) -> Place
    ensures { place_of result ≡ standing at (drop at s.now) (count_bytes (StretchEnd.Absent n)) }
{
    let next = count_place::compare_i64(s, at, 0)?;
    count_place::compare_u64(s, next, n)
}

// The same of a stretch of any sort.
fn compare_count(s: &[u8], at: usize, x: StretchEnd) -> Place
    requires { count_in x ≤ limit }
    ensures { place_of result ≡ standing at (drop at s.now) (count_bytes x) }
{
    match x {
        StretchEnd::Absent(n) => compare_absent(s, at, n as u64),
        StretchEnd::Repeat(n) => count_place::compare_i64(
            s,
            at,
            given_list::repeat_count(n as u32),
        ),
        StretchEnd::Literal(n) => count_place::compare_i64(
            s,
            at,
            given_list::literal_count(n as u32),
        ),
    }
}

// The run at a position beside the writer's next stretch: where the count of the stretch stands there, the run is that stretch.
fn turned(s: &[u8], values: Values, at: usize, had: u64) -> Turn
    requires sound { Sound (element_of values).E s.now at had }
    requires at_in_bounds { at < length s.now }
    ensures { Turned (element_of values).E s.now at had result }
{
    let p = first(s, values, at, had);
    if p.times == 0 {
        return Err(Differs(at));
    }
    compare_count(s, at, stretch_at(s, values, p))?;
    runs::run_end(s, values, at, had)
        .ok()
        .flatten()
        .ok_or(Differs(at))
}

// A sound column beside the stretches of its list.
fn compare_stretches(s: &[u8], values: Values) -> Form
    requires { (trace (element_of values).E s.now).ending ≡ sound }
    ensures { form_as result ≡ compared (differ_at 0 s.now (stretched_from (element_of values).E s.now 0 0)) }
{
    let mut at: usize = 0;
    let mut had: u64 = 0;
    while at < s.len() {
        match turned(s, values, at, had) {
            Ok((next, n)) => {
                at = next;
                had = n;
            }
            Err(Differs(place)) => {
                return Ok(Some(place));
            }
        }
    }
    Ok(None)
}

// A sound column beside what is written for its list: nothing where no value is present.
fn compare_column(s: &[u8], values: Values) -> Form
    requires { (trace (element_of values).E s.now).ending ≡ sound }
    ensures { form_as result ≡ compared (differ_at 0 s.now
        (column_bytes (element_of values).E (map value (trace (element_of values).E s.now).readings))) }
{
    if any_value(s, values) {
        return compare_stretches(s, values);
    }
    if 0 < s.len() {
        return Ok(Some(0));
    }
    Ok(None)
}

// A column's form: its own fault, or whether its bytes are what our writer gives for the list they read as, and if not, where they first differ.
pub fn runs_form(s: &[u8], values: Values) -> Form
    ensures { form_as result ≡ form_in (trace (element_of values).E)
        (λ rs. column_bytes (element_of values).E (map value rs)) s.now }
{
    column_end(s, values)?;
    compare_column(s, values)
}
