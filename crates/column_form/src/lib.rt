// Whether a column of any served type is in the form that our writer gives for the list that it reads as. No slots, and time by the bytes, whatever the counts say.
#![tactic(auto)]

ghost use Rattle.std.specs.Prelude.{◌≡◌, map};
ghost use Rattle.encoding.specs.Column.{value};
ghost use Rattle.delta_decoder.specs.Sums.{delta_trace};
ghost use Rattle.delta_encoder.specs.Differences.{delta_bytes};
ghost use Rattle.own_form.specs.Cases.{form_as};
ghost use Rattle.own_form.specs.Form.{form_in, form_of};

use own_form::Form;
use refusal::{Refusal, Why};
use runs::Values;

// Of a delta column: a sum that leaves i64 is a fault of its own; else its runs are those of its differences.
fn sums_form(s: &[u8]) -> Form
    ensures { form_as result ≡ form_in delta_trace (λ rs. delta_bytes (map value rs)) s.now }
{
    match delta_decoder::survey(s).fault {
        None => rle_form::runs_form(s, Values::Differences),
        Some(e) => Err(e),
    }
}

// Whether a column is what our writer gives for the list it reads as, by its type; if not, where it differs first. Its refusals: 17 for a type that no call
// serves, then the column's own fault.
pub fn column_form(typ: u8, s: &[u8]) -> Form
    ensures { form_as result ≡ form_of typ s.now }
{
    if typ == 1 || typ == 2 {
        return rle_form::runs_form(s, Values::Words);
    }
    if typ == 3 {
        return sums_form(s);
    }
    if typ == 4 {
        return boolean_form::turns_form(s);
    }
    if typ == 5 {
        return rle_form::runs_form(s, Values::Names);
    }
    Err(Refusal(Why::NotServed, 0))
}
