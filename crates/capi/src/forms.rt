// Whether a column is in the form that our writer gives.
ghost use Rattle.std.specs.Prelude.{◌≡◌};
ghost use Rattle.own_form.specs.Cases as forms;
ghost use Rattle.own_form.specs.Form.{form_of};
ghost use Rattle.capi.specs.Forms.{form_as};

use crate::Form;
use refusal::Refusal;

impl From<own_form::Form> for Form {
    ghost from_gives = { λ f c. c ≡ form_as (forms.form_as f) };

    fn from(f: own_form::Form) -> Form {
        match f {
            Ok(None) => Form {
                number: 0,
                ours: 1,
                place: 0,
                differs: 0,
            },
            Ok(Some(place)) => Form {
                number: 0,
                ours: 0,
                place: 0,
                differs: place,
            },
            Err(Refusal(why, place)) => Form {
                number: u8::from(why),
                ours: 0,
                place,
                differs: 0,
            },
        }
    }
}

#[unsafe(no_mangle)]
pub extern "C" fn grundavok_column_form(typ: u8, s: &[u8]) -> Form
    ensures { result ≡ form_as (form_of typ s.now) }
{
    Form::from(column_form::column_form(typ, s))
}
