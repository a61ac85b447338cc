// Whether a column is in the form that our writer gives: its definitions and laws, and the answer.
#![tactic(auto)]

use refusal::Refusal;

// None where a column is in our form, else the place at which it differs first; or the refusal.
pub type Form = Result<Option<usize>, Refusal>;
