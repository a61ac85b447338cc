// Salvage of a Boolean column: what survives of it, kept in lent slots and written as a fresh column, in the plain form.
#![tactic(auto)]

ghost use Rattle.std.specs.Prelude.{◌≡◌, true, ◌≤◌, length, Ok};
ghost use Rattle.encoding.specs.Survivors.{seen, survey_of};
ghost use Rattle.boolean_decoder.specs.Turns.{bool_trace};
ghost use Rattle.boolean_encoder.specs.Writer.{bool_bytes};
ghost use Rattle.column_specification.specs.Served.{boolean_type};
ghost use Rattle.salvage.specs.Salvage.{outcome_of, SavedTurns};

use encoding::Survey;
use refusal::{Refusal, Why};
use salvage::{Salvaged, Saved};

// What survives, where slots and output take it: no refusal is left to the reader or the writer.
fn save(s: &[u8], found: Survey, size: usize, values: &mut [u8], out: &mut [u8]) -> Saved
    requires found_value { (seen found ≡ survey_of (bool_trace s.now)) × (found.readings ≤ length values.old) }
    requires size_value { (size ≡ length (bool_bytes (bool_trace s.now).readings)) × (size ≤ length out.old) }
    ensures { SavedTurns true (bool_trace s.now) (bool_bytes (bool_trace s.now).readings)
        values.old values.new out.old out.new (outcome_of (Ok result)) }
{
    let n = found.readings as usize;
    let _ = boolean_decoder::keep(s, values);
    let _ = boolean_encoder::encode(&values[..n], out);
    Saved {
        kept: found.readings,
        written: size,
        fault: found.fault,
    }
}

// Keeps the readings before a column's first fault, and writes them as a fresh column. Its own refusals: 17, 9, 10.
pub fn salvage(typ: u8, s: &[u8], values: &mut [u8], out: &mut [u8]) -> Salvaged
    ensures { SavedTurns (boolean_type typ) (bool_trace s.now) (bool_bytes (bool_trace s.now).readings)
        values.old values.new out.old out.new (outcome_of result) }
{
    if typ != 4 {
        return Err(Refusal(Why::NotServed, 0));
    }
    let found = boolean_decoder::survey(s);
    if (values.len() as u64) < found.readings {
        return Err(Refusal(Why::TooFewSlots, 0));
    }
    let size = rewriting::turns::rewritten_turns_len(s, out.len() as u64)?;
    Ok(save(s, found, size as usize, values, out))
}
