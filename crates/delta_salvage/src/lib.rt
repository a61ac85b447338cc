// Salvage of a delta column: what survives of it, kept in lent slots and written as a fresh column.
#![tactic(auto)]

ghost use Rattle.std.specs.Prelude.{◌≡◌, true, map, ◌≤◌, length, pos, Ok};
ghost use Rattle.encoding.specs.Column.{value};
ghost use Rattle.encoding.specs.Survivors.{seen, survey_of};
ghost use Rattle.delta_decoder.specs.Sums.{delta_trace};
ghost use Rattle.delta_encoder.specs.Differences.{delta_bytes};
ghost use Rattle.column_specification.specs.Served.{delta_type};
ghost use Rattle.salvage.specs.Salvage.{outcome_of, SavedOptional};

use encoding::Survey;
use refusal::{Refusal, Why};
use runs::Values;
use salvage::{Salvaged, Saved};

// What survives, where slots and output take it: no refusal is left to the reader or the writer. The other salvage of optional readings
// has the same with its own reader and writer; a trait for both would hold these, what they promise and its laws, for two calls: no plainer.
fn save(
    s: &[u8],
    found: Survey,
    size: usize,
    values: &mut [i64],
    present: &mut [u8],
    out: &mut [u8],
) -> Saved
    requires found_value { (seen found ≡ survey_of (delta_trace s.now)) × (found.readings ≤ length values.old) × (length present.old ≡ length values.old) }
    requires size_value { (size ≡ length (delta_bytes (map value (delta_trace s.now).readings))) × (size ≤ length out.old) }
    ensures { SavedOptional true (delta_trace s.now) (pos 0)
        (delta_bytes (map value (delta_trace s.now).readings))
        values.old values.new present.old present.new
        out.old out.new (outcome_of (Ok result)) }
{
    let n = found.readings as usize;
    let _ = delta_decoder::keep(s, values, present);
    let _ = delta_encoder::encode(&values[..n], &present[..n], out);
    Saved {
        kept: found.readings,
        written: size,
        fault: found.fault,
    }
}

// Keeps the readings before a column's first fault, and writes them as a fresh column. Its own refusals: 17, 8, 9, 10.
pub fn salvage(
    typ: u8,
    s: &[u8],
    values: &mut [i64],
    present: &mut [u8],
    out: &mut [u8],
) -> Salvaged
    ensures { SavedOptional (delta_type typ) (delta_trace s.now) (pos 0)
        (delta_bytes (map value (delta_trace s.now).readings))
        values.old values.new present.old present.new
        out.old out.new (outcome_of result) }
{
    if typ != 3 {
        return Err(Refusal(Why::NotServed, 0));
    }
    if values.len() != present.len() {
        return Err(Refusal(Why::BadList, 0));
    }
    let found = delta_decoder::survey(s);
    if (values.len() as u64) < found.readings {
        return Err(Refusal(Why::TooFewSlots, 0));
    }
    let size = rewriting::rewritten_len(s, Values::Differences, found.readings, out.len() as u64)?;
    Ok(save(s, found, size as usize, values, present, out))
}
