// Salvage of an Actor or Integer column: what survives of it, kept in lent slots and written as a fresh column.
#![tactic(auto)]

ghost use Rattle.std.specs.Prelude.{◌≡◌, true, map, ◌≤◌, length, Ok};
ghost use Rattle.encoding.specs.Column.{value, trace};
ghost use Rattle.encoding.specs.Survivors.{seen, survey_of};
ghost use Rattle.encoding.specs.Writer.{column_bytes};
ghost use Rattle.rle_decoder.specs.Word.{u64_e};
ghost use Rattle.column_specification.specs.Served.{integer_type};
ghost use Rattle.salvage.specs.Salvage.{outcome_of, SavedOptional};

use encoding::Survey;
use refusal::{Refusal, Why};
use runs::Values;
use salvage::{Salvaged, Saved};

// What survives, where slots and output take it: no refusal is left to the reader or the writer. The other salvage of optional readings
// has the same with its own reader and writer; a trait for both would hold these, what they promise and its laws, for two calls: no plainer.
fn save(
    s: &[u8],
    found: Survey,
    size: usize,
    values: &mut [u64],
    present: &mut [u8],
    out: &mut [u8],
) -> Saved
    requires found_value { (seen found ≡ survey_of (trace u64_e s.now)) × (found.readings ≤ length values.old) × (length present.old ≡ length values.old) }
    requires size_value { (size ≡ length (column_bytes u64_e (map value (trace u64_e s.now).readings))) × (size ≤ length out.old) }
    ensures { SavedOptional true (trace u64_e s.now) 0
        (column_bytes u64_e (map value (trace u64_e s.now).readings))
        values.old values.new present.old present.new
        out.old out.new (outcome_of (Ok result)) }
{
    let n = found.readings as usize;
    let _ = rle_decoder::keep(s, values, present);
    let _ = rle_encoder::encode(&values[..n], &present[..n], out);
    Saved {
        kept: found.readings,
        written: size,
        fault: found.fault,
    }
}

// Keeps the readings before a column's first fault, and writes them as a fresh column. Its own refusals: 17, 8, 9, 10.
pub fn salvage(
    typ: u8,
    s: &[u8],
    values: &mut [u64],
    present: &mut [u8],
    out: &mut [u8],
) -> Salvaged
    ensures { SavedOptional (integer_type typ) (trace u64_e s.now) 0
        (column_bytes u64_e (map value (trace u64_e s.now).readings))
        values.old values.new present.old present.new
        out.old out.new (outcome_of result) }
{
    if typ != 1 && typ != 2 {
        return Err(Refusal(Why::NotServed, 0));
    }
    if values.len() != present.len() {
        return Err(Refusal(Why::BadList, 0));
    }
    let found = rle_decoder::survey(s);
    if (values.len() as u64) < found.readings {
        return Err(Refusal(Why::TooFewSlots, 0));
    }
    let size = rewriting::rewritten_len(s, Values::Words, found.readings, out.len() as u64)?;
    Ok(save(s, found, size as usize, values, present, out))
}
