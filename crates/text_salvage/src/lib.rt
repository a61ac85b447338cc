// Salvage of a String column: what survives of it, kept in lent slots, by starts and lengths in the given column, and written as a fresh column.
#![tactic(auto)]

ghost use Rattle.std.specs.Prelude.{◌≡◌, true, map, ◌≤◌, length, Ok};
ghost use Rattle.encoding.specs.Column.{value, trace};
ghost use Rattle.encoding.specs.Survivors.{seen, survey_of};
ghost use Rattle.encoding.specs.Writer.{column_bytes};
ghost use Rattle.text.specs.Text.{text_e};
ghost use Rattle.column_specification.specs.Served.{text_type};
ghost use Rattle.salvage.specs.Salvage.{outcome_of, SavedNames};

use encoding::Survey;
use refusal::{Refusal, Why};
use runs::Values;
use salvage::{Salvaged, Saved};

// What survives, where slots and output take it: no refusal is left to the reader or the writer.
fn save(
    s: &[u8],
    found: Survey,
    size: usize,
    starts: &mut [u64],
    lens: &mut [u64],
    present: &mut [u8],
    out: &mut [u8],
) -> Saved
    requires found_value { (seen found ≡ survey_of (trace text_e s.now)) × (found.readings ≤ length lens.old) }
    requires starts_len { (length starts.old ≡ length lens.old) × (length lens.old ≡ length present.old) }
    requires size_value { (size ≡ length (column_bytes text_e (map value (trace text_e s.now).readings))) × (size ≤ length out.old) }
    ensures { SavedNames true (trace text_e s.now) (column_bytes text_e (map value (trace text_e s.now).readings))
        starts.old starts.new lens.old lens.new
        present.old present.new out.old out.new (outcome_of (Ok result)) }
{
    let n = found.readings as usize;
    let _ = text_decoder::keep(s, starts, lens, present);
    let _ = text_encoder::encode(s, &starts[..n], &lens[..n], &present[..n], out);
    Saved {
        kept: found.readings,
        written: size,
        fault: found.fault,
    }
}

// Keeps the names before a column's first fault, and writes them as a fresh column. Its own refusals: 17, 8, 9, 10.
pub fn salvage(
    typ: u8,
    s: &[u8],
    starts: &mut [u64],
    lens: &mut [u64],
    present: &mut [u8],
    out: &mut [u8],
) -> Salvaged
    ensures { SavedNames (text_type typ) (trace text_e s.now) (column_bytes text_e (map value (trace text_e s.now).readings))
        starts.old starts.new lens.old lens.new
        present.old present.new out.old out.new (outcome_of result) }
{
    if typ != 5 {
        return Err(Refusal(Why::NotServed, 0));
    }
    if starts.len() != lens.len() {
        return Err(Refusal(Why::BadList, 0));
    }
    if lens.len() != present.len() {
        return Err(Refusal(Why::BadList, 0));
    }
    let found = text_decoder::survey(s);
    if (lens.len() as u64) < found.readings {
        return Err(Refusal(Why::TooFewSlots, 0));
    }
    let size = rewriting::rewritten_len(s, Values::Names, found.readings, out.len() as u64)?;
    Ok(save(s, found, size as usize, starts, lens, present, out))
}
