// Lookup by specification in two blocks, our later corrections over the first scan: which block shows the column, and its part there. Nothing is copied.
#![tactic(auto)]

ghost use Rattle.std.specs.Prelude.{◌≡◌};
ghost use Rattle.corrections.specs.Cases.{layered_of};
ghost use Rattle.corrections.specs.Over.{over, bytes_over};

use column_part::{Part, locate_spec};
use refusal::Refusal;

// What is of the corrections or of the first scan: a column's part there, or the refusal of that block's table.
#[derive(Clone, Copy, Debug, PartialEq, Eq)]
pub enum Layered<T> {
    Corrections(T),
    First(T),
}

// Where the column of exactly this specification lies, if one of the two has it. The corrections are judged first; the first scan is judged even where
// they have the row.
pub fn locate(
    corrections: &[u8],
    first: &[u8],
    spec: u32,
) -> Result<Option<Layered<Part>>, Layered<Refusal>>
    ensures { layered_of result ≡ over corrections.now first.now spec }
{
    let c = locate_spec(corrections, spec).map_err(Layered::Corrections)?;
    let f = locate_spec(first, spec).map_err(Layered::First)?;
    Ok(match c {
        Some(part) => Some(Layered::Corrections(part)),
        None => f.map(Layered::First),
    })
}

// The column itself, as a part of whichever block holds it; empty where neither has the row and where a table is refused.
pub fn bytes<'a>(corrections: &'a [u8], first: &'a [u8], spec: u32) -> &'a [u8]
    ensures { result.now ≡ bytes_over corrections.now first.now spec }
{
    match locate(corrections, first, spec) {
        Ok(Some(Layered::Corrections(part))) => part.bytes(corrections),
        Ok(Some(Layered::First(part))) => part.bytes(first),
        _ => &first[..0],
    }
}
