// Room for blocks and scripts, of at most 524,288 bytes, for the readings of an edit, of which a column has at most 32,768, and for the names
// of a list, of at most 131,072 bytes. They are arrays of a fixed size, since the tool has no heap.
ghost use Rattle.std.specs.Prelude.{◌≡◌, length};

use crate::refusals::Refusal;
use refusal::Why;

// How many bytes a block has at most.
const LARGEST: usize = 524288;

pub fn block() -> [u8; 524288]
    ensures { 524288 ≡ length result }
{
    [0; 524288]
}

pub fn names() -> [u8; 131072]
    ensures { 131072 ≡ length result }
{
    [0; 131072]
}

pub fn unsigned() -> [u64; 32768]
    ensures { 32768 ≡ length result }
{
    [0; 32768]
}

pub fn signed() -> [i64; 32768]
    ensures { 32768 ≡ length result }
{
    [0; 32768]
}

pub fn flags() -> [u8; 32768]
    ensures { 32768 ≡ length result }
{
    [0; 32768]
}

// How many bytes a block of a table and data has, none where there was no room for them; or that there is no room for it, which is refusal 10.
pub fn within(table: Option<usize>, data: Option<usize>) -> Result<usize, Refusal> {
    match (table, data) {
        (Some(table), Some(data)) if table.saturating_add(data) <= LARGEST => {
            Ok(table.saturating_add(data))
        }
        _ => Err(Refusal::new(Why::OutputTooShort, 0)),
    }
}
