// A column's part of its block, by position and by specification: where it lies, and the part itself. Nothing is copied.
#![tactic(auto)]

ghost use Rattle.std.specs.Prelude.{◌≡◌, ◌+◌, ◌<◌, ◌≤◌, ◌^◌, length, get_or, take};
ghost use Rattle.raw_column.specs.Table.{sum};
ghost use Rattle.column_part.specs.Part.{start_of, row_part, row_of, part_at, part_for, sought, bytes_of, taken, part_of, found_of, sought_of};

use raw_column::{Opened, read_table};
use refusal::{Refusal, Why};

// Where a column lies in its block, and its specification.
#[derive(Clone, Copy, Debug, PartialEq, Eq)]
pub struct Part {
    pub start: usize,
    pub len: usize,
    pub spec: u32,
}

impl Part {
    // The bytes of the part, as many as the block has of them.
    pub fn bytes(self, block: &[u8]) -> &[u8]
        ensures { result.now ≡ bytes_of block.now (taken self) }
    {
        let start = if self.start < block.len() {
            self.start
        } else {
            block.len()
        };
        let rest = block.len() - start;
        let len = if self.len < rest { self.len } else { rest };
        &block[start..start + len]
    }
}

// The part of row i of an opened table.
fn row_part(o: &Opened, i: usize) -> Part
    requires { (i < o.now.table.rows) × (o.now.table.rows ≤ 64) × (start_of (take o.now.table.rows o.now.table.lens) o.now.start i < 2 ^ 64)
        × (get_or o.now.table.starts i 0 ≡ sum (take i (take o.now.table.rows o.now.table.lens))) }
    ensures { taken result ≡ row_part (take o.now.table.rows o.now.table.specs) (take o.now.table.rows o.now.table.lens) o.now.start i }
{
    Part {
        start: o.start + o.table.starts[i] as usize,
        len: o.table.lens[i] as usize,
        spec: o.table.specs[i],
    }
}

// Where the column at a position lies.
pub fn locate(block: &[u8], position: usize) -> Result<Part, Refusal>
    ensures { part_of result ≡ part_at block.now position }
{
    let o = read_table(block)?;
    if o.table.rows <= position {
        return Err(Refusal(Why::NoSuchColumn, 0));
    }
    Ok(row_part(&o, position))
}

// The column at a position; empty where it is refused.
pub fn column(block: &[u8], position: usize) -> &[u8]
    ensures { result.now ≡ bytes_of block.now (part_at block.now position) }
{
    match locate(block, position) {
        Ok(part) => part.bytes(block),
        Err(_) => &block[..0],
    }
}

fn row_of(specs: &[u32], n: usize, spec: u32) -> usize
    requires { n ≤ length specs.now }
    ensures { result ≡ row_of spec (take n specs.now) }
{
    let mut i: usize = 0;
    while i < n {
        if specs[i] == spec {
            return i;
        }
        i += 1;
    }
    n
}

// Where the first column of exactly this specification lies; none where there is none.
pub fn locate_spec(block: &[u8], spec: u32) -> Result<Option<Part>, Refusal>
    ensures part { found_of result ≡ part_for block.now spec }
    ensures row { sought_of result ≡ sought block.now spec }
{
    let o = read_table(block)?;
    let n = o.table.rows;
    let i = row_of(&o.table.specs, n, spec);
    if n <= i {
        return Ok(None);
    }
    Ok(Some(row_part(&o, i)))
}

// The first column of exactly this specification; empty where there is none and where it is refused.
pub fn bytes(block: &[u8], spec: u32) -> &[u8]
    ensures { result.now ≡ bytes_of block.now (part_for block.now spec) }
{
    match locate_spec(block, spec) {
        Ok(Some(part)) => part.bytes(block),
        _ => &block[..0],
    }
}
