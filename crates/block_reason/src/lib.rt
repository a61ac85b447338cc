// Why a column of a block was refused: its table's reason, or the column's own.
#![tactic(auto)]

ghost use Rattle.std.specs.Prelude.{◌≡◌};
ghost use Rattle.column_part.specs.Part.{part_at};
ghost use Rattle.reason.specs.Cases.{told_of};
ghost use Rattle.block_reason.specs.Cases.{why_of};
ghost use Rattle.block_reason.specs.Why.{of_column, of_part, block_reason};

use column_part::locate;
use column_specification::ColumnSpec;
use reason::{Reason, Told};
use refusal::Refusal;
use table_reason::TableReason;

// What is at fault: the table; or the column at a position.
#[derive(Clone, Copy, Debug, PartialEq, Eq)]
pub enum Fault {
    Table(TableReason),
    Column(usize, Reason),
}

// What a call over a block and a position answers: the reason of the fault, none where nothing is wrong; or a refusal of the call's own.
pub type Why = Result<Option<Fault>, Refusal>;

// What is told of the column at a position.
fn of_column(position: usize, t: Told) -> Why
    ensures { why_of result ≡ of_column position (told_of t) }
{
    match t? {
        Some(reason) => Ok(Some(Fault::Column(position, reason))),
        None => Ok(None),
    }
}

// The column at a position, of a block whose table has no fault.
fn of_part(block: &[u8], position: usize) -> Why
    ensures { why_of result ≡ of_part block.now position (part_at block.now position) }
{
    let part = locate(block, position)?;
    let typ = ColumnSpec(part.spec).col_type().as_u8();
    of_column(
        position,
        column_reason::column_reason(typ, part.bytes(block)),
    )
}

// Why the column at a position was refused.
pub fn block_reason(block: &[u8], position: usize) -> Why
    ensures { why_of result ≡ block_reason block.now position }
{
    match table_reason::table_reason(block) {
        Some(reason) => Ok(Some(Fault::Table(reason))),
        None => of_part(block, position),
    }
}
