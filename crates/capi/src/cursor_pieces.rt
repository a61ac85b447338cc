// Columns read a piece at a time, from the same states as a reading at a time.
ghost use Rattle.std.specs.Prelude.{◌≡◌};
ghost use Rattle.capi.specs.Pieces.{rle_piece, delta_piece, boolean_piece};

use crate::{PieceI64, PieceU8, PieceU64};
use boolean_cursor::BooleanCursor;
use delta_cursor::DeltaCursor;
use rle_cursor::RleCursor;

#[unsafe(no_mangle)]
pub extern "C" fn grundavok_rle_piece(column: &[u8], cursor: &mut RleCursor) -> PieceU64
    ensures { (result ≡ (rle_piece column.now cursor.old).piece)
        × (cursor.new ≡ (rle_piece column.now cursor.old).cursor) }
{
    PieceU64::from(pieces::rle::next_piece(column, cursor))
}

#[unsafe(no_mangle)]
pub extern "C" fn grundavok_delta_piece(column: &[u8], cursor: &mut DeltaCursor) -> PieceI64
    ensures { (result ≡ (delta_piece column.now cursor.old).piece)
        × (cursor.new ≡ (delta_piece column.now cursor.old).cursor) }
{
    PieceI64::from(pieces::delta::next_piece(column, cursor))
}

#[unsafe(no_mangle)]
pub extern "C" fn grundavok_boolean_piece(column: &[u8], cursor: &mut BooleanCursor) -> PieceU8
    ensures { (result ≡ (boolean_piece column.now cursor.old).piece)
        × (cursor.new ≡ (boolean_piece column.now cursor.old).cursor) }
{
    PieceU8::from(pieces::boolean::next_piece(column, cursor))
}
