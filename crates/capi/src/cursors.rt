// Columns read a reading at a time. The state is the library's own struct, which the caller keeps and lends by a pointer.
ghost use Rattle.std.specs.Prelude.{◌≡◌, length};
ghost use Rattle.rle_cursor.specs.State as rle;
ghost use Rattle.delta_cursor.specs.State as delta;
ghost use Rattle.boolean_cursor.specs.State as boolean;
ghost use Rattle.capi.specs.Cursors.{rle_step, delta_step, boolean_step};

use crate::{NextI64, NextU8, NextU64};
use boolean_cursor::BooleanCursor;
use delta_cursor::DeltaCursor;
use rle_cursor::RleCursor;

#[unsafe(no_mangle)]
pub extern "C" fn grundavok_rle_cursor_new(column: &[u8]) -> RleCursor
    ensures { result ≡ rle.new_for (length column.now) }
{
    rle_cursor::new(column)
}

#[unsafe(no_mangle)]
pub extern "C" fn grundavok_rle_next(column: &[u8], cursor: &mut RleCursor) -> NextU64
    ensures { (result ≡ (rle_step column.now cursor.old).answer)
        × (cursor.new ≡ (rle_step column.now cursor.old).cursor) }
{
    NextU64::from(rle_cursor::next(column, cursor))
}

#[unsafe(no_mangle)]
pub extern "C" fn grundavok_delta_cursor_new(column: &[u8]) -> DeltaCursor
    ensures { result ≡ delta.new_for (length column.now) }
{
    delta_cursor::new(column)
}

#[unsafe(no_mangle)]
pub extern "C" fn grundavok_delta_next(column: &[u8], cursor: &mut DeltaCursor) -> NextI64
    ensures { (result ≡ (delta_step column.now cursor.old).answer)
        × (cursor.new ≡ (delta_step column.now cursor.old).cursor) }
{
    NextI64::from(delta_cursor::next(column, cursor))
}

#[unsafe(no_mangle)]
pub extern "C" fn grundavok_boolean_cursor_new(column: &[u8]) -> BooleanCursor
    ensures { result ≡ boolean.new_for (length column.now) }
{
    boolean_cursor::new(column)
}

#[unsafe(no_mangle)]
pub extern "C" fn grundavok_boolean_next(column: &[u8], cursor: &mut BooleanCursor) -> NextU8
    ensures { (result ≡ (boolean_step column.now cursor.old).answer)
        × (cursor.new ≡ (boolean_step column.now cursor.old).cursor) }
{
    NextU8::from(boolean_cursor::next(column, cursor))
}
