// Boolean columns.
ghost use Rattle.std.specs.Prelude.{◌≡◌};
ghost use Rattle.pieces.specs.Boolean.{piece_of};
ghost use Rattle.pieces.specs.Cases.{boolean_piece, boolean_taken};

use boolean_cursor::BooleanCursor;
use refusal::Refusal;

// The next reading, 0 or 1, and how many times it stands there, once at least.
#[derive(Clone, Copy, Debug, PartialEq, Eq)]
pub struct BooleanPiece {
    pub flag: u8,
    pub times: u64,
}

// The next piece; none at the end of the column; or a refusal.
pub type BooleanNext = Result<Option<BooleanPiece>, Refusal>;

// The state behind a piece, and the piece.
#[derive(Clone, Copy, Debug, PartialEq, Eq)]
pub struct BooleanTaken {
    pub cursor: BooleanCursor,
    pub piece: BooleanNext,
}

// The piece at a state, any state: a reading with all that is left of its count. The end and a refusal leave the state as it was.
pub fn piece(column: &[u8], cursor: BooleanCursor) -> BooleanTaken
    ensures { boolean_taken result ≡ piece_of column.now cursor }
{
    let r = boolean_cursor::step(column, cursor);
    match r.answer {
        Ok(Some(flag)) => BooleanTaken {
            cursor: BooleanCursor {
                left: 0,
                ..r.cursor
            },
            piece: Ok(Some(BooleanPiece {
                flag: flag,
                times: r.cursor.left + 1,
            })),
        },
        Ok(None) => BooleanTaken {
            cursor: r.cursor,
            piece: Ok(None),
        },
        Err(fault) => BooleanTaken {
            cursor: r.cursor,
            piece: Err(fault),
        },
    }
}

// The next piece, the end or a refusal; the state is advanced in place.
pub fn next_piece(column: &[u8], cursor: &mut BooleanCursor) -> BooleanNext
    ensures { (boolean_piece result ≡ (piece_of column.now cursor.old).piece)
        × (cursor.new ≡ (piece_of column.now cursor.old).cursor) }
{
    let r = piece(column, *cursor);
    *cursor = r.cursor;
    r.piece
}
