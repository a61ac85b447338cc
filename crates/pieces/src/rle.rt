// Columns of u64.
ghost use Rattle.std.specs.Prelude.{◌≡◌, ◌+◌, ◌^◌, ◌<◌};
ghost use Rattle.pieces.specs.Cases.{rle_read, rle_piece, rle_taken};
ghost use Rattle.pieces.specs.Rle.{piece_of, standing};

use refusal::Refusal;
use rle_cursor::RleCursor;

// The sort of a literal run; those below are absent and repeated. A state has sorts as numbers, for the C interface.
const LITERAL: u64 = 2;

// The next reading, a value or none where it is absent, and how many times it stands there, once at least.
#[derive(Clone, Copy, Debug, PartialEq, Eq)]
pub struct RlePiece {
    pub reading: Option<u64>,
    pub times: u64,
}

// The next piece; none at the end of the column; or a refusal.
pub type RleNext = Result<Option<RlePiece>, Refusal>;

// The state behind a piece, and the piece.
#[derive(Clone, Copy, Debug, PartialEq, Eq)]
pub struct RleTaken {
    pub cursor: RleCursor,
    pub piece: RleNext,
}

// The reading of a step that led to c, with all that is left behind it of a run in which all are the same; a literal value alone.
fn standing_at(c: RleCursor, reading: Option<u64>) -> RleTaken
    requires { c.left + 1 < 2 ^ 64 }
    ensures { rle_taken result ≡ standing c (rle_read reading) }
{
    if LITERAL <= c.sort {
        return RleTaken {
            cursor: c,
            piece: Ok(Some(RlePiece {
                reading: reading,
                times: 1,
            })),
        };
    }
    RleTaken {
        cursor: RleCursor { left: 0, ..c },
        piece: Ok(Some(RlePiece {
            reading: reading,
            times: c.left + 1,
        })),
    }
}

// The piece at a state, any state. The end and a refusal leave the state as it was.
pub fn piece(column: &[u8], cursor: RleCursor) -> RleTaken
    ensures { rle_taken result ≡ piece_of column.now cursor }
{
    let r = rle_cursor::step(column, cursor);
    match r.answer {
        Ok(Some(reading)) => standing_at(r.cursor, reading),
        Ok(None) => RleTaken {
            cursor: r.cursor,
            piece: Ok(None),
        },
        Err(fault) => RleTaken {
            cursor: r.cursor,
            piece: Err(fault),
        },
    }
}

// The next piece, the end or a refusal; the state is advanced in place.
pub fn next_piece(column: &[u8], cursor: &mut RleCursor) -> RleNext
    ensures { (rle_piece result ≡ (piece_of column.now cursor.old).piece)
        × (cursor.new ≡ (piece_of column.now cursor.old).cursor) }
{
    let r = piece(column, *cursor);
    *cursor = r.cursor;
    r.piece
}
