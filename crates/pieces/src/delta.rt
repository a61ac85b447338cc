// Delta columns: the readings of a piece rise or fall by one difference.
ghost use Rattle.std.specs.Prelude.{◌≡◌, ◌+◌, ◌^◌, ◌<◌};
ghost use Rattle.std.proofs.Math.Option.{some};
ghost use Rattle.delta_decoder.specs.Sofar.{sum_of, plus_times, times_held};
ghost use Rattle.pieces.specs.Cases.{delta_read, delta_piece, delta_taken};
ghost use Rattle.pieces.specs.Delta.{piece_of, repeating, standing};

use delta_cursor::DeltaCursor;
use delta_decoder::sums::{HALF, sum_of, times_held};
use leb128::magnitude;
use refusal::Refusal;

// The sorts of a run, as a state has them: numbers and no enum, for the C interface; any other is literal.
const ABSENT: u64 = 0;

const REPEAT: u64 = 1;

// The next reading, a value or none where it is absent; by how much each one behind it in the piece is larger, 0 where they are absent; and how many
// there are, one at least.
#[derive(Clone, Copy, Debug, PartialEq, Eq)]
pub struct DeltaPiece {
    pub reading: Option<i64>,
    pub difference: i64,
    pub times: u64,
}

// The next piece; none at the end of the column; or a refusal.
pub type DeltaNext = Result<Option<DeltaPiece>, Refusal>;

// The state behind a piece, and the piece.
#[derive(Clone, Copy, Debug, PartialEq, Eq)]
pub struct DeltaTaken {
    pub cursor: DeltaCursor,
    pub piece: DeltaNext,
}

// A sum as `delta_decoder` keeps it: z + 2^63.
fn kept_as(z: i64) -> u64
    ensures { sum_of result ≡ z }
{
    let m = magnitude(z);
    if z < 0 {
        return HALF - 1 - m;
    }
    HALF + m
}

// The sum kept as n and so many times a difference, where each of these sums is held.
fn added(n: u64, d: i64, times: u64) -> u64
    requires { times_held n d times ≡ times }
    ensures { plus_times n d times ≡ some result }
{
    let m = magnitude(d);
    if d < 0 {
        return n - times * (m + 1);
    }
    n + times * m
}

// The reading of a step that led to c in a repeated run, with those of the run behind it whose sums are held.
fn repeating_at(c: DeltaCursor, reading: Option<i64>) -> DeltaTaken
    requires { c.left + 1 < 2 ^ 64 }
    ensures { delta_taken result ≡ repeating c (delta_read reading) }
{
    let n = kept_as(c.sum);
    let more = times_held(n, c.difference, c.left);
    let sum = sum_of(added(n, c.difference, more));
    DeltaTaken {
        cursor: DeltaCursor {
            left: c.left - more,
            sum: sum,
            ..c
        },
        piece: Ok(Some(DeltaPiece {
            reading: reading,
            difference: c.difference,
            times: more + 1,
        })),
    }
}

// The reading of a step that led to c, with those behind it in an absent or repeated run; a literal one alone.
fn standing_at(c: DeltaCursor, reading: Option<i64>) -> DeltaTaken
    requires { c.left + 1 < 2 ^ 64 }
    ensures { delta_taken result ≡ standing c (delta_read reading) }
{
    if c.sort == REPEAT {
        return repeating_at(c, reading);
    }
    if c.sort == ABSENT {
        return DeltaTaken {
            cursor: DeltaCursor { left: 0, ..c },
            piece: Ok(Some(DeltaPiece {
                reading: reading,
                difference: 0,
                times: c.left + 1,
            })),
        };
    }
    DeltaTaken {
        cursor: c,
        piece: Ok(Some(DeltaPiece {
            reading: reading,
            difference: 0,
            times: 1,
        })),
    }
}

// The piece at a state, any state. The end and a refusal leave the state as it was; 6 within a repeated run comes behind the piece of those that are
// held.
pub fn piece(column: &[u8], cursor: DeltaCursor) -> DeltaTaken
    ensures { delta_taken result ≡ piece_of column.now cursor }
{
    let r = delta_cursor::step(column, cursor);
    match r.answer {
        Ok(Some(reading)) => standing_at(r.cursor, reading),
        Ok(None) => DeltaTaken {
            cursor: r.cursor,
            piece: Ok(None),
        },
        Err(fault) => DeltaTaken {
            cursor: r.cursor,
            piece: Err(fault),
        },
    }
}

// The next piece, the end or a refusal; the state is advanced in place.
pub fn next_piece(column: &[u8], cursor: &mut DeltaCursor) -> DeltaNext
    ensures { (delta_piece result ≡ (piece_of column.now cursor.old).piece)
        × (cursor.new ≡ (piece_of column.now cursor.old).cursor) }
{
    let r = piece(column, *cursor);
    *cursor = r.cursor;
    r.piece
}
