// The library's answers in the boundary's form. Each struct of C's has an `impl` of its own: C takes no generic struct.
ghost use Rattle.std.specs.Prelude.{◌≡◌};
ghost use Rattle.leb128.specs.Cases.{parsed_of};
ghost use Rattle.leb128_writer.specs.Cases.{written_of};
ghost use Rattle.column_specification.specs.Cases.{packing_of};
ghost use Rattle.encoding.specs.Cases.{answer_of};
ghost use Rattle.encoding.specs.Survivors.{number_of, place_of, ending_of, seen};
ghost use Rattle.rle_cursor.specs.Cases as rle;
ghost use Rattle.delta_cursor.specs.Cases as delta;
ghost use Rattle.boolean_cursor.specs.Cases as boolean;
ghost use Rattle.pieces.specs.Cases.{rle_piece, delta_piece, boolean_piece};
ghost use Rattle.block_frame.specs.Frame.{laid_of};
ghost use Rattle.column_part.specs.Part.{part_of, found_of, no_part, taken};
ghost use Rattle.corrections.specs.Cases.{layered_of};
ghost use Rattle.refusal.specs.Number as refusals;
ghost use Rattle.salvage.specs.Salvage.{outcome_of};
ghost use Rattle.capi.specs.Cases.{number_u64, number_i64, number_u32, counted, survey_as, salvaged_as, specification, part_as, part_in, layered_as, frame_as};
ghost use Rattle.capi.specs.Cursors.{next_u64, next_i64, next_u8};
ghost use Rattle.capi.specs.Pieces.{piece_u64, piece_i64, piece_u8};

use crate::{
    Counted, Frame, Layered, NextI64, NextU8, NextU64, NumberI64, NumberU32, NumberU64, Part,
    PieceI64, PieceU8, PieceU64, Salvaged, Specification, Survey,
};
use boolean_cursor::BooleanAnswer;
use column_specification::ColumnSpec;
use delta_cursor::DeltaAnswer;
use encoding::Answer;
use leb128::Parsed;
use leb128_writer::Written;
use pieces::boolean::{BooleanNext, BooleanPiece};
use pieces::delta::{DeltaNext, DeltaPiece};
use pieces::rle::{RleNext, RlePiece};
use refusal::{Refusal, Why};
use rle_cursor::RleAnswer;

// What comes next in a column, numbers for C; NOTHING in a refusal.
const NOTHING: u8 = 0;

const PRESENT: u8 = 1;

const ABSENT: u8 = 2;

const END: u8 = 3;

impl From<Parsed<u64>> for NumberU64 {
    ghost from_gives = { λ p n. n ≡ number_u64 (parsed_of p) };

    fn from(p: Parsed<u64>) -> NumberU64 {
        match p {
            Ok((value, next)) => NumberU64 {
                number: 0,
                place: 0,
                value,
                next,
            },
            Err(Refusal(why, place)) => NumberU64 {
                number: u8::from(why),
                place,
                value: 0,
                next: 0,
            },
        }
    }
}

impl From<Parsed<i64>> for NumberI64 {
    ghost from_gives = { λ p n. n ≡ number_i64 (parsed_of p) };

    fn from(p: Parsed<i64>) -> NumberI64 {
        match p {
            Ok((value, next)) => NumberI64 {
                number: 0,
                place: 0,
                value,
                next,
            },
            Err(Refusal(why, place)) => NumberI64 {
                number: u8::from(why),
                place,
                value: 0,
                next: 0,
            },
        }
    }
}

impl From<Parsed<u32>> for NumberU32 {
    ghost from_gives = { λ p n. n ≡ number_u32 (parsed_of p) };

    fn from(p: Parsed<u32>) -> NumberU32 {
        match p {
            Ok((value, next)) => NumberU32 {
                number: 0,
                place: 0,
                value,
                next,
            },
            Err(Refusal(why, place)) => NumberU32 {
                number: u8::from(why),
                place,
                value: 0,
                next: 0,
            },
        }
    }
}

impl From<Answer> for Counted {
    ghost from_gives = { λ a c. c ≡ counted (answer_of a) };

    fn from(a: Answer) -> Counted {
        let (number, place, count) = match a {
            Ok(n) => (0, 0, n),
            Err(Refusal(why, place)) => (u8::from(why), place, 0),
        };
        Counted {
            number,
            place,
            count,
        }
    }
}

impl From<Written> for Counted {
    ghost from_gives = { λ w c. c ≡ counted (written_of w) };

    fn from(w: Written) -> Counted {
        Counted::from(w.map(|next| next as u64))
    }
}

impl From<RleAnswer> for NextU64 {
    ghost from_gives = { λ a n. n ≡ next_u64 (rle.answer_of a) };

    fn from(a: RleAnswer) -> NextU64 {
        match a {
            Ok(Some(Some(value))) => NextU64 {
                number: 0,
                what: PRESENT,
                place: 0,
                value,
            },
            Ok(Some(None)) => NextU64 {
                number: 0,
                what: ABSENT,
                place: 0,
                value: 0,
            },
            Ok(None) => NextU64 {
                number: 0,
                what: END,
                place: 0,
                value: 0,
            },
            Err(Refusal(why, place)) => NextU64 {
                number: u8::from(why),
                what: NOTHING,
                place,
                value: 0,
            },
        }
    }
}

impl From<DeltaAnswer> for NextI64 {
    ghost from_gives = { λ a n. n ≡ next_i64 (delta.answer_of a) };

    fn from(a: DeltaAnswer) -> NextI64 {
        match a {
            Ok(Some(Some(value))) => NextI64 {
                number: 0,
                what: PRESENT,
                place: 0,
                value,
            },
            Ok(Some(None)) => NextI64 {
                number: 0,
                what: ABSENT,
                place: 0,
                value: 0,
            },
            Ok(None) => NextI64 {
                number: 0,
                what: END,
                place: 0,
                value: 0,
            },
            Err(Refusal(why, place)) => NextI64 {
                number: u8::from(why),
                what: NOTHING,
                place,
                value: 0,
            },
        }
    }
}

impl From<BooleanAnswer> for NextU8 {
    ghost from_gives = { λ a n. n ≡ next_u8 (boolean.answer_of a) };

    fn from(a: BooleanAnswer) -> NextU8 {
        match a {
            Ok(Some(value)) => NextU8 {
                number: 0,
                what: PRESENT,
                place: 0,
                value,
            },
            Ok(None) => NextU8 {
                number: 0,
                what: END,
                place: 0,
                value: 0,
            },
            Err(Refusal(why, place)) => NextU8 {
                number: u8::from(why),
                what: NOTHING,
                place,
                value: 0,
            },
        }
    }
}

impl From<RleNext> for PieceU64 {
    ghost from_gives = { λ p c. c ≡ piece_u64 (rle_piece p) };

    fn from(p: RleNext) -> PieceU64 {
        match p {
            Ok(
                Some(
                    RlePiece {
                        reading: Some(value),
                        times,
                    },
                ),
            ) => PieceU64 {
                number: 0,
                what: PRESENT,
                place: 0,
                value,
                times,
            },
            Ok(
                Some(
                    RlePiece {
                        reading: None,
                        times,
                    },
                ),
            ) => PieceU64 {
                number: 0,
                what: ABSENT,
                place: 0,
                value: 0,
                times,
            },
            Ok(None) => PieceU64 {
                number: 0,
                what: END,
                place: 0,
                value: 0,
                times: 0,
            },
            Err(Refusal(why, place)) => PieceU64 {
                number: u8::from(why),
                what: NOTHING,
                place,
                value: 0,
                times: 0,
            },
        }
    }
}

impl From<DeltaNext> for PieceI64 {
    ghost from_gives = { λ p c. c ≡ piece_i64 (delta_piece p) };

    fn from(p: DeltaNext) -> PieceI64 {
        match p {
            Ok(
                Some(
                    DeltaPiece {
                        reading: Some(value),
                        difference,
                        times,
                    },
                ),
            ) => PieceI64 {
                number: 0,
                what: PRESENT,
                place: 0,
                value,
                difference,
                times,
            },
            Ok(
                Some(
                    DeltaPiece {
                        reading: None,
                        difference,
                        times,
                    },
                ),
            ) => PieceI64 {
                number: 0,
                what: ABSENT,
                place: 0,
                value: 0,
                difference,
                times,
            },
            Ok(None) => PieceI64 {
                number: 0,
                what: END,
                place: 0,
                value: 0,
                difference: 0,
                times: 0,
            },
            Err(Refusal(why, place)) => PieceI64 {
                number: u8::from(why),
                what: NOTHING,
                place,
                value: 0,
                difference: 0,
                times: 0,
            },
        }
    }
}

impl From<BooleanNext> for PieceU8 {
    ghost from_gives = { λ p c. c ≡ piece_u8 (boolean_piece p) };

    fn from(p: BooleanNext) -> PieceU8 {
        match p {
            Ok(Some(BooleanPiece { flag, times })) => PieceU8 {
                number: 0,
                what: PRESENT,
                place: 0,
                value: flag,
                times,
            },
            Ok(None) => PieceU8 {
                number: 0,
                what: END,
                place: 0,
                value: 0,
                times: 0,
            },
            Err(Refusal(why, place)) => PieceU8 {
                number: u8::from(why),
                what: NOTHING,
                place,
                value: 0,
                times: 0,
            },
        }
    }
}

impl From<Result<ColumnSpec, Refusal>> for Specification {
    ghost from_gives = { λ p s. s ≡ specification (packing_of p) };

    fn from(p: Result<ColumnSpec, Refusal>) -> Specification {
        match p {
            Ok(ColumnSpec(spec)) => Specification {
                number: 0,
                place: 0,
                spec,
            },
            Err(Refusal(why, place)) => Specification {
                number: u8::from(why),
                place,
                spec: 0,
            },
        }
    }
}

// A part of the block with this number.
fn part_in(block: u8, p: column_part::Part) -> Layered
    ensures { result ≡ part_in block (taken p) }
{
    Layered {
        number: 0,
        block,
        place: 0,
        start: p.start,
        len: p.len,
    }
}

// The refusal of the table of the block with this number.
fn refused_in(block: u8, why: Why, place: usize) -> Layered
    ensures { result ≡ part_in block (no_part (refusals.number_of why) place) }
{
    Layered {
        number: u8::from(why),
        block,
        place,
        start: 0,
        len: 0,
    }
}

impl From<Result<column_part::Part, Refusal>> for Part {
    ghost from_gives = { λ p c. c ≡ part_as (part_of p) };

    fn from(p: Result<column_part::Part, Refusal>) -> Part {
        Part::from(p.map(Some))
    }
}

// A part that may be nowhere is then empty.
impl From<Result<Option<column_part::Part>, Refusal>> for Part {
    ghost from_gives = { λ p c. c ≡ part_as (found_of p) };

    fn from(p: Result<Option<column_part::Part>, Refusal>) -> Part {
        let (number, place, start, len) = match p {
            Ok(Some(part)) => (0, 0, part.start, part.len),
            Ok(None) => (0, 0, 0, 0),
            Err(Refusal(why, place)) => (u8::from(why), place, 0, 0),
        };
        Part {
            number,
            place,
            start,
            len,
        }
    }
}

// Of two blocks, the one that shows a column.
impl From<Result<Option<corrections::Layered<column_part::Part>>, corrections::Layered<Refusal>>>
    for Layered {
    ghost from_gives = { λ l c. c ≡ layered_as (layered_of l) };

    fn from(
        l: Result<Option<corrections::Layered<column_part::Part>>, corrections::Layered<Refusal>>,
    ) -> Layered {
        match l {
            Ok(Some(corrections::Layered::Corrections(p))) => part_in(1, p),
            Ok(Some(corrections::Layered::First(p))) => part_in(2, p),
            Ok(None) => Layered {
                number: 0,
                block: 0,
                place: 0,
                start: 0,
                len: 0,
            },
            Err(corrections::Layered::Corrections(Refusal(why, place))) => refused_in(
                1, why, place,
            ),
            Err(corrections::Layered::First(Refusal(why, place))) => refused_in(2, why, place),
        }
    }
}

impl From<Result<block_frame::Frame, Refusal>> for Frame {
    ghost from_gives = { λ f c. c ≡ frame_as (laid_of f) };

    fn from(f: Result<block_frame::Frame, Refusal>) -> Frame {
        match f {
            Ok(frame) => Frame {
                number: 0,
                place: 0,
                at: frame.at,
                len: frame.len,
            },
            Err(Refusal(why, place)) => Frame {
                number: u8::from(why),
                place,
                at: 0,
                len: 0,
            },
        }
    }
}

// A column's fault by its number and place, 0 and 0 where there is none.
fn numbers_of(fault: Option<Refusal>) -> (u8, usize)
    ensures { (result.0 ≡ number_of (ending_of fault)) × (result.1 ≡ place_of (ending_of fault)) }
{
    match fault {
        Some(Refusal(why, place)) => (u8::from(why), place),
        None => (0, 0),
    }
}

impl From<encoding::Survey> for Survey {
    ghost from_gives = { λ found c. c ≡ survey_as (seen found) };

    fn from(found: encoding::Survey) -> Survey {
        let (fault, place) = numbers_of(found.fault);
        Survey {
            fault,
            place,
            readings: found.readings,
        }
    }
}

impl From<salvage::Salvaged> for Salvaged {
    ghost from_gives = { λ s c. c ≡ salvaged_as (outcome_of s) };

    fn from(s: salvage::Salvaged) -> Salvaged {
        match s {
            Ok(saved) => {
                let (fault, fault_place) = numbers_of(saved.fault);
                Salvaged {
                    number: 0,
                    fault,
                    place: 0,
                    fault_place,
                    kept: saved.kept,
                    written: saved.written,
                }
            }
            Err(Refusal(why, place)) => Salvaged {
                number: u8::from(why),
                fault: 0,
                place,
                fault_place: 0,
                kept: 0,
                written: 0,
            },
        }
    }
}
