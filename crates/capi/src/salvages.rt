// What survives of a column that was cut, for each kind: looked over, and kept in slots and written as a fresh column.
ghost use Rattle.std.specs.Prelude.{◌≡◌, map, pos};
ghost use Rattle.encoding.specs.Column.{value, trace};
ghost use Rattle.encoding.specs.Survivors.{survey_of};
ghost use Rattle.encoding.specs.Writer.{column_bytes};
ghost use Rattle.rle_decoder.specs.Word.{u64_e};
ghost use Rattle.delta_decoder.specs.Sums.{delta_trace};
ghost use Rattle.delta_encoder.specs.Differences.{delta_bytes};
ghost use Rattle.boolean_decoder.specs.Turns.{bool_trace};
ghost use Rattle.boolean_encoder.specs.Writer.{bool_bytes};
ghost use Rattle.text.specs.Text.{text_e};
ghost use Rattle.column_specification.specs.Served.{integer_type, delta_type, boolean_type, text_type};
ghost use Rattle.salvage.specs.Salvage.{SavedOptional, SavedTurns, SavedNames};
ghost use Rattle.capi.specs.Cases.{survey_as};
ghost use Rattle.capi.specs.Told.{ToldSalvage};

use crate::{Salvaged, Survey};

#[unsafe(no_mangle)]
pub extern "C" fn grundavok_rle_survey(s: &[u8]) -> Survey
    ensures { result ≡ survey_as (survey_of (trace u64_e s.now)) }
{
    Survey::from(rle_decoder::survey(s))
}

#[unsafe(no_mangle)]
pub extern "C" fn grundavok_delta_survey(s: &[u8]) -> Survey
    ensures { result ≡ survey_as (survey_of (delta_trace s.now)) }
{
    Survey::from(delta_decoder::survey(s))
}

#[unsafe(no_mangle)]
pub extern "C" fn grundavok_boolean_survey(s: &[u8]) -> Survey
    ensures { result ≡ survey_as (survey_of (bool_trace s.now)) }
{
    Survey::from(boolean_decoder::survey(s))
}

#[unsafe(no_mangle)]
pub extern "C" fn grundavok_text_survey(s: &[u8]) -> Survey
    ensures { result ≡ survey_as (survey_of (trace text_e s.now)) }
{
    Survey::from(text_decoder::survey(s))
}

#[unsafe(no_mangle)]
pub extern "C" fn grundavok_rle_salvage(
    typ: u8,
    s: &[u8],
    values: &mut [u64],
    present: &mut [u8],
    out: &mut [u8],
) -> Salvaged
    ensures { ToldSalvage (SavedOptional (integer_type typ) (trace u64_e s.now) 0
        (column_bytes u64_e (map value (trace u64_e s.now).readings))
        values.old values.new present.old present.new
        out.old out.new) result }
{
    Salvaged::from(rle_salvage::salvage(typ, s, values, present, out))
}

#[unsafe(no_mangle)]
pub extern "C" fn grundavok_delta_salvage(
    typ: u8,
    s: &[u8],
    values: &mut [i64],
    present: &mut [u8],
    out: &mut [u8],
) -> Salvaged
    ensures { ToldSalvage (SavedOptional (delta_type typ) (delta_trace s.now) (pos 0)
        (delta_bytes (map value (delta_trace s.now).readings))
        values.old values.new present.old present.new
        out.old out.new) result }
{
    Salvaged::from(delta_salvage::salvage(typ, s, values, present, out))
}

#[unsafe(no_mangle)]
pub extern "C" fn grundavok_boolean_salvage(
    typ: u8,
    s: &[u8],
    values: &mut [u8],
    out: &mut [u8],
) -> Salvaged
    ensures { ToldSalvage (SavedTurns (boolean_type typ) (bool_trace s.now) (bool_bytes (bool_trace s.now).readings)
        values.old values.new out.old out.new) result }
{
    Salvaged::from(boolean_salvage::salvage(typ, s, values, out))
}

#[unsafe(no_mangle)]
pub extern "C" fn grundavok_text_salvage(
    typ: u8,
    s: &[u8],
    starts: &mut [u64],
    lens: &mut [u64],
    present: &mut [u8],
    out: &mut [u8],
) -> Salvaged
    ensures { ToldSalvage (SavedNames (text_type typ) (trace text_e s.now) (column_bytes text_e (map value (trace text_e s.now).readings))
        starts.old starts.new lens.old lens.new
        present.old present.new out.old out.new) result }
{
    Salvaged::from(text_salvage::salvage(typ, s, starts, lens, present, out))
}
