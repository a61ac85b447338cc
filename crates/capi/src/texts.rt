// Columns of names, which a list has as pairs, a start and a length: of a decoded column in the column, of a given list in bytes lent beside it.
ghost use Rattle.std.specs.Prelude.{◌≡◌, ◌-◌, ◌^◌};
ghost use Rattle.leb128.specs.Answer.{within};
ghost use Rattle.encoding.specs.Column.{trace};
ghost use Rattle.encoding.specs.Given.{sized, Encoded};
ghost use Rattle.encoding.specs.Walk.{outcome};
ghost use Rattle.encoding.specs.Writer.{column_bytes};
ghost use Rattle.text.specs.Text.{text_e};
ghost use Rattle.text.specs.Given.{name_list, names_judged};
ghost use Rattle.text_decoder.specs.Slots.{DecodedNames};
ghost use Rattle.capi.specs.Cases.{counted};
ghost use Rattle.capi.specs.Told.{Told};

use crate::Counted;

#[unsafe(no_mangle)]
pub extern "C" fn grundavok_text_count(s: &[u8]) -> Counted
    ensures { result ≡ counted (outcome (trace text_e s.now)) }
{
    Counted::from(text_decoder::count(s))
}

#[unsafe(no_mangle)]
pub extern "C" fn grundavok_text_decode(
    s: &[u8],
    starts: &mut [u64],
    lens: &mut [u64],
    present: &mut [u8],
) -> Counted
    ensures { Told (DecodedNames (trace text_e s.now) starts.old starts.new
        lens.old lens.new present.old present.new) result }
{
    Counted::from(text_decoder::decode(s, starts, lens, present))
}

#[unsafe(no_mangle)]
pub extern "C" fn grundavok_text_encoded_len(
    bytes: &[u8],
    starts: &[u64],
    lens: &[u64],
    present: &[u8],
) -> Counted
    ensures { result ≡ counted (within 10 (2 ^ 64 - 1)
        (sized (column_bytes text_e (name_list bytes.now starts.now lens.now present.now))
        (names_judged bytes.now starts.now lens.now present.now))) }
{
    Counted::from(text_encoder::encoded_len(bytes, starts, lens, present))
}

#[unsafe(no_mangle)]
pub extern "C" fn grundavok_text_encode(
    bytes: &[u8],
    starts: &[u64],
    lens: &[u64],
    present: &[u8],
    out: &mut [u8],
) -> Counted
    ensures { Told (Encoded
        (column_bytes text_e (name_list bytes.now starts.now lens.now present.now))
        (names_judged bytes.now starts.now lens.now present.now)
        out.old out.new) result }
{
    Counted::from(text_encoder::encode(bytes, starts, lens, present, out))
}
