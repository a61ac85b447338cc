// Columns: optional u64 (rle), optional i64 as differences (delta), and yes/no (boolean).
ghost use Rattle.std.specs.Prelude.{◌≡◌, pos, length};
ghost use Rattle.encoding.specs.Column.{trace};
ghost use Rattle.encoding.specs.Given.{slot_list, list_judged, sized, Encoded};
ghost use Rattle.encoding.specs.Slots.{slot_of, flag_of, Decoded};
ghost use Rattle.encoding.specs.Walk.{outcome};
ghost use Rattle.encoding.specs.Writer.{column_bytes};
ghost use Rattle.rle_decoder.specs.Word.{u64_e};
ghost use Rattle.delta_decoder.specs.Sums.{delta_trace};
ghost use Rattle.delta_encoder.specs.Differences.{delta_bytes, delta_judged};
ghost use Rattle.boolean_decoder.specs.Decoded.{Decoded as DecodedFlags};
ghost use Rattle.boolean_decoder.specs.Turns.{bool_trace};
ghost use Rattle.boolean_encoder.specs.Writer.{bool_bytes, maybe_bytes};
ghost use Rattle.capi.specs.Cases.{counted};
ghost use Rattle.capi.specs.Told.{Told};

use crate::Counted;

#[unsafe(no_mangle)]
pub extern "C" fn grundavok_rle_count(s: &[u8]) -> Counted
    ensures { result ≡ counted (outcome (trace u64_e s.now)) }
{
    Counted::from(rle_decoder::count(s))
}

#[unsafe(no_mangle)]
pub extern "C" fn grundavok_rle_decode(s: &[u8], values: &mut [u64], present: &mut [u8]) -> Counted
    ensures { Told (Decoded (trace u64_e s.now) (slot_of 0) flag_of
        values.old values.new present.old present.new) result }
{
    Counted::from(rle_decoder::decode(s, values, present))
}

#[unsafe(no_mangle)]
pub extern "C" fn grundavok_rle_encoded_len(values: &[u64], present: &[u8]) -> Counted
    ensures { result ≡ counted (sized (column_bytes u64_e (slot_list values.now present.now))
        (list_judged (length values.now) present.now)) }
{
    Counted::from(rle_encoder::encoded_len(values, present))
}

#[unsafe(no_mangle)]
pub extern "C" fn grundavok_rle_encode(values: &[u64], present: &[u8], out: &mut [u8]) -> Counted
    ensures { Told (Encoded (column_bytes u64_e (slot_list values.now present.now))
        (list_judged (length values.now) present.now) out.old out.new) result }
{
    Counted::from(rle_encoder::encode(values, present, out))
}

#[unsafe(no_mangle)]
pub extern "C" fn grundavok_delta_count(s: &[u8]) -> Counted
    ensures { result ≡ counted (outcome (delta_trace s.now)) }
{
    Counted::from(delta_decoder::count(s))
}

#[unsafe(no_mangle)]
pub extern "C" fn grundavok_delta_decode(
    s: &[u8],
    values: &mut [i64],
    present: &mut [u8],
) -> Counted
    ensures { Told (Decoded (delta_trace s.now) (slot_of (pos 0)) flag_of
        values.old values.new present.old present.new) result }
{
    Counted::from(delta_decoder::decode(s, values, present))
}

#[unsafe(no_mangle)]
pub extern "C" fn grundavok_delta_encoded_len(values: &[i64], present: &[u8]) -> Counted
    ensures { result ≡ counted (sized (delta_bytes (slot_list values.now present.now))
        (delta_judged values.now present.now)) }
{
    Counted::from(delta_encoder::encoded_len(values, present))
}

#[unsafe(no_mangle)]
pub extern "C" fn grundavok_delta_encode(values: &[i64], present: &[u8], out: &mut [u8]) -> Counted
    ensures { Told (Encoded (delta_bytes (slot_list values.now present.now))
        (delta_judged values.now present.now) out.old out.new) result }
{
    Counted::from(delta_encoder::encode(values, present, out))
}

#[unsafe(no_mangle)]
pub extern "C" fn grundavok_boolean_count(s: &[u8]) -> Counted
    ensures { result ≡ counted (outcome (bool_trace s.now)) }
{
    Counted::from(boolean_decoder::count(s))
}

#[unsafe(no_mangle)]
pub extern "C" fn grundavok_boolean_decode(s: &[u8], values: &mut [u8]) -> Counted
    ensures { Told (DecodedFlags (bool_trace s.now) values.old values.new) result }
{
    Counted::from(boolean_decoder::decode(s, values))
}

#[unsafe(no_mangle)]
pub extern "C" fn grundavok_boolean_encoded_len(values: &[u8]) -> Counted
    ensures { result ≡ counted (sized (bool_bytes values.now) (list_judged (length values.now) values.now)) }
{
    Counted::from(boolean_encoder::encoded_len(values))
}

#[unsafe(no_mangle)]
pub extern "C" fn grundavok_boolean_encode(values: &[u8], out: &mut [u8]) -> Counted
    ensures { Told (Encoded (bool_bytes values.now) (list_judged (length values.now) values.now)
        out.old out.new) result }
{
    Counted::from(boolean_encoder::encode(values, out))
}

// The all-false form.
#[unsafe(no_mangle)]
pub extern "C" fn grundavok_boolean_maybe_encoded_len(values: &[u8]) -> Counted
    ensures { result ≡ counted (sized (maybe_bytes values.now) (list_judged (length values.now) values.now)) }
{
    Counted::from(boolean_encoder::maybe_encoded_len(values))
}

#[unsafe(no_mangle)]
pub extern "C" fn grundavok_boolean_maybe_encode(values: &[u8], out: &mut [u8]) -> Counted
    ensures { Told (Encoded (maybe_bytes values.now) (list_judged (length values.now) values.now)
        out.old out.new) result }
{
    Counted::from(boolean_encoder::maybe_encode(values, out))
}
