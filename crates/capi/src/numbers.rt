// Numbers.
ghost use Rattle.std.specs.Prelude.{◌≡◌, length};
ghost use Rattle.leb128.specs.Answer.{written, left};
ghost use Rattle.leb128.specs.Read.{u64_at, i64_at, u32_at, nonzero_at};
ghost use Rattle.leb128.specs.Write.{u64_bytes, i64_bytes, put_at, put_out};
ghost use Rattle.capi.specs.Cases.{number_u64, number_i64, number_u32, counted};

use crate::{Counted, NumberI64, NumberU32, NumberU64};

#[unsafe(no_mangle)]
pub extern "C" fn grundavok_leb128_u64(s: &[u8], at: usize) -> NumberU64
    ensures { result ≡ number_u64 (u64_at s.now at) }
{
    NumberU64::from(leb128::leb128_u64(s, at))
}

#[unsafe(no_mangle)]
pub extern "C" fn grundavok_leb128_i64(s: &[u8], at: usize) -> NumberI64
    ensures { result ≡ number_i64 (i64_at s.now at) }
{
    NumberI64::from(leb128::leb128_i64(s, at))
}

#[unsafe(no_mangle)]
pub extern "C" fn grundavok_leb128_u32(s: &[u8], at: usize) -> NumberU32
    ensures { result ≡ number_u32 (u32_at s.now at) }
{
    NumberU32::from(leb128::leb128_u32(s, at))
}

#[unsafe(no_mangle)]
pub extern "C" fn grundavok_nonzero_leb128_u64(s: &[u8], at: usize) -> NumberU64
    ensures { result ≡ number_u64 (nonzero_at s.now at) }
{
    NumberU64::from(leb128::nonzero_leb128_u64(s, at))
}

#[unsafe(no_mangle)]
pub extern "C" fn grundavok_len_u64(v: u64) -> usize
    ensures { result ≡ length (u64_bytes v) }
{
    leb128_writer::len_u64(v)
}

#[unsafe(no_mangle)]
pub extern "C" fn grundavok_len_i64(x: i64) -> usize
    ensures { result ≡ length (i64_bytes x) }
{
    leb128_writer::len_i64(x)
}

#[unsafe(no_mangle)]
pub extern "C" fn grundavok_put_u64(v: u64, out: &mut [u8], at: usize) -> Counted
    ensures value { result ≡ counted (put_at out.old at (u64_bytes v)) }
    ensures out_after { out.new ≡ put_out out.old at (u64_bytes v) }
{
    Counted::from(leb128_writer::put_u64(v, out, at))
}

#[unsafe(no_mangle)]
pub extern "C" fn grundavok_put_i64(x: i64, out: &mut [u8], at: usize) -> Counted
    ensures value { result ≡ counted (put_at out.old at (i64_bytes x)) }
    ensures out_after { out.new ≡ put_out out.old at (i64_bytes x) }
{
    Counted::from(leb128_writer::put_i64(x, out, at))
}

#[unsafe(no_mangle)]
pub extern "C" fn grundavok_write_u64(v: u64, out: &mut [u8]) -> Counted
    ensures value { result ≡ counted (written out.old (u64_bytes v)) }
    ensures out_after { out.new ≡ left (written out.old (u64_bytes v)) (u64_bytes v) out.old }
{
    Counted::from(leb128_writer::write_u64(v, out))
}

#[unsafe(no_mangle)]
pub extern "C" fn grundavok_write_i64(x: i64, out: &mut [u8]) -> Counted
    ensures value { result ≡ counted (written out.old (i64_bytes x)) }
    ensures out_after { out.new ≡ left (written out.old (i64_bytes x)) (i64_bytes x) out.old }
{
    Counted::from(leb128_writer::write_i64(x, out))
}
