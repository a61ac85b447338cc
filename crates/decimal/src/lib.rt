// Decimal text, and the numbers and readings that it stands for. A signed reading z is kept as z + 2^63, so that readings of every kind are
// one kind of number, in their order.
#![tactic(auto)]

ghost use Rattle.std.specs.Prelude.{◌≡◌};
ghost use Rattle.decimal.specs.Text.{with_digit, decimal_of, signed_of, unsigned_of, reading_error};

pub const HALF: u64 = 1 << 63;

// Why a text stands for no number.
#[derive(Clone, Copy, Debug, PartialEq, Eq)]
pub enum DecimalError {
    NoNumber,
    TooLarge,
}

// Why a text stands for no reading.
#[derive(Clone, Copy, Debug, PartialEq, Eq)]
pub enum ReadingError {
    NoNumber,
    OutOfRange,
}

impl From<DecimalError> for ReadingError {
    ghost from_gives = { λ e r. r ≡ reading_error e };

    fn from(e: DecimalError) -> ReadingError {
        match e {
            DecimalError::NoNumber => ReadingError::NoNumber,
            DecimalError::TooLarge => ReadingError::OutOfRange,
        }
    }
}

// The number with one digit more.
fn with_digit(value: u64, b: u8) -> Result<u64, DecimalError>
    ensures { result ≡ with_digit value b }
{
    if !b.is_ascii_digit() {
        return Err(DecimalError::NoNumber);
    }
    let digit = u64::from(b - b'0');
    value
        .checked_mul(10)
        .and_then(|tens| tens.checked_add(digit))
        .ok_or(DecimalError::TooLarge)
}

// The number that digits stand for.
pub fn decimal_of(s: &[u8]) -> Result<u64, DecimalError>
    ensures { result ≡ decimal_of s.now }
{
    if s.is_empty() {
        return Err(DecimalError::NoNumber);
    }
    let mut value = 0;
    for b in s {
        value = with_digit(value, *b)?;
    }
    Ok(value)
}

// The reading that a text stands for, with or without a minus sign.
pub fn signed_of(s: &[u8]) -> Result<u64, ReadingError>
    ensures { result ≡ signed_of s.now }
{
    let kept = match s {
        [b'-', digits @ ..] => HALF.checked_sub(decimal_of(digits)?),
        _ => HALF.checked_add(decimal_of(s)?),
    };
    kept.ok_or(ReadingError::OutOfRange)
}

// The same where no reading is below 0.
pub fn unsigned_of(s: &[u8]) -> Result<u64, ReadingError>
    ensures { result ≡ unsigned_of s.now }
{
    match s {
        [b'-', digits @ ..] => {
            decimal_of(digits)?;
            Err(ReadingError::OutOfRange)
        }
        _ => Ok(decimal_of(s)?),
    }
}
