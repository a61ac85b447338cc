// Why a column was refused: its definitions and laws, the answers of the calls, and how many bytes of a number are there.
#![tactic(auto)]

ghost use Rattle.std.specs.Prelude.{◌≡◌, drop};
ghost use Rattle.reason.specs.Reason.{number_bytes};

use refusal::Refusal;

// The count at the byte where a run begins: none was read; or a sign and a number.
#[derive(Clone, Copy, Debug, PartialEq, Eq)]
pub enum Count {
    Unread,
    Plus(u64),
    Minus(u64),
}

// The facts that make a refusal true: how many bytes of the number at the place are there; a name's length, and how many bytes are there for it;
// the readings before the run, and how many its count asks for; the sum before, and the delta.
#[derive(Clone, Copy, Debug, PartialEq, Eq)]
pub enum Facts {
    Bytes(u64),
    Name(u64, u64),
    Passes(u64, u64),
    Sum(i64, i64),
}

// A column's fault; the run at fault by its index, the byte where it begins and the count there; the index of the reading at
// fault; and the facts.
#[derive(Clone, Copy, Debug, PartialEq, Eq)]
pub struct Reason {
    pub refusal: Refusal,
    pub run: u64,
    pub begins: usize,
    pub count: Count,
    pub index: u64,
    pub facts: Facts,
}

// What a call over a column answers: the reason of its fault, none of a sound one; or a refusal of the call's own.
pub type Told = Result<Option<Reason>, Refusal>;

// How many bytes of the number at a position are there: up to its final one, to the tenth, or to the end.
pub fn number_bytes(s: &[u8], at: usize) -> u64
    ensures { result ≡ number_bytes 0 (drop at s.now) }
{
    let mut n: u64 = 0;
    let mut i = at;
    while i < s.len() {
        if s[i] < 128 {
            return n + 1;
        }
        if n == 9 {
            return 10;
        }
        n += 1;
        i += 1;
    }
    n
}
