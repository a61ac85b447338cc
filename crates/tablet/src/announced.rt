// How many readings a broken column announces for certain: those of the runs before its fault, and those that the count of the run in which the fault
// lies promises. What stood behind that run is not known. A boolean column promises nothing: its counts are all that it has.
use crate::kinds::Kind;
use encoding::Head;

fn behind_name(part: &[u8], q: usize) -> Option<usize> {
    let (start, len) = text_decoder::name_at(part, q).ok()?;
    Some(start.saturating_add(len))
}

// The position behind the value at q, where it reads.
fn behind_value(part: &[u8], kind: Kind, q: usize) -> Option<usize> {
    match kind {
        Kind::Signed => Some(leb128::leb128_i64(part, q).ok()?.1),
        Kind::Unsigned => Some(leb128::leb128_u64(part, q).ok()?.1),
        Kind::Text => behind_name(part, q),
        Kind::YesNo | Kind::Unserved => None,
    }
}

// The same for c values, one behind the other.
fn behind_values(part: &[u8], kind: Kind, q: usize, c: u64) -> Option<usize> {
    let mut at = q;
    for _ in 0..c {
        at = behind_value(part, kind, at)?;
    }
    Some(at)
}

// How many readings are announced up to the end of a run, and the position behind it, where it reads.
#[derive(Clone, Copy)]
struct Run {
    told: usize,
    next: Option<usize>,
}

fn run_at(part: &[u8], kind: Kind, at: usize, had: usize) -> Run {
    match run_head::head_at(part, at, had as u64) {
        Ok(Head::Repeat(c, q)) => Run {
            told: had.saturating_add(c as usize),
            next: behind_value(part, kind, q),
        },
        Ok(Head::Literal(c, q)) => Run {
            told: had.saturating_add(c as usize),
            next: behind_values(part, kind, q, c),
        },
        Ok(Head::Absent(c, next)) => Run {
            told: had.saturating_add(c as usize),
            next: Some(next),
        },
        Err(_) => Run {
            told: had,
            next: None,
        },
    }
}

// How many readings the runs announce up to the end of the one that has the byte at `place`. No column has more runs than bytes.
fn up_to(part: &[u8], kind: Kind, place: usize) -> usize {
    let mut at = 0;
    let mut told = 0;
    for _ in 0..part.len() {
        let run = run_at(part, kind, at, told);
        told = run.told;
        match run.next {
            Some(next) if next <= place => at = next,
            _ => return told,
        }
    }
    told
}

// The same for a column of any kind with a fault at `place`.
pub fn readings(part: &[u8], kind: Kind, place: usize) -> u64 {
    if kind == Kind::YesNo {
        return 0;
    }
    up_to(part, kind, place) as u64
}
