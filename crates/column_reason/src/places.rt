// The run that has a reading, or that ends the column before it.
ghost use Rattle.std.specs.Prelude.{◌≡◌, ◌≤◌};
ghost use Rattle.std.proofs.Math.Option.{some};
ghost use Rattle.encoding.specs.Limit.{limit};
ghost use Rattle.encoding.specs.Column.{Spot};
ghost use Rattle.runs.specs.Values.{element_of};
ghost use Rattle.reason.specs.Reason.{holding, spots_of};
ghost use Rattle.column_reason.specs.Places.{stands_at, HoldsTurn};

use runs::Values;

// A run by its index, the byte where it begins, and how many readings come before it.
#[derive(Clone, Copy, Debug, PartialEq, Eq)]
pub(crate) struct RunPlace {
    pub(crate) run: u64,
    pub(crate) at: usize,
    pub(crate) had: u64,
}

// The run of a run-length column that has the reading n, or that ends the column before it.
pub(crate) fn run_of(s: &[u8], values: Values, n: u64) -> RunPlace
    ensures { holding (λ (st : Spot). st.had) n 0 (spots_of (element_of values).E s.now)
        ≡ some (stands_at (element_of values).E s.now result) }
{
    let mut run: u64 = 0;
    let mut at: usize = 0;
    let mut had: u64 = 0;
    loop {
        match runs::run_end(s, values, at, had) {
            Ok(Some((next, total))) => {
                if n < total {
                    return RunPlace { run, at, had };
                }
                run += 1;
                at = next;
                had = total;
            }
            Ok(None) => return RunPlace { run, at, had },
            Err(_) => return RunPlace { run, at, had },
        }
    }
}

// The count of a boolean column that has the reading n, or that ends the column before it. One that passes the limit reaches beyond n too.
pub(crate) fn turn_of(s: &[u8], n: u64) -> RunPlace
    requires { n ≤ limit }
    ensures { HoldsTurn s.now n result }
{
    let mut turn: u64 = 0;
    let mut at: usize = 0;
    let mut had: u64 = 0;
    while at < s.len() {
        match leb128::leb128_u64(s, at) {
            Ok((c, next)) => {
                if n - had < c {
                    return RunPlace { run: turn, at, had };
                }
                turn += 1;
                at = next;
                had += c;
            }
            Err(_) => return RunPlace { run: turn, at, had },
        }
    }
    RunPlace { run: turn, at, had }
}
