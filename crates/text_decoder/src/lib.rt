// Reading a String column, sign names as text: its readings counted in one pass over its bytes, whatever the counts say, or decoded into
// lent slots, each name as its start and length in the column.
#![tactic(auto)]

ghost use Rattle.std.specs.Prelude.{◌≡◌, ◌+◌, ◌≤◌, ◌<◌, length, replicate};
ghost use Rattle.std.proofs.lemmas.List.Edits.{sets};
ghost use Rattle.leb128.specs.Got.{got};
ghost use Rattle.leb128.specs.Short.{short};
ghost use Rattle.encoding.specs.Cases.{answer_of, head_of};
ghost use Rattle.encoding.specs.Column.{spot, repeated, literals, run_at, trace};
ghost use Rattle.encoding.specs.Head.{head_at};
ghost use Rattle.encoding.specs.Limit.{limit};
ghost use Rattle.encoding.specs.Slots.{flag_of, Room, Wrote};
ghost use Rattle.encoding.specs.Survivors.{seen, survey_of, surviving};
ghost use Rattle.encoding.specs.Walk.{outcome};
ghost use Rattle.text.specs.Name.{start_of, length_of};
ghost use Rattle.text.specs.Text.{valued, text_at, text_e};
ghost use Rattle.text_decoder.specs.Cases.{name_of, step_of};
ghost use Rattle.text_decoder.specs.Slots.{DecodedNames};

use encoding::{Answer, Head, Survey};
use refusal::{Refusal, Why};

// Where a name stands: its first byte and its length.
pub type Name = Result<(usize, usize), Refusal>;

// Behind a run: the next position and how many readings came so far; or the run's fault.
type Step = Result<(usize, u64), Refusal>;

// The name of n bytes from q on, whose length number stands at `at`. The length is compared with what is left, so that no sum wraps.
fn name_behind(s: &[u8], at: usize, q: usize, n: u64) -> Name
    requires { q ≤ length s.now }
    ensures { name_of s.now result ≡ valued s.now at (got n q) }
{
    let left = (s.len() - q) as u64;
    if left < n {
        return Err(Refusal(Why::Cut, at));
    }
    let len = n as usize;
    let end = q + len;
    if utf8::is_utf8(&s[q..end]) {
        Ok((q, len))
    } else {
        Err(Refusal(Why::NotUtf8, at))
    }
}

// The name whose length number stands at `at`.
pub fn name_at(s: &[u8], at: usize) -> Name
    ensures { name_of s.now result ≡ text_at s.now at }
{
    let (n, q) = leb128::leb128_u64(s, at)?;
    name_behind(s, at, q, n)
}

// How the run at `at` begins, by the fixed table.
#[inline(always)]
fn head_of(table: &[i8; 256], s: &[u8], at: usize, had: u64) -> Result<Head, Refusal>
    requires { table.now ≡ short }
    ensures { head_of result ≡ head_at s.now at had }
{
    run_head::head_by(table, s, at, had)
}

// A repeated run of c readings, whose value stands at q.
fn scan_repeat(s: &[u8], q: usize, had: u64, c: u64) -> Step
    requires { had + c ≤ limit }
    ensures { step_of result ≡ (repeated had c q (text_at s.now q)).next }
{
    let (start, len) = name_at(s, q)?;
    Ok((start + len, had + c))
}

// c literal values from q on, behind which there are `total` readings.
fn scan_literal(s: &[u8], q: usize, total: u64, c: u64) -> Step
    ensures { step_of result ≡ (literals text_e s.now total c q).next }
{
    let mut at = q;
    let mut left = c;
    while 0 < left {
        let (first, len) = name_at(s, at)?;
        at = first + len;
        left -= 1;
    }
    Ok((at, total))
}

// The run at `at`, before which there are `had` readings.
fn scan_run(table: &[i8; 256], s: &[u8], at: usize, had: u64) -> Step
    requires at_in_bounds { (at < length s.now) × (had ≤ limit) }
    requires table_value { table.now ≡ short }
    ensures { step_of result ≡ (run_at text_e s.now (spot at had)).next }
{
    match head_of(table, s, at, had)? {
        Head::Repeat(c, q) => scan_repeat(s, q, had, c),
        Head::Literal(c, q) => scan_literal(s, q, had + c, c),
        Head::Absent(c, next) => Ok((next, had + c)),
    }
}

// How many of c literal values from q on can be read, up to the first that cannot.
fn read_literals(s: &[u8], q: usize, c: u64) -> u64
    ensures { result ≡ length (literals text_e s.now 0 c q).readings }
{
    let mut at = q;
    let mut read: u64 = 0;
    while read < c {
        match name_at(s, at) {
            Ok((start, len)) => {
                at = start + len;
                read += 1;
            }
            Err(_) => {
                return read;
            }
        }
    }
    read
}

// How many readings of the run at `at` stand before its fault; all, where it has none.
fn read_run(table: &[i8; 256], s: &[u8], at: usize, had: u64) -> u64
    requires at_in_bounds { (at < length s.now) × (had ≤ limit) }
    requires table_value { table.now ≡ short }
    ensures value { result ≡ length (run_at text_e s.now (spot at had)).readings }
    ensures result_bound { had + result ≤ limit }
{
    match head_of(table, s, at, had) {
        Ok(Head::Repeat(c, q)) => match name_at(s, q) {
            Ok(_) => c,
            Err(_) => 0,
        },
        Ok(Head::Literal(c, q)) => read_literals(s, q, c),
        Ok(Head::Absent(c, _)) => c,
        Err(_) => 0,
    }
}

// What survives of a column: how many readings before its first fault, and that fault.
pub fn survey(s: &[u8]) -> Survey
    ensures { seen result ≡ survey_of (trace text_e s.now) }
{
    let table = leb128::short_numbers();
    let mut at: usize = 0;
    let mut had: u64 = 0;
    while at < s.len() {
        match scan_run(&table, s, at, had) {
            Ok((next, n)) => {
                at = next;
                had = n;
            }
            Err(fault) => {
                let read = read_run(&table, s, at, had);
                return Survey {
                    readings: had + read,
                    fault: Some(fault),
                };
            }
        }
    }
    Survey {
        readings: had,
        fault: None,
    }
}

// How many readings a column has, or its first fault.
pub fn count(s: &[u8]) -> Answer
    ensures { answer_of result ≡ outcome (trace text_e s.now) }
{
    let found = survey(s);
    match found.fault {
        None => Ok(found.readings),
        Some(fault) => Err(fault),
    }
}

// The same reading in c slots from `from` on.
fn fill_same(
    starts: &mut [u64],
    lens: &mut [u64],
    present: &mut [u8],
    from: usize,
    c: u64,
    start: u64,
    len: u64,
    p: u8,
)
    requires { (from + c ≤ length starts.old)
        × (length present.old ≡ length starts.old) × (length present.old ≡ length lens.old) }
    ensures { (starts.new ≡ sets starts.old from (replicate c start))
        × (lens.new ≡ sets lens.old from (replicate c len))
        × (present.new ≡ sets present.old from (replicate c p)) }
{
    let mut i = from;
    let mut left = c;
    while 0 < left {
        starts[i] = start;
        lens[i] = len;
        present[i] = p;
        i += 1;
        left -= 1;
    }
}

// A repeated run of c readings, whose value stands at q.
fn fill_repeat(
    s: &[u8],
    q: usize,
    had: u64,
    c: u64,
    starts: &mut [u64],
    lens: &mut [u64],
    present: &mut [u8],
) -> Step
    requires c_bound { had + c ≤ limit }
    requires room { Room (repeated had c q (text_at s.now q)).readings had starts.old present.old }
    requires room_2 { Room (repeated had c q (text_at s.now q)).readings had lens.old present.old }
    ensures result_value { step_of result ≡ (repeated had c q (text_at s.now q)).next }
    ensures wrote { Wrote start_of flag_of (repeated had c q (text_at s.now q)).readings had
        starts.old starts.new present.old present.new }
    ensures wrote_2 { Wrote length_of flag_of (repeated had c q (text_at s.now q)).readings had
        lens.old lens.new present.old present.new }
{
    let (start, len) = name_at(s, q)?;
    fill_same(
        starts,
        lens,
        present,
        had as usize,
        c,
        start as u64,
        len as u64,
        1,
    );
    Ok((start + len, had + c))
}

// c literal values from q on.
fn fill_literal(
    s: &[u8],
    q: usize,
    total: u64,
    c: u64,
    from: usize,
    starts: &mut [u64],
    lens: &mut [u64],
    present: &mut [u8],
) -> Step
    requires room { Room (literals text_e s.now total c q).readings from starts.old present.old }
    requires room_2 { Room (literals text_e s.now total c q).readings from lens.old present.old }
    ensures result_value { step_of result ≡ (literals text_e s.now total c q).next }
    ensures wrote { Wrote start_of flag_of (literals text_e s.now total c q).readings from
        starts.old starts.new present.old present.new }
    ensures wrote_2 { Wrote length_of flag_of (literals text_e s.now total c q).readings from
        lens.old lens.new present.old present.new }
{
    let mut at = q;
    let mut i = from;
    let mut left = c;
    while 0 < left {
        let (start, len) = name_at(s, at)?;
        starts[i] = start as u64;
        lens[i] = len as u64;
        present[i] = 1;
        at = start + len;
        i += 1;
        left -= 1;
    }
    Ok((at, total))
}

// The run at `at`, before which there are `had` readings.
fn fill_run(
    table: &[i8; 256],
    s: &[u8],
    at: usize,
    had: u64,
    starts: &mut [u64],
    lens: &mut [u64],
    present: &mut [u8],
) -> Step
    requires at_in_bounds { (at < length s.now) × (had ≤ limit) }
    requires room { Room (run_at text_e s.now (spot at had)).readings had starts.old present.old }
    requires room_2 { Room (run_at text_e s.now (spot at had)).readings had lens.old present.old }
    requires table_value { table.now ≡ short }
    ensures result_value { step_of result ≡ (run_at text_e s.now (spot at had)).next }
    ensures wrote { Wrote start_of flag_of (run_at text_e s.now (spot at had)).readings had
        starts.old starts.new present.old present.new }
    ensures wrote_2 { Wrote length_of flag_of (run_at text_e s.now (spot at had)).readings had
        lens.old lens.new present.old present.new }
{
    match head_of(table, s, at, had)? {
        Head::Repeat(c, q) => fill_repeat(s, q, had, c, starts, lens, present),
        Head::Literal(c, q) => fill_literal(s, q, had + c, c, had as usize, starts, lens, present),
        Head::Absent(c, next) => {
            fill_same(starts, lens, present, had as usize, c, 0, 0, 0);
            Ok((next, had + c))
        }
    }
}

// The readings before the first faulty one, into the first slots; and how the column ends.
fn fill(s: &[u8], starts: &mut [u64], lens: &mut [u64], present: &mut [u8]) -> Answer
    requires room { Room (trace text_e s.now).readings 0 starts.old present.old }
    requires room_2 { Room (trace text_e s.now).readings 0 lens.old present.old }
    ensures result_value { answer_of result ≡ outcome (trace text_e s.now) }
    ensures wrote { Wrote start_of flag_of (trace text_e s.now).readings 0
        starts.old starts.new present.old present.new }
    ensures wrote_2 { Wrote length_of flag_of (trace text_e s.now).readings 0
        lens.old lens.new present.old present.new }
{
    let table = leb128::short_numbers();
    let mut at: usize = 0;
    let mut filled: u64 = 0;
    while at < s.len() {
        let (next, n) = fill_run(&table, s, at, filled, starts, lens, present)?;
        at = next;
        filled = n;
    }
    Ok(filled)
}

// The whole column into lent slots.
pub fn decode(s: &[u8], starts: &mut [u64], lens: &mut [u64], present: &mut [u8]) -> Answer
    ensures { DecodedNames (trace text_e s.now) starts.old starts.new
        lens.old lens.new present.old present.new (answer_of result) }
{
    if starts.len() != lens.len() {
        return Err(Refusal(Why::BadList, 0));
    }
    if lens.len() != present.len() {
        return Err(Refusal(Why::BadList, 0));
    }
    let n = count(s)?;
    if n <= lens.len() as u64 {
        return fill(s, starts, lens, present);
    }
    Err(Refusal(Why::TooFewSlots, 0))
}

// What survives of a column into lent slots: 8, then 9 where too few are lent for it, else how many readings that is.
pub fn keep(s: &[u8], starts: &mut [u64], lens: &mut [u64], present: &mut [u8]) -> Answer
    ensures { DecodedNames (surviving (trace text_e s.now)) starts.old starts.new
        lens.old lens.new present.old present.new (answer_of result) }
{
    if starts.len() != lens.len() {
        return Err(Refusal(Why::BadList, 0));
    }
    if lens.len() != present.len() {
        return Err(Refusal(Why::BadList, 0));
    }
    let n = survey(s).readings;
    if n <= lens.len() as u64 {
        // Its refusal, if any, is the fault behind what survives.
        let _ = fill(s, starts, lens, present);
        return Ok(n);
    }
    Err(Refusal(Why::TooFewSlots, 0))
}
