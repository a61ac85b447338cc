// The list of names that is written, a piece at a time and without slots: the old column's readings before a range, the given names, the old
// column's readings from the range's end on. A piece is a reading and how many times it stands there at once, so that time goes by the bytes
// and not by the counts. The old column was counted before, so nothing in it is refused here and no name is judged again.
ghost use Rattle.std.specs.Prelude.{◌≡◌, ◌∷◌, map, ◌≤◌, ◌<◌, length, drop, get_or};
ghost use Rattle.leb128.specs.Answer.{done};
ghost use Rattle.encoding.specs.Column.{trace, value};
ghost use Rattle.encoding.specs.Given.{given};
ghost use Rattle.encoding.specs.Head.{repeat, head_at};
ghost use Rattle.encoding.specs.Walk.{outcome};
ghost use Rattle.slots.specs.Splice.{spliced};
ghost use Rattle.text.specs.Text.{bytes_at, text_e};
ghost use Rattle.text.specs.Given.{name_list};
ghost use Rattle.text_encoder.specs.Walks.{held_in, HeldBy, old_from, Sound, Onward, DrawnFrom, GivenAs, Rest, At, behind_of, names_from, Pairs};

use encoding::Head;

// A reading of the list: absent, or a name by its start and length in the old column or in the given bytes.
#[derive(Clone, Copy)]
pub(crate) enum Held {
    Absent,
    Old(usize, usize),
    New(usize, usize),
}

// What is left of a run of the old column: absent readings, a name that repeats (start, length and the place of its number), or literal names.
#[derive(Clone, Copy)]
pub(crate) enum TextSort {
    Absent,
    Repeat(usize, usize, usize),
    Literal,
}

// Where one stands in the old column: the position of what comes next, how many readings come before the next run, how many of the present one
// are left, and what they are.
#[derive(Clone, Copy)]
pub(crate) struct TextCursor {
    pub at: usize,
    pub had: u64,
    pub left: u64,
    pub sort: TextSort,
}

// A piece of the old column, and the cursor behind it.
#[derive(Clone, Copy)]
pub(crate) struct OldPiece {
    pub held: Held,
    pub times: u64,
    pub cursor: TextCursor,
}

// Where one stands in the list: a reading that is held and how many times it stands here, 0 at the end. Behind it come so many readings of the
// old column (`before`), the given names from `next` on, and the old column's readings `gap` further on.
#[derive(Clone, Copy)]
pub(crate) struct Splicing {
    pub held: Held,
    pub times: u64,
    pub before: u64,
    pub gap: u64,
    pub next: usize,
    pub cursor: TextCursor,
}

// Into the run at c, which repeats the value at q so many times.
fn repeat_at(column: &[u8], c: TextCursor, q: usize, times: u64) -> TextCursor
    requires sound { Sound column.now c }
    requires left_value { (c.left ≡ 0) × (c.at < length column.now) × (head_at column.now c.at c.had ≡ repeat times q) }
    ensures onward { Onward column.now c result }
    ensures at_lt_at { c.at < result.at }
{
    match leb128::leb128_u64(column, q) {
        Ok((n, start)) => TextCursor {
            at: start + n as usize,
            had: c.had + times,
            left: times,
            sort: TextSort::Repeat(start, n as usize, q),
        },
        Err(_) => c,
    }
}

// Into the run at c, behind which nothing of the run before is left.
fn entered(column: &[u8], c: TextCursor) -> TextCursor
    requires sound { Sound column.now c }
    requires left_value { (c.left ≡ 0) × (c.at < length column.now) }
    ensures onward { Onward column.now c result }
    ensures at_lt_at { c.at < result.at }
{
    match run_head::head_at(column, c.at, c.had) {
        Ok(Head::Repeat(times, q)) => repeat_at(column, c, q, times),
        Ok(Head::Literal(times, q)) => TextCursor {
            at: q,
            had: c.had + times,
            left: times,
            sort: TextSort::Literal,
        },
        Ok(Head::Absent(times, next)) => TextCursor {
            at: next,
            had: c.had + times,
            left: times,
            sort: TextSort::Absent,
        },
        Err(_) => c,
    }
}

// The first cursor with a reading left: this one, or one in a later run; at the column's end none is left.
fn ready(column: &[u8], cursor: TextCursor) -> TextCursor
    requires { Sound column.now cursor }
    ensures onward { Onward column.now cursor result }
    ensures column_len_bound { result.left ≡ 0 → length column.now ≤ result.at }
{
    let mut c = cursor;
    while c.left == 0 {
        if column.len() <= c.at {
            return c;
        }
        c = entered(column, c);
    }
    c
}

// At most `most` of a run whose readings are all the same.
fn same_drawn(column: &[u8], c: TextCursor, held: Held, most: u64) -> OldPiece
    requires sound { Sound column.now c }
    requires left_nonzero { (0 < c.left) × (0 < most) × HeldBy c.sort held }
    ensures { DrawnFrom column.now c most result }
{
    let sort = c.sort;
    if c.left <= most {
        return OldPiece {
            held: held,
            times: c.left,
            cursor: TextCursor {
                at: c.at,
                had: c.had,
                left: 0,
                sort: sort,
            },
        };
    }
    OldPiece {
        held: held,
        times: most,
        cursor: TextCursor {
            at: c.at,
            had: c.had,
            left: c.left - most,
            sort: sort,
        },
    }
}

// The literal name at c.
fn literal_drawn(column: &[u8], c: TextCursor, most: u64) -> OldPiece
    requires sound { Sound column.now c }
    requires left_nonzero { (0 < c.left) × (0 < most) × (c.sort ≡ TextSort.Literal) }
    ensures { DrawnFrom column.now c most result }
{
    match leb128::leb128_u64(column, c.at) {
        Ok((n, start)) => OldPiece {
            held: Held::Old(start, n as usize),
            times: 1,
            cursor: TextCursor {
                at: start + n as usize,
                had: c.had,
                left: c.left - 1,
                sort: TextSort::Literal,
            },
        },
        Err(_) => OldPiece {
            held: Held::Absent,
            times: 0,
            cursor: c,
        },
    }
}

// A piece of the old column, of at most `most` readings.
fn drawn(column: &[u8], cursor: TextCursor, most: u64) -> OldPiece
    requires sound { Sound column.now cursor }
    requires most_nonzero { 0 < most }
    ensures { DrawnFrom column.now cursor most result }
{
    let c = ready(column, cursor);
    if c.left == 0 {
        return OldPiece {
            held: Held::Absent,
            times: 0,
            cursor: c,
        };
    }
    let sort = c.sort;
    match sort {
        TextSort::Absent => same_drawn(column, c, Held::Absent, most),
        TextSort::Repeat(start, len, _) => same_drawn(column, c, Held::Old(start, len), most),
        TextSort::Literal => literal_drawn(column, c, most),
    }
}

// The cursor n readings further on.
fn skipped(column: &[u8], cursor: TextCursor, n: u64) -> TextCursor
    requires sound { Sound column.now cursor }
    requires n_in_bounds { n ≤ length (old_from column.now cursor) }
    ensures sound_2 { Sound column.now result }
    ensures result_value { old_from column.now result ≡ drop n (old_from column.now cursor) }
{
    let mut c = cursor;
    let mut left = n;
    while 0 < left {
        let d = drawn(column, c, left);
        left -= d.times;
        c = d.cursor;
    }
    c
}

// The given name at i.
fn given_at(bytes: &[u8], starts: &[u64], lens: &[u64], present: &[u8], i: usize) -> Held
    requires pairs { Pairs bytes.now starts.now lens.now present.now }
    requires i_in_bounds { i < length starts.now }
    ensures { GivenAs bytes.now (given (get_or present.now i 0)
        (bytes_at bytes.now (get_or starts.now i 0) (get_or lens.now i 0))) result }
{
    if present[i] == 0 {
        return Held::Absent;
    }
    Held::New(starts[i] as usize, lens[i] as usize)
}

// The next piece of the list: what was held is passed.
pub(crate) fn advanced(
    column: &[u8],
    bytes: &[u8],
    starts: &[u64],
    lens: &[u64],
    present: &[u8],
    s: Splicing,
) -> Splicing
    requires pairs { Pairs bytes.now starts.now lens.now present.now }
    requires rest { Rest column.now s }
    ensures at { At column.now bytes.now starts.now lens.now present.now result }
    ensures result_value { names_from column.now bytes.now starts.now lens.now present.now result
        ≡ behind_of column.now bytes.now starts.now lens.now present.now s }
{
    let cursor = s.cursor;
    if 0 < s.before {
        let d = drawn(column, cursor, s.before);
        let held = d.held;
        let behind = d.cursor;
        return Splicing {
            held: held,
            times: d.times,
            before: s.before - d.times,
            gap: s.gap,
            next: s.next,
            cursor: behind,
        };
    }
    if s.next < starts.len() {
        return Splicing {
            held: given_at(bytes, starts, lens, present, s.next),
            times: 1,
            before: 0,
            gap: s.gap,
            next: s.next + 1,
            cursor: cursor,
        };
    }
    let c = skipped(column, cursor, s.gap);
    let d = drawn(column, c, u64::MAX);
    let held = d.held;
    let behind = d.cursor;
    Splicing {
        held: held,
        times: d.times,
        before: 0,
        gap: 0,
        next: s.next,
        cursor: behind,
    }
}

// One reading further.
pub(crate) fn stepped(
    column: &[u8],
    bytes: &[u8],
    starts: &[u64],
    lens: &[u64],
    present: &[u8],
    s: Splicing,
) -> Splicing
    requires pairs { Pairs bytes.now starts.now lens.now present.now }
    requires at { At column.now bytes.now starts.now lens.now present.now s }
    requires times_nonzero { 0 < s.times }
    ensures at_2 { At column.now bytes.now starts.now lens.now present.now result }
    ensures s_value { names_from column.now bytes.now starts.now lens.now present.now s
        ≡ held_in column.now bytes.now s.held
        ∷ names_from column.now bytes.now starts.now lens.now present.now result }
{
    if 1 < s.times {
        let held = s.held;
        let cursor = s.cursor;
        return Splicing {
            held: held,
            times: s.times - 1,
            before: s.before,
            gap: s.gap,
            next: s.next,
            cursor: cursor,
        };
    }
    advanced(column, bytes, starts, lens, present, s)
}

// The walk at its beginning, where the readings from start up to end are replaced.
pub(crate) fn first(
    column: &[u8],
    bytes: &[u8],
    starts: &[u64],
    lens: &[u64],
    present: &[u8],
    start: usize,
    end: usize,
) -> Splicing
    requires pairs { Pairs bytes.now starts.now lens.now present.now }
    requires start_le_end { (start ≤ end) × (outcome (trace text_e column.now) ≡ done (length (trace text_e column.now).readings))
        × (end ≤ length (trace text_e column.now).readings) }
    ensures at { At column.now bytes.now starts.now lens.now present.now result }
    ensures result_value { names_from column.now bytes.now starts.now lens.now present.now result
        ≡ spliced (map value (trace text_e column.now).readings) start end
        (name_list bytes.now starts.now lens.now present.now) }
{
    let fresh = TextCursor {
        at: 0,
        had: 0,
        left: 0,
        sort: TextSort::Absent,
    };
    let s = Splicing {
        held: Held::Absent,
        times: 0,
        before: start as u64,
        gap: (end - start) as u64,
        next: 0,
        cursor: fresh,
    };
    advanced(column, bytes, starts, lens, present, s)
}
