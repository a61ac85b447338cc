// A reason in sentences: the run or the row at fault, and the facts that make the refusal true.
use crate::pen::Pen;
use reason::{Count, Facts, Reason};
use refusal::Why;
use table_reason::{TableFacts, TableReason};

// Is a name at fault, and not a number?
pub fn is_name(r: Reason) -> bool {
    matches!(r.facts, Facts::Name(_, _))
}

// Is a number of the table at fault?
pub fn is_of_number(r: TableReason) -> bool {
    matches!(r.facts, TableFacts::Bytes(_))
}

// What a count says of its run.
fn say_count(pen: &mut Pen<'_>, c: Count) {
    match c {
        Count::Unread => write!(pen, ", and whose count does not read"),
        Count::Plus(0) => write!(pen, " with the count 0: absent readings"),
        Count::Plus(n) => write!(pen, " with the count {n}"),
        Count::Minus(n) => write!(pen, " with the count -{n}: so many values stand singly"),
    }
}

// Which run it is.
fn say_run(pen: &mut Pen<'_>, r: Reason) {
    write!(
        pen,
        "  the fault is in run {} of the column, counted from 0, which begins at byte {}",
        r.run, r.begins
    );
    say_count(pen, r.count);
    writeln!(
        pen,
        "\n  all runs before it read without fault; readings before the fault: {}",
        r.index
    );
}

// How many bytes of a number are there, by what is wrong with it.
fn say_bytes(pen: &mut Pen<'_>, why: Why, n: u64) {
    match why {
        Why::NothingDue => writeln!(
            pen,
            "  no byte of the number is there: the bytes stop between two numbers"
        ),
        Why::Cut => writeln!(
            pen,
            "  bytes of the number that are there: {n}, and more were to follow: the bytes stop within it"
        ),
        _ => writeln!(pen, "  bytes of the number: {n}"),
    }
}

fn say_name(pen: &mut Pen<'_>, why: Why, n: u64, there: u64) {
    match why {
        Why::NotUtf8 => writeln!(
            pen,
            "  the name's length is {n}, and its bytes are not UTF-8"
        ),
        _ => writeln!(
            pen,
            "  the name's length is {n}, and bytes of it that are there: {there}"
        ),
    }
}

fn say_facts(pen: &mut Pen<'_>, why: Why, facts: Facts) {
    match facts {
        Facts::Bytes(n) => say_bytes(pen, why, n),
        Facts::Name(n, there) => say_name(pen, why, n, there),
        Facts::Passes(had, asked) => writeln!(
            pen,
            "  readings before the run: {had}; its count asks for {asked} more, and together that is above 4,294,967,295"
        ),
        Facts::Sum(z, d) => writeln!(
            pen,
            "  the reading before is {z}, and the difference to it {d}: together they leave 64 bits"
        ),
    }
}

// The reason of a column's fault.
pub fn say(pen: &mut Pen<'_>, r: Reason) {
    say_run(pen, r);
    say_facts(pen, r.refusal.0, r.facts);
}

// What lengths add up to, where that is within 64 bits.
fn say_lengths(pen: &mut Pen<'_>, high: u64, low: u64, room: u64) {
    write!(pen, "  the columns' lengths add up to ");
    if 0 < high {
        write!(pen, "{high} times 2^64 and ");
    }
    writeln!(pen, "{low}; bytes of data that are there: {room}");
}

fn say_table_facts(pen: &mut Pen<'_>, why: Why, facts: TableFacts) {
    match facts {
        TableFacts::Bytes(n) => say_bytes(pen, why, n),
        TableFacts::Columns(n) => writeln!(pen, "  columns that the table announces: {n}"),
        TableFacts::Falls(before, spec) => writeln!(
            pen,
            "  its specification is 0x{spec:02x}, and that of the row before, 0x{before:02x}, comes behind it in the order"
        ),
        TableFacts::Compressed(spec) => {
            writeln!(
                pen,
                "  its specification is 0x{spec:02x}, in which bit 3 says so"
            )
        }
        TableFacts::Lengths(high, low, room) => say_lengths(pen, high, low, room),
    }
}

// The reason of a table's fault.
pub fn say_table(pen: &mut Pen<'_>, r: TableReason) {
    if let Some(i) = r.row {
        writeln!(
            pen,
            "  the fault is in row {i} of the table, counted from 0"
        );
    }
    say_table_facts(pen, r.refusal.0, r.facts);
}
