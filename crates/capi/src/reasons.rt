// Why a table or a column was refused, as one struct of numbers.
ghost use Rattle.std.specs.Prelude.{◌≡◌};
ghost use Rattle.reason.specs.Cases.{count_of, facts_of, reason_of, told_of};
ghost use Rattle.reason.specs.Columns.{column_reason};
ghost use Rattle.table_reason.specs.Cases as tables;
ghost use Rattle.table_reason.specs.TableReason.{table_reason};
ghost use Rattle.block_reason.specs.Cases.{why_of};
ghost use Rattle.block_reason.specs.Why.{block_reason};
ghost use Rattle.capi.specs.Reasons.{three, column_facts, table_facts, signed, reasonless, because, run_as, table_as, column_reason_as, table_reason_as, block_reason_as};

use crate::Reason;
use block_reason::Fault;
use reason::{Count, Told};
use refusal::Refusal;
use table_reason::{TableFacts, TableReason};

// Which facts, and their numbers.
#[derive(Clone, Copy)]
struct Facts {
    which: u8,
    first: u64,
    second: u64,
    third: u64,
    sum: i64,
    delta: i64,
}

// A count's sign, 0 where none was read, and its size.
#[derive(Clone, Copy)]
struct Signed {
    sign: u8,
    size: u64,
}

fn three_of(which: u8, first: u64, second: u64, third: u64) -> Facts
    ensures { result ≡ three which first second third }
{
    Facts {
        which: which,
        first: first,
        second: second,
        third: third,
        sum: 0,
        delta: 0,
    }
}

impl From<reason::Facts> for Facts {
    ghost from_gives = { λ f c. c ≡ column_facts (facts_of f) };

    fn from(f: reason::Facts) -> Facts {
        match f {
            reason::Facts::Bytes(n) => three_of(1, n, 0, 0),
            reason::Facts::Name(n, there) => three_of(2, n, there, 0),
            reason::Facts::Passes(had, c) => three_of(3, had, c, 0),
            reason::Facts::Sum(z, d) => Facts {
                which: 4,
                first: 0,
                second: 0,
                third: 0,
                sum: z,
                delta: d,
            },
        }
    }
}

impl From<TableFacts> for Facts {
    ghost from_gives = { λ f c. c ≡ table_facts (tables.facts_of f) };

    fn from(f: TableFacts) -> Facts {
        match f {
            TableFacts::Bytes(n) => three_of(1, n, 0, 0),
            TableFacts::Columns(n) => three_of(5, n, 0, 0),
            TableFacts::Falls(a, b) => three_of(6, u64::from(a), u64::from(b), 0),
            TableFacts::Compressed(a) => three_of(7, u64::from(a), 0, 0),
            TableFacts::Lengths(high, low, room) => three_of(8, high, low, room),
        }
    }
}

impl From<Count> for Signed {
    ghost from_gives = { λ n c. c ≡ signed (count_of n) };

    fn from(n: Count) -> Signed {
        match n {
            Count::Unread => Signed { sign: 0, size: 0 },
            Count::Plus(size) => Signed { sign: 1, size },
            Count::Minus(size) => Signed { sign: 2, size },
        }
    }
}

// No reason: nothing is wrong, or a refusal of the call's own.
fn no_reason(number: u8, place: usize) -> Reason
    ensures { result ≡ reasonless number place }
{
    Reason {
        number: number,
        fault: 0,
        about: 0,
        sign: 0,
        facts: 0,
        place: place,
        fault_place: 0,
        which: 0,
        begins: 0,
        count: 0,
        index: 0,
        first: 0,
        second: 0,
        third: 0,
        sum: 0,
        delta: 0,
    }
}

// A reason of a table: about no row (1), or a row (2).
fn of_table(fault: u8, place: usize, about: u8, which: u64, f: Facts) -> Reason
    ensures { result ≡ because fault place about which 0 (record { sign = 0; size = 0 }) 0 f }
{
    Reason {
        number: 0,
        fault: fault,
        about: about,
        sign: 0,
        facts: f.which,
        place: 0,
        fault_place: place,
        which: which,
        begins: 0,
        count: 0,
        index: 0,
        first: f.first,
        second: f.second,
        third: f.third,
        sum: f.sum,
        delta: f.delta,
    }
}

impl From<reason::Reason> for Reason {
    ghost from_gives = { λ r c. c ≡ run_as (reason_of r) };

    fn from(r: reason::Reason) -> Reason {
        let Refusal(why, fault_place) = r.refusal;
        let f = Facts::from(r.facts);
        let n = Signed::from(r.count);
        Reason {
            number: 0,
            fault: u8::from(why),
            about: 3,
            sign: n.sign,
            facts: f.which,
            place: 0,
            fault_place,
            which: r.run,
            begins: r.begins,
            count: n.size,
            index: r.index,
            first: f.first,
            second: f.second,
            third: f.third,
            sum: f.sum,
            delta: f.delta,
        }
    }
}

impl From<TableReason> for Reason {
    ghost from_gives = { λ r c. c ≡ table_as (tables.reason_of r) };

    fn from(r: TableReason) -> Reason {
        let Refusal(why, place) = r.refusal;
        let f = Facts::from(r.facts);
        match r.row {
            Some(i) => of_table(u8::from(why), place, 2, i, f),
            None => of_table(u8::from(why), place, 1, 0, f),
        }
    }
}

impl From<Told> for Reason {
    ghost from_gives = { λ t c. c ≡ column_reason_as (told_of t) };

    fn from(t: Told) -> Reason {
        match t {
            Ok(Some(r)) => Reason::from(r),
            Ok(None) => no_reason(0, 0),
            Err(Refusal(why, place)) => no_reason(u8::from(why), place),
        }
    }
}

impl From<Option<TableReason>> for Reason {
    ghost from_gives = { λ t c. c ≡ table_reason_as (tables.told_of t) };

    fn from(t: Option<TableReason>) -> Reason {
        match t {
            Some(r) => Reason::from(r),
            None => no_reason(0, 0),
        }
    }
}

impl From<block_reason::Why> for Reason {
    ghost from_gives = { λ w c. c ≡ block_reason_as (why_of w) };

    fn from(w: block_reason::Why) -> Reason {
        match w {
            Ok(None) => no_reason(0, 0),
            Ok(Some(Fault::Table(r))) => Reason::from(r),
            Ok(Some(Fault::Column(_, r))) => Reason::from(r),
            Err(Refusal(why, place)) => no_reason(u8::from(why), place),
        }
    }
}

#[unsafe(no_mangle)]
pub extern "C" fn grundavok_table_reason(block: &[u8]) -> Reason
    ensures { result ≡ table_reason_as (table_reason block.now) }
{
    Reason::from(table_reason::table_reason(block))
}

#[unsafe(no_mangle)]
pub extern "C" fn grundavok_column_reason(typ: u8, s: &[u8]) -> Reason
    ensures { result ≡ column_reason_as (column_reason typ s.now) }
{
    Reason::from(column_reason::column_reason(typ, s))
}

#[unsafe(no_mangle)]
pub extern "C" fn grundavok_block_reason(block: &[u8], position: usize) -> Reason
    ensures { result ≡ block_reason_as (block_reason block.now position) }
{
    Reason::from(block_reason::block_reason(block, position))
}
