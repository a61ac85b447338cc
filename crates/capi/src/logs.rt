// The pen's log: an entry of it, and its replay over a delta column.
ghost use Rattle.std.specs.Prelude.{◌≡◌};
ghost use Rattle.pen_log.specs.Cases.{entry_of, told_of};
ghost use Rattle.pen_log.specs.Entry.{entry_at};
ghost use Rattle.pen_log.specs.Replay.{Replays};
ghost use Rattle.capi.specs.Logs.{entry_as, replayed_as, ToldReplay};

use crate::{Entry, Replayed};
use pen_log::LogEntry;
use refusal::Refusal;

fn entry_of(kind: u8, position: u32, depth: i64, next: usize) -> Entry
    ensures { result ≡ record { number = 0; kind = kind; position = position; place = 0; depth = depth; next = next } }
{
    Entry {
        number: 0,
        kind,
        position,
        place: 0,
        depth,
        next,
    }
}

impl From<Result<LogEntry, Refusal>> for Entry {
    ghost from_gives = { λ e c. c ≡ entry_as (entry_of e) };

    fn from(e: Result<LogEntry, Refusal>) -> Entry {
        match e {
            Ok(LogEntry::Insert(i, x, next)) => entry_of(1, i, x, next),
            Ok(LogEntry::InsertAbsent(i, next)) => entry_of(2, i, 0, next),
            Ok(LogEntry::Remove(i, next)) => entry_of(3, i, 0, next),
            Ok(LogEntry::Change(i, x, next)) => entry_of(4, i, x, next),
            Err(Refusal(why, place)) => Entry {
                number: u8::from(why),
                kind: 0,
                position: 0,
                place,
                depth: 0,
                next: 0,
            },
        }
    }
}

impl From<pen_log::Replayed> for Replayed {
    ghost from_gives = { λ r c. c ≡ replayed_as (told_of r) };

    fn from(r: pen_log::Replayed) -> Replayed {
        match r {
            Ok((readings, written)) => Replayed {
                number: 0,
                place: 0,
                readings,
                written,
            },
            Err(Refusal(why, place)) => Replayed {
                number: u8::from(why),
                place,
                readings: 0,
                written: 0,
            },
        }
    }
}

#[unsafe(no_mangle)]
pub extern "C" fn grundavok_log_entry(log: &[u8], at: usize) -> Entry
    ensures { result ≡ entry_as (entry_at log.now at) }
{
    Entry::from(pen_log::entry_at(log, at))
}

#[unsafe(no_mangle)]
pub extern "C" fn grundavok_delta_replay(
    column: &[u8],
    log: &[u8],
    values: &mut [i64],
    present: &mut [u8],
    out: &mut [u8],
) -> Replayed
    ensures { ToldReplay (Replays column.now log.now values.old values.new
        present.old present.new out.old out.new) result }
{
    Replayed::from(pen_log::replay(column, log, values, present, out))
}
