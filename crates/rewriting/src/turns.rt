// What a boolean column reads as, written again by our writer: how many bytes that takes, found count by count.
ghost use Rattle.std.specs.Prelude.{◌≡◌, ◌+◌, ◌≤◌, length};
ghost use Rattle.leb128.specs.Answer.{done, within};
ghost use Rattle.encoding.specs.Cases.{answer_of};
ghost use Rattle.encoding.specs.Limit.{limit};
ghost use Rattle.rewriting.specs.Rewritten.{rewritten_turns};
ghost use Rattle.rewriting.specs.Turning.{counting, turned_by, counted};
ghost use Rattle.rewriting.specs.Turned.{turns_of};

use crate::cutter::spent;
use encoding::{Answer, LIMIT};

// What is known of the list so far: the bytes spent, or 10; the byte that is held, and how many times it came.
#[derive(Clone, Copy, Debug, PartialEq, Eq)]
struct Turner {
    used: Answer,
    flag: u8,
    times: u64,
}

// The count of what is held spent.
fn count_spent(c: Turner, room: u64) -> Answer
    ensures { answer_of result ≡ counting room (turns_of c) }
{
    spent(room, leb128_writer::len_u64(c.times) as u64, c.used)
}

// n readings of a byte.
fn turned(c: Turner, flag: u8, n: u64, room: u64) -> Turner
    requires { c.times + n ≤ limit }
    ensures result_value { turns_of result ≡ turned_by room (turns_of c) flag n }
    ensures times_bound { result.times ≤ c.times + n }
{
    if n == 0 {
        return c;
    }
    if flag == c.flag {
        return Turner {
            used: c.used,
            flag,
            times: c.times + n,
        };
    }
    Turner {
        used: count_spent(c, room),
        flag,
        times: n,
    }
}

// The size, where the list ends here, behind so many readings: the empty list writes nothing.
fn turns_end(had: u64, c: Turner, room: u64) -> Answer
    ensures { answer_of result ≡ counted room had (turns_of c) }
{
    if had == 0 {
        return Ok(0);
    }
    count_spent(c, room)
}

// How many bytes our writer takes for the readings before a boolean column's first fault, in the plain form; 10 where that is more than `room`.
pub fn rewritten_turns_len(s: &[u8], room: u64) -> Answer
    ensures { answer_of result ≡ within 10 room (done (length (rewritten_turns s.now))) }
{
    let mut c = Turner {
        used: Ok(0),
        flag: 0,
        times: 0,
    };
    let mut at: usize = 0;
    let mut had: u64 = 0;
    let mut flag: u8 = 0;
    while at < s.len() {
        match leb128::leb128_u64(s, at) {
            Ok((n, next)) => {
                if LIMIT - had < n {
                    return turns_end(had, c, room);
                }
                c = turned(c, flag, n, room);
                at = next;
                had += n;
                flag = 1 - flag;
            }
            Err(_) => {
                return turns_end(had, c, room);
            }
        }
    }
    turns_end(had, c, room)
}
