// Which bytes are UTF-8 (RFC 3629), in one pass over them. The table stands here in place of std's `from_utf8`: the wrong programs of
// must-fail/ change its lines.
#![tactic(auto)]

ghost use Rattle.std.specs.Prelude.{◌≡◌};
ghost use Rattle.utf8.specs.Utf8.{follow, is_utf8};
ghost use Rattle.std.proofs.Math.Option.{some};
ghost use Rattle.utf8.specs.Due.{ranges, ranges_of, behind, due_of};

// How many more bytes of the character come, the first of them from low to high and the others of a tail's range.
#[derive(Clone, Copy, Debug, PartialEq, Eq)]
struct Due {
    count: u8,
    low: u8,
    high: u8,
}

// So many bytes are due, the first of them from low to high.
fn bytes(count: u8, low: u8, high: u8) -> Option<Due>
    ensures { due_of result ≡ some (ranges count low high) }
{
    Some(Due { count, low, high })
}

// What is due behind a first byte, by the table of RFC 3629, section 4; none where no character begins so.
#[tactic(auto, unfolding(crate::specs::Utf8::follow))]
fn behind_first(b: u8) -> Option<Due>
    ensures { due_of result ≡ follow b }
{
    match b {
        0x00..=0x7f => bytes(0, 0x80, 0xbf),
        0xc2..=0xdf => bytes(1, 0x80, 0xbf),
        0xe0 => bytes(2, 0xa0, 0xbf),
        0xe1..=0xec => bytes(2, 0x80, 0xbf),
        0xed => bytes(2, 0x80, 0x9f),
        0xee..=0xef => bytes(2, 0x80, 0xbf),
        0xf0 => bytes(3, 0x90, 0xbf),
        0xf1..=0xf3 => bytes(3, 0x80, 0xbf),
        0xf4 => bytes(3, 0x80, 0x8f),
        _ => None,
    }
}

impl Due {
    // Between two characters.
    const NOTHING: Due = Due {
        count: 0,
        low: 0x80,
        high: 0xbf,
    };

    // What is due behind the byte b, where this was due before it; none where b may not stand there.
    fn behind(self, b: u8) -> Option<Due>
        ensures { due_of result ≡ behind (ranges_of self) b }
    {
        if self.count == 0 {
            return behind_first(b);
        }
        if b < self.low || self.high < b {
            return None;
        }
        bytes(self.count - 1, 0x80, 0xbf)
    }
}

// Are these bytes UTF-8?
pub fn is_utf8(s: &[u8]) -> bool
    ensures { result ≡ is_utf8 s.now }
{
    let mut due = Due::NOTHING;
    for b in s {
        let Some(next) = due.behind(*b) else {
            return false;
        };
        due = next;
    }
    due.count == 0
}
