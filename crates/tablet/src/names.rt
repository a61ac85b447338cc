// Names, the readings of a text column: how they are given and listed, and as what they are kept.
//
// A name that begins and ends with a double quote stands between the two. In every name a double quote is written twice, and \xNN stands for
// the byte with these hex digits. A name is kept as start * 2^32 + length, its place in the bytes where it stands: one number, so that the readings of
// every kind take one list of fixed size (no heap).
ghost use Rattle.std.specs.Prelude.{◌<◌, IfSome, length};

use crate::pen::Pen;

const HIGH: u64 = 4294967296;

// The name from one place up to another, as it is kept.
pub fn kept(start: u64, end: u64) -> u64 {
    if HIGH <= end {
        return 0;
    }
    if end < start {
        return 0;
    }
    start * HIGH + (end - start)
}

// The starts and lengths of names, at the front of two lists.
pub fn part_all(values: &[u64], starts: &mut [u64], lens: &mut [u64]) {
    for ((start, len), value) in starts.iter_mut().zip(lens.iter_mut()).zip(values) {
        *start = *value / HIGH;
        *len = *value % HIGH;
    }
}

// The value of a hex digit.
fn digit(b: u8) -> Option<u8>
    ensures { IfSome result (λ d. d < 16) }
{
    match b {
        b'0'..=b'9' => Some(b - b'0'),
        b'a'..=b'f' => Some(b - b'a' + 10),
        b'A'..=b'F' => Some(b - b'A' + 10),
        _ => None,
    }
}

// The byte that a text stands for first, and the text behind what stands for it.
fn meant(s: &[u8]) -> Option<(u8, &[u8])>
    ensures { IfSome result (λ r. length r.1.now < length s.now) }
{
    match s {
        [b'"', b'"', rest @ ..] => Some((b'"', rest)),
        [b'\\', b'x', high, low, rest @ ..] => Some((digit(*high)? * 16 + digit(*low)?, rest)),
        [] | [b'"' | b'\\', ..] => None,
        [b, rest @ ..] => Some((*b, rest)),
    }
}

// What stands between the quotes, where there are quotes.
fn bare(s: &[u8]) -> &[u8] {
    match s {
        [b'"', inner @ .., b'"'] => inner,
        _ => s,
    }
}

// Puts the bytes that a text stands for into out, and answers the place behind them, or none where it stands for none or there is no room.
fn put_bare(s: &[u8], out: &mut [u8], at: usize) -> Option<usize> {
    let mut rest = s;
    let mut n = at;
    while !rest.is_empty() {
        let (byte, behind) = meant(rest)?;
        *out.get_mut(n)? = byte;
        n = n.saturating_add(1);
        rest = behind;
    }
    Some(n)
}

// The same for a name as it is given. The empty name stands in quotes.
pub fn put(s: &[u8], out: &mut [u8], at: usize) -> Option<usize> {
    if s.is_empty() {
        return None;
    }
    put_bare(bare(s), out, at)
}

fn byte_at(s: &[u8], i: usize) -> u8 {
    s.get(i).copied().unwrap_or(0)
}

// Is it a byte that a terminal may take for a command? The characters 0x80 to 0x9f are such too, each 0xc2 and a byte.
fn is_control(s: &[u8], i: usize) -> bool {
    match byte_at(s, i) {
        0..=31 | 127 => true,
        194 => byte_at(s, i.saturating_add(1)) < 160,
        128..=159 => byte_at(s, i.saturating_sub(1)) == 194,
        _ => false,
    }
}

// Does a byte stand for itself wherever a name is given?
fn is_plain(s: &[u8], i: usize) -> bool {
    match byte_at(s, i) {
        b' ' | b'"' | b',' | b'\\' => false,
        _ => !is_control(s, i),
    }
}

// Can a name be given as it stands? A word that begins with a dash may be an option, or an absent name.
fn is_bare(s: &[u8]) -> bool {
    match s {
        [] | [b'-', ..] => false,
        _ => (0..s.len()).all(|i| is_plain(s, i)),
    }
}

// A byte of a name in quotes.
fn say_byte(pen: &mut Pen<'_>, s: &[u8], i: usize) {
    match byte_at(s, i) {
        b'"' => pen.bytes(b"\"\""),
        b if b == b'\\' || is_control(s, i) => write!(pen, "\\x{b:02x}"),
        b => pen.bytes(&[b]),
    }
}

// A name as it can be given.
pub fn say(pen: &mut Pen<'_>, s: &[u8]) {
    if is_bare(s) {
        return pen.bytes(s);
    }
    pen.bytes(b"\"");
    for i in 0..s.len() {
        say_byte(pen, s, i);
    }
    pen.bytes(b"\"");
}
