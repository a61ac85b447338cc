// The bytes around a place, in hex, with those of the number that stands there in brackets.
use crate::parts::between;
use crate::pen::Pen;

// How many bytes are shown before the number and behind it.
const NEAR: usize = 8;

// The bytes from a up to e that are there, in two digits each.
fn say_bytes(pen: &mut Pen<'_>, s: &[u8], a: usize, e: usize) {
    for b in between(s, a, e.min(s.len())) {
        write!(pen, " {b:02x}");
    }
}

// A line for a place: where its first byte stands, the bytes before the number, the number's own in brackets, and some behind it.
pub fn say(pen: &mut Pen<'_>, s: &[u8], place: usize) {
    let n = reason::number_bytes(s, place) as usize;
    let from = place.saturating_sub(NEAR);
    let end = place.saturating_add(n);
    let till = end.saturating_add(NEAR);
    write!(pen, "  the bytes from {from} on:");
    say_bytes(pen, s, from, place);
    write!(pen, " [");
    say_bytes(pen, s, place, end);
    write!(pen, " ]");
    say_bytes(pen, s, end, till);
    if s.len() <= till {
        writeln!(pen, " and no more");
    } else {
        writeln!(pen, " ..");
    }
}
