// Parts of lists. Every function takes any index.

// The part of s from a up to e, or an empty one where s has no such part.
pub fn between<T>(s: &[T], a: usize, e: usize) -> &[T] {
    s.get(a..e).unwrap_or_default()
}

// Puts a text into out, and answers the place behind it, or none where it does not fit.
pub fn put(out: &mut [u8], at: usize, t: &[u8]) -> Option<usize> {
    let end = at.checked_add(t.len())?;
    out.get_mut(at..end)?.copy_from_slice(t);
    Some(end)
}
