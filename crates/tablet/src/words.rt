// The words of a command, each with a 0 byte behind it.
use std::env::{Env, FillError};

// Where word k begins.
pub fn start(words: &[u8], k: usize) -> usize {
    words.split(|b| *b == 0).take(k).fold(0, |at: usize, word| {
        at.saturating_add(word.len()).saturating_add(1)
    })
}

// Word k; empty where there is none.
pub fn word(words: &[u8], k: usize) -> &[u8] {
    words.split(|b| *b == 0).nth(k).unwrap_or_default()
}

// How many words there are.
pub fn count(words: &[u8]) -> usize {
    words.iter().filter(|b| **b == 0).count()
}

// The first word from k on that is an option, which begins with two dashes.
pub fn option(words: &[u8], k: usize) -> Option<usize> {
    let mut all = words.split(|b| *b == 0).enumerate().skip(k);
    all.find(|(_, word)| word.starts_with(b"--"))
        .map(|(i, _)| i)
}

// Whether --over stands from word k on, and nothing else; none where anything else does.
pub fn over(words: &[u8], k: usize) -> Option<bool> {
    match count(words).checked_sub(k) {
        Some(0) => Some(false),
        Some(1) => (word(words, k) == b"--over".as_slice()).then_some(true),
        _ => None,
    }
}

// Puts argument i of the program at a place of the line, and answers the place behind it.
fn add_argument(rt: &impl Env, i: usize, line: &mut [u8], at: usize) -> Result<usize, FillError> {
    let room = line.get_mut(at..).ok_or(FillError::TooLong)?;
    let n = rt.arg(i, room)?;
    *room.get_mut(n).ok_or(FillError::TooLong)? = 0;
    Ok(at.saturating_add(n).saturating_add(1))
}

// The program's arguments as words; none where the line has no room for them.
pub fn arguments<'r>(rt: &impl Env, line: &'r mut [u8]) -> Option<&'r [u8]> {
    let mut at = 0;
    for i in 1..usize::MAX {
        match add_argument(rt, i, line, at) {
            Ok(next) => at = next,
            Err(FillError::NotPresent) => break,
            Err(FillError::TooLong) => return None,
        }
    }
    line.get(..at)
}
