// Places among words, whatever stands there.
use words::{next_literal, word};

// The place of the literal behind the one at a place.
pub(crate) fn past(k: &[u16], at: usize) -> usize {
    if at < k.len() {
        return next_literal(k, at);
    }
    at
}

// The place of a literal by its number.
pub(crate) fn literal_from(k: &[u16], i: usize) -> usize {
    let mut at = 0;
    for _ in 0..i {
        at = past(k, at);
    }
    at
}

// How many literals there are.
pub(crate) fn literals_of(k: &[u16]) -> usize {
    k.iter().filter(|w| matches!(**w, 5000 | 6000)).count()
}

// So many words from a place on, or none where there are fewer.
pub(crate) fn part(k: &[u16], from: usize, n: usize) -> &[u16] {
    k.get(from..from.saturating_add(n)).unwrap_or(&[])
}

// Whether some words stand from a place on, where 0 stands behind the last.
pub(crate) fn stand(k: &[u16], from: usize, words: &[u16]) -> bool {
    (0..words.len()).all(|i| word(k, from.saturating_add(i)) == words[i])
}
