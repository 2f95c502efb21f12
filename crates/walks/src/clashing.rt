// The two tests of a clash: the later one is found by asking of each, whether it clashes with the first.
use crate::places::{part, past};
use crate::rooms::{BODY, carry, head};
use language::limits::{QUESTION, ROOM};
use named_steps::step_named;
use rules::places::AT_CLASH;
use words::word;

// Whether the first so many words of a question's room are a question whose first literal clashes.
fn clashes(two: &[u16], n: usize) -> bool {
    if two.len() < n {
        return false;
    }
    let mut work = [0u16; ROOM];
    step_named(&two[0..n], 0, AT_CLASH as u16, 0, 0, &mut work).is_ok()
}

// The words of the literal at a place.
fn literal(k: &[u16], at: usize) -> &[u16] {
    part(k, at, past(k, at).saturating_sub(at))
}

// Whether two literals clash by themselves.
fn pair_clashes(question: &[u16], k: &[u16], first: usize, second: usize) -> bool {
    let mut two = [0u16; QUESTION];
    let one = literal(k, first);
    let other = literal(k, second);
    let middle = BODY.saturating_add(one.len());
    let end = middle.saturating_add(other.len());
    head(question, end - BODY, &mut two);
    carry(one, 0, one.len(), &mut two, BODY);
    carry(other, 0, other.len(), &mut two, middle);
    clashes(&two, end)
}

// Whether a test of the same variable alone stands there.
fn same_variable(k: &[u16], first: usize, second: usize) -> bool {
    word(k, second) == 6000
        && word(k, second.saturating_add(2)) == 0
        && word(k, first.saturating_add(1)) == word(k, second.saturating_add(1))
}

// The first later test that clashes with the one at a place.
pub(crate) fn partner(question: &[u16], k: &[u16], first: usize) -> Option<usize> {
    let mut at = past(k, first);
    for _ in 0..k.len() {
        if k.len() <= at {
            return None;
        }
        if same_variable(k, first, at) && pair_clashes(question, k, first, at) {
            return Some(at);
        }
        at = past(k, at);
    }
    None
}
