// Words put into rooms: the conjunctions that wait, each behind a frame, and the question of one of them alone.
ghost use Rattle.std.specs.Prelude.{◌<◌};

use crate::places::stand;
use answers::LINE_HEAD;
use words::word;

// Room for what waits: at most 16,384 words with frames of two words each, and here a frame has five.
pub(crate) const WAITING: usize = 40960;

// How many words a frame has.
pub(crate) const HEAD: usize = 5;

// A question's offsets stand behind five counts.
const COUNTS: usize = 5;

// The words of a question of one conjunction stand behind its counts and its two offsets.
pub(crate) const BODY: usize = 7;

// And they are these.
pub(crate) fn body(one: &[u16]) -> &[u16] {
    one.get(BODY..).unwrap_or(&[])
}

// What stands before a waiting conjunction: how many words it has, its alternative, how deep it is, which case of which step it is. Step 0 is none: it is
// an alternative; case 0 is the only result.
#[derive(Clone, Copy)]
pub(crate) struct Frame {
    pub words: u16,
    pub number: u16,
    pub depth: u16,
    pub case: u16,
    pub step: u16,
}

pub(crate) fn narrow(n: usize) -> u16 {
    u16::try_from(n).unwrap_or(0)
}

// A word as a place or a count.
pub(crate) fn place(k: &[u16], i: usize) -> usize
    ensures { result < 65536 }
{
    usize::from(word(k, i))
}

// So many words from one place to another, as far as there is room; behind the last that there is they are 0.
pub(crate) fn carry(k: &[u16], from: usize, n: usize, out: &mut [u16], to: usize) {
    for i in 0..n {
        if let Some(room) = out.get_mut(to.saturating_add(i)) {
            *room = word(k, from.saturating_add(i));
        }
    }
}

// The words from a place on, as many as the frame says, behind it.
pub(crate) fn wait(k: &[u16], from: usize, f: Frame, out: &mut [u16], at: usize) {
    let head = [f.words, f.number, f.depth, f.case, f.step];
    carry(&head, 0, HEAD, out, at);
    carry(k, from, usize::from(f.words), out, at.saturating_add(HEAD));
}

pub(crate) fn read_frame(k: &[u16], at: usize) -> Frame {
    Frame {
        words: word(k, at),
        number: word(k, at.saturating_add(1)),
        depth: word(k, at.saturating_add(2)),
        case: word(k, at.saturating_add(3)),
        step: word(k, at.saturating_add(4)),
    }
}

// An alternative of the question, right before a place: where it begins.
fn lay_one(question: &[u16], i: u16, out: &mut [u16], next: usize) -> usize {
    let offset = COUNTS + usize::from(i);
    let from = place(question, offset);
    let words = place(question, offset + 1).saturating_sub(from);
    let f = Frame {
        words: narrow(words),
        number: i,
        depth: 1,
        case: 0,
        step: 0,
    };
    let at = next.saturating_sub(HEAD + words);
    wait(question, from, f, out, at);
    at
}

// The alternatives of a question, the first at the low end: where they begin.
pub(crate) fn lay_out(question: &[u16], out: &mut [u16]) -> usize {
    let mut at = WAITING;
    for i in (0..word(question, 4)).rev() {
        at = lay_one(question, i, out, at);
    }
    at
}

// Whether some words are those of a line of the answer.
pub(crate) fn is_line(answer: &[u16], line: usize, k: &[u16]) -> bool {
    if place(answer, 0) <= line {
        return false;
    }
    let start = place(answer, line.saturating_add(2)) + LINE_HEAD;
    let end = place(answer, line.saturating_add(3));
    end.saturating_sub(start) == k.len() && stand(answer, start, k)
}

// Whether that line is settled.
pub(crate) fn is_settled(answer: &[u16], line: usize) -> bool {
    word(answer, place(answer, line.saturating_add(2))) == 1
}

// The header of a question of one conjunction of so many words, which declares what another one does.
pub(crate) fn head(question: &[u16], n: usize, out: &mut [u16]) {
    carry(question, 0, 4, out, 0);
    carry(&[1, 7, narrow(BODY.saturating_add(n))], 0, 3, out, 4);
}
