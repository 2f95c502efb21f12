// The words of all lines of a text, and where each conjunction ends.
#![tactic(auto)]

mod conjunction;
mod literal;

ghost use Rattle.std.specs.Prelude.{◌+◌, ◌≤◌, ◌≡◌, length};
ghost use Rattle.language.specs.Limits.{desk};
ghost use Rattle.text_names.specs.Shelves.{numbering};
ghost use Rattle.text_words.specs.Literals.{Start};
ghost use Rattle.text_words.specs.Bodies.{LineTook, Looped, kept_of, ReadBody, Lined};

use crate::conjunction::conjunction;
use room_words::put_head;
use text_survey::line;

// What was taken of lines that could be read: the place of the next offset, and the number of words so far.
#[derive(Clone, Copy)]
struct Took {
    i: usize,
    n: usize,
}

// The line from `at` on, if it has a token: its words at `k`, and their end at `i`.
fn take(
    text: &[u8],
    names: &[usize],
    room: &mut [u16],
    at: usize,
    i: usize,
    k: usize,
    has: bool,
) -> Option<Took>
    requires { Start desk text.now names.now room.old at k × (i ≤ 6 + length text.now) }
    ensures { LineTook (numbering desk text.now names.now) text.now room.old at i k has result room.new }
{
    if !has {
        return Some(Took { i, n: k });
    }
    let w = conjunction(text, names, room, at, k);
    if !w.ok {
        return None;
    }
    put_head(room, i, w.n as u16);
    Some(Took { i: i + 1, n: w.n })
}

// All lines: their words from `first` on, and where each ends from word 6 on.
fn all_lines(text: &[u8], names: &[usize], room: &mut [u16], first: usize) -> Option<Took>
    requires { Lined desk text.now names.now room.old first }
    ensures { Looped (numbering desk text.now names.now) text.now room.old first result room.new }
{
    let mut at = 0;
    let mut i = 6;
    let mut k = first;
    loop {
        let l = line(text, at);
        let t = take(text, names, room, at, i, k, l.some)?;
        k = t.n;
        i = t.i;
        let to = l.to;
        if text.len() <= to {
            return Some(Took { i, n: k });
        }
        at = to + 1;
    }
}

// Whether the offsets stand before the words, and there was room for all of these.
fn is_kept(i: usize, n: usize, first: usize, most: usize) -> bool
    ensures { result ≡ kept_of i n first most }
{
    if first < i {
        return false;
    }
    n < most
}

// The same, and the place behind the words if all lines could be read; a room that does not hold all of it is cleared.
pub fn write_lines(text: &[u8], names: &[usize], room: &mut [u16], first: usize) -> Option<usize>
    requires { Lined desk text.now names.now room.old first }
    ensures { ReadBody (numbering desk text.now names.now) text.now room.old first result room.new }
{
    let Some(t) = all_lines(text, names, room, first) else {
        room.fill(0);
        return None;
    };
    if is_kept(t.i, t.n, first, room.len()) {
        return Some(t.n);
    }
    room.fill(0);
    Some(t.n)
}
