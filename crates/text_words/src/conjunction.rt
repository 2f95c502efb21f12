// The lines of a text: whether each is a conjunction, and their words, put into a room as far as there is room.
ghost use Rattle.std.specs.Prelude.{◌≤◌, ◌≡◌, length};
ghost use Rattle.language.specs.Limits.{desk};
ghost use Rattle.text_names.specs.Shelves.{numbering};
ghost use Rattle.text_words.specs.Literals.{Start};
ghost use Rattle.text_words.specs.Conjunctions.{turn_of, Nothing, ReadLiterals, ReadLine};

use crate::literal::literal;
use lexing::{Mark, next};
use walking::Way;

// The end of a line, a bracket that opens, one that closes; anything else.
fn turn(mark: Mark) -> u8
    ensures { result ≡ turn_of mark }
{
    match mark {
        Mark::End => 1,
        Mark::Bad => 0,
        Mark::Symbol => 0,
        Mark::One => 0,
        Mark::Run => 0,
        Mark::Function => 0,
        Mark::Equals => 0,
        Mark::Comma => 0,
        Mark::Opens => 2,
        Mark::Closes => 3,
        Mark::Plus => 0,
        Mark::Times => 0,
    }
}

// Whether two brackets stand there and nothing else, and where their line ends.
fn nothing(text: &[u8], at: usize) -> Way
    requires { at ≤ length text.now }
    ensures { Nothing text.now at result }
{
    let first = next(text, at);
    let opens = first.mark;
    if turn(opens) != 2 {
        return Way {
            ok: false,
            at: at,
            n: 0,
        };
    }
    let second = next(text, first.to);
    let closes = second.mark;
    if turn(closes) != 3 {
        return Way {
            ok: false,
            at: at,
            n: 0,
        };
    }
    let third = next(text, second.to);
    let end = third.mark;
    if turn(end) != 1 {
        return Way {
            ok: false,
            at: at,
            n: 0,
        };
    }
    Way {
        ok: true,
        at: third.to,
        n: 0,
    }
}

// Literals with commas between them, up to the end of the line.
fn literals(text: &[u8], names: &[usize], room: &mut [u16], at: usize, n: usize) -> Way
    requires { Start desk text.now names.now room.old at n }
    ensures { ReadLiterals (numbering desk text.now names.now) text.now room.old at n result room.new }
{
    let mut i = at;
    let mut k = n;
    loop {
        let w = literal(text, names, room, i, k);
        if !w.ok {
            return Way {
                ok: false,
                at: i,
                n: k,
            };
        }
        let p = next(text, w.at);
        let mark = p.mark;
        if turn(mark) == 1 {
            return Way {
                ok: true,
                at: p.to,
                n: w.n,
            };
        }
        i = p.to;
        k = w.n;
    }
}

// A line that has a token: it asks nothing, or literals.
pub fn conjunction(text: &[u8], names: &[usize], room: &mut [u16], at: usize, n: usize) -> Way
    requires { Start desk text.now names.now room.old at n }
    ensures { ReadLine (numbering desk text.now names.now) text.now room.old at n result room.new }
{
    let w = nothing(text, at);
    if w.ok {
        return Way {
            ok: true,
            at: w.at,
            n: n,
        };
    }
    literals(text, names, room, at, n)
}
