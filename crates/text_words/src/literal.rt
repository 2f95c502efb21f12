// A literal of a text: whether it is one, where it ends, and its words, put into a room as far as there is room.
ghost use Rattle.std.specs.Prelude.{◌+◌, ◌<◌, ◌≡◌};
ghost use Rattle.language.specs.Limits.{desk};
ghost use Rattle.text_names.specs.Shelves.{numbering};
ghost use Rattle.text_words.specs.Literals.{over_of, equals_of, in_name, in_of, ReadSide, ReadExpression, ReadLiteral, Start};

use expression_words::write_expression;
use lexing::{Mark, next, sort};
use room_words::{put_head, put_if};
use shapes::shape;
use text_names::letter_at;
use walking::{Way, side};

// Whether a literal ends before such a token.
fn is_over(mark: Mark) -> bool
    ensures { result ≡ over_of mark }
{
    match mark {
        Mark::End => true,
        Mark::Bad => false,
        Mark::Symbol => false,
        Mark::One => false,
        Mark::Run => false,
        Mark::Function => false,
        Mark::Equals => false,
        Mark::Comma => true,
        Mark::Opens => false,
        Mark::Closes => false,
        Mark::Plus => false,
        Mark::Times => false,
    }
}

fn is_equals(mark: Mark) -> bool
    ensures { result ≡ equals_of mark }
{
    match mark {
        Mark::End => false,
        Mark::Bad => false,
        Mark::Symbol => false,
        Mark::One => false,
        Mark::Run => false,
        Mark::Function => false,
        Mark::Equals => true,
        Mark::Comma => false,
        Mark::Opens => false,
        Mark::Closes => false,
        Mark::Plus => false,
        Mark::Times => false,
    }
}

// Whether the name at a place is `in`.
fn is_in_name(text: &[u8], at: usize) -> bool
    ensures { result ≡ in_name text.now at }
{
    if letter_at(text, at) != b'i' {
        return false;
    }
    if letter_at(text, at + 1) != b'n' {
        return false;
    }
    letter_at(text, at + 2) == 0
}

// Whether a token is the word `in`.
fn is_in(text: &[u8], mark: Mark, at: usize) -> bool
    ensures { result ≡ in_of text.now mark at }
{
    if sort(mark) != 1 {
        return false;
    }
    is_in_name(text, at)
}

// The right side of an equation.
fn right_side(text: &[u8], names: &[usize], room: &mut [u16], at: usize, n: usize) -> Way
    requires { Start desk text.now names.now room.old at n }
    ensures { ReadSide (numbering desk text.now names.now) text.now room.old at n result room.new }
{
    let r = side(text, names, room, at, n);
    if !r.ok {
        return r;
    }
    let p = next(text, r.at);
    let mark = p.mark;
    Way {
        ok: is_over(mark),
        at: r.at,
        n: r.n,
    }
}

// The expression of a membership.
fn expression(text: &[u8], names: &[usize], room: &mut [u16], at: usize, n: usize) -> Way
    requires { Start desk text.now names.now room.old at n }
    ensures { ReadExpression (numbering desk text.now names.now) text.now room.old at n result room.new }
{
    let s = shape(text, at);
    if !s.ok {
        return Way {
            ok: false,
            at: at,
            n: n,
        };
    }
    let to = s.at;
    let p = next(text, to);
    let mark = p.mark;
    if !is_over(mark) {
        return Way {
            ok: false,
            at: at,
            n: n,
        };
    }
    let many = s.n;
    if room.len() - n < many {
        return Way {
            ok: true,
            at: to,
            n: room.len(),
        };
    }
    let end = n + many;
    write_expression(text, names, at, to, &mut room[n..end]);
    Way {
        ok: true,
        at: to,
        n: end,
    }
}

// A literal: a side, and = with another or `in` with an expression, up to a comma or the end of the line.
pub fn literal(text: &[u8], names: &[usize], room: &mut [u16], at: usize, n: usize) -> Way
    requires { Start desk text.now names.now room.old at n }
    ensures { ReadLiteral (numbering desk text.now names.now) text.now room.old at n result room.new }
{
    let k = put_if(room, n, true, 0);
    let l = side(text, names, room, at, k);
    if !l.ok {
        return Way {
            ok: false,
            at: at,
            n: n,
        };
    }
    let p = next(text, l.at);
    let mark = p.mark;
    if is_equals(mark) {
        let r = right_side(text, names, room, p.to, l.n);
        put_head(room, n, 5000);
        return r;
    }
    if !is_in(text, mark, p.from) {
        return Way {
            ok: false,
            at: at,
            n: n,
        };
    }
    let r = expression(text, names, room, p.to, l.n);
    put_head(room, n, 6000);
    r
}
