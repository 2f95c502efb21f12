// A side of a literal: whether it is one, where it ends, and its words, put into a room as far as there is room.
#![tactic(auto)]

ghost use Rattle.std.specs.Prelude.{◌+◌, ◌≤◌, ◌<◌, ◌≡◌, length};
ghost use Rattle.language.specs.Limits.{desk};
ghost use Rattle.flat.specs.declared.State.TheVariants.{Opened};
ghost use Rattle.flat.specs.Flat.{in_brackets, flat_side};
ghost use Rattle.room_words.specs.Rooms.{Put};
ghost use Rattle.text_names.specs.Shelves.{name_at, numbering, Shelves};
ghost use Rattle.walking.specs.Walking.{role_of, stage_of, allows, state_after, owes, writes, depth_after, last_of, token_words, Walked, behind_functor, Closed, brackets_on, behind_on, side_on};

use lexing::{Mark, next};
use room_words::put_if;
use text_names::own_word;

// Whether it could be read, the place after it, and the number of words so far.
// kept: `Walked` says of a side that could not be read, too, at which place and after how many words it broke off (`low`, `high`, `same`, `fits`, `tells`).
#[derive(Clone, Copy)]
pub struct Way {
    pub ok: bool,
    pub at: usize,
    pub n: usize,
}

// kept as numbers, roles and stages: the tests below ask for ranges of them (`role < 3`, `2 <= stage`), where an enum would list each kind again.
fn role(mark: Mark) -> u8
    ensures { result ≡ role_of mark }
{
    match mark {
        Mark::End => 0,
        Mark::Bad => 0,
        Mark::Symbol => 2,
        Mark::One => 1,
        Mark::Run => 1,
        Mark::Function => 2,
        Mark::Equals => 0,
        Mark::Comma => 3,
        Mark::Opens => 4,
        Mark::Closes => 5,
        Mark::Plus => 0,
        Mark::Times => 0,
    }
}

fn stage_after(mark: Mark) -> u8
    ensures { result ≡ stage_of (state_after mark) }
{
    match mark {
        Mark::End => 3,
        Mark::Bad => 3,
        Mark::Symbol => 2,
        Mark::One => 3,
        Mark::Run => 3,
        Mark::Function => 2,
        Mark::Equals => 3,
        Mark::Comma => 1,
        Mark::Opens => 0,
        Mark::Closes => 3,
        Mark::Plus => 3,
        Mark::Times => 3,
    }
}

// Whether a token of this role can stand there.
fn is_allowed(role: u8, stage: u8) -> bool
    ensures { result ≡ allows role stage }
{
    if role == 0 {
        return false;
    }
    if role < 3 {
        return stage < 2;
    }
    if role == 3 {
        return 2 <= stage;
    }
    if role == 4 {
        return stage == 2;
    }
    stage != 1
}

fn is_owed(role: u8, stage: u8) -> bool
    ensures { result ≡ owes role stage }
{
    if stage == 2 {
        return role != 4;
    }
    false
}

fn has_word(role: u8) -> bool
    ensures { result ≡ writes role }
{
    if role < 3 {
        return true;
    }
    role == 5
}

// What a token writes, where it can stand.
fn put_token(
    text: &[u8],
    names: &[usize],
    room: &mut [u16],
    n: usize,
    stage: u8,
    mark: Mark,
    at: usize,
) -> usize
    requires { (n ≤ length room.old) × Shelves desk names.now }
    ensures { Put room.old n (token_words (numbering desk text.now names.now) stage mark (name_at text.now at)) result room.new }
{
    let role = role(mark);
    let k = put_if(room, n, is_owed(role, stage), 0);
    let w = own_word(text, names, mark, at);
    put_if(room, k, has_word(role), w)
}

// Brackets open behind a token of this role; there are fewer than `most`.
fn depth_after(role: u8, d: usize, most: usize) -> usize
    requires { (d < most) × (role ≡ 5 → 0 < d) }
    ensures { result ≡ depth_after role d }
{
    if role == 4 {
        return d + 1;
    }
    if role == 5 {
        return d - 1;
    }
    d
}

// Whether the bracket that closes is the first that opened.
fn is_last(role: u8, d: usize) -> bool
    ensures { result ≡ last_of role d }
{
    if role == 5 {
        return d == 0;
    }
    false
}

// Behind a bracket that opened, up to the one that closes it: elements with commas between them, or none.
fn brackets(text: &[u8], names: &[usize], room: &mut [u16], at: usize, n: usize) -> Way
    requires { (at ≤ length text.now) × (n ≤ length room.old) × Shelves desk names.now }
    ensures { Walked text.now (in_brackets (numbering desk text.now names.now) Opened 0) (brackets_on (numbering desk text.now names.now) text.now at n room.old) room.old at n result room.new }
{
    let mut stage = 0;
    let mut d = 0;
    let mut i = at;
    let mut k = n;
    loop {
        let p = next(text, i);
        let mark = p.mark;
        let role = role(mark);
        if !is_allowed(role, stage) {
            return Way {
                ok: false,
                at: i,
                n: k,
            };
        }
        k = put_token(text, names, room, k, stage, mark, p.from);
        i = p.to;
        if is_last(role, d) {
            return Way {
                ok: true,
                at: i,
                n: k,
            };
        }
        d = depth_after(role, d, text.len());
        stage = stage_after(mark);
    }
}

// What was read in brackets, with the end of the side behind it.
fn closed(room: &mut [u16], w: Way) -> Way
    requires { w.n ≤ length room.old }
    ensures { Closed room.old w result room.new }
{
    if !w.ok {
        return w;
    }
    Way {
        ok: true,
        at: w.at,
        n: put_if(room, w.n, true, 0),
    }
}

// Behind a functor that is a side by itself.
fn behind_functor(text: &[u8], names: &[usize], room: &mut [u16], at: usize, n: usize) -> Way
    requires { (at ≤ length text.now) × (n ≤ length room.old) × Shelves desk names.now }
    ensures { Walked text.now (behind_functor (numbering desk text.now names.now)) (behind_on (numbering desk text.now names.now) text.now at n room.old) room.old at n result room.new }
{
    let p = next(text, at);
    let mark = p.mark;
    if role(mark) == 4 {
        let w = brackets(text, names, room, p.to, n);
        return closed(room, w);
    }
    let k = put_if(room, n, true, 0);
    Way {
        ok: true,
        at: at,
        n: put_if(room, k, true, 0),
    }
}

// A side of a literal: one element, or brackets.
pub fn side(text: &[u8], names: &[usize], room: &mut [u16], at: usize, n: usize) -> Way
    requires { (at ≤ length text.now) × (n ≤ length room.old) × Shelves desk names.now }
    ensures { Walked text.now (flat_side (numbering desk text.now names.now)) (side_on (numbering desk text.now names.now) text.now at n room.old) room.old at n result room.new }
{
    let p = next(text, at);
    let mark = p.mark;
    let role = role(mark);
    if role == 4 {
        return brackets(text, names, room, p.to, n);
    }
    if !is_allowed(role, 1) {
        return Way {
            ok: false,
            at: at,
            n: n,
        };
    }
    let w = own_word(text, names, mark, p.from);
    let k = put_if(room, n, true, w);
    if role == 1 {
        return Way {
            ok: true,
            at: p.to,
            n: put_if(room, k, true, 0),
        };
    }
    behind_functor(text, names, room, p.to, k)
}
