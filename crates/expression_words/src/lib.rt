// The words of an expression, from its last byte to its first: each is put right before those that are there already.
#![tactic(auto)]

ghost use Rattle.std.specs.Prelude.{◌+◌, ◌-◌, ◌*◌, ◌≤◌, ◌<◌, ◌≡◌, not, ◌∷◌, length, drop};
ghost use Rattle.lexing.specs.declared.Mark.TheVariants.{Opens};
ghost use Rattle.language.specs.Limits.{desk};
ghost use Rattle.language.specs.Kinds.{pick};
ghost use Rattle.grammar.specs.Tokens.{comma, plus};
ghost use Rattle.text_names.specs.Shelves.{numbering, Shelves};
ghost use Rattle.flat.specs.Filling.{stars_on, operand_on};
ghost use Rattle.backwards.specs.Backward.{one-if};
ghost use Rattle.expression_words.specs.Seen.{code_of, Laid, operand_in, item_in, owing, Turned, inside_in, inside_owed, starred_of, free_of, Released, Enclosed, Marked, Space, Named, NameSpace, NameTaken, Expression, whole};

use language::limits::QUESTION;
use language::wide;
use lexing::{Mark, is_name_byte, mark_of};
use text_names::own_word;

// Where the first word stands, and what is owed before it: stars, an operand's word, an item's; whether a bracket that opens stands behind,
// or one that closes; how many brackets are open, and before how many of them something is owed.
#[derive(Clone, Copy)]
struct Fill {
    at: usize,
    stars: usize,
    operand: bool,
    item: bool,
    functor: bool,
    bare: bool,
    depth: usize,
    frames: usize,
}

// A word, if it is to be.
fn put_if(room: &mut [u16], at: usize, yes: bool, w: u16) -> usize
    requires { (one-if yes ≤ at) × (at ≤ length room.old) }
    ensures { Laid room.old (pick yes (w ∷ drop at room.old) (drop at room.old)) result room.new }
{
    if !yes {
        return at;
    }
    let to = at - 1;
    room[to] = w;
    to
}

// So many stars.
fn put_stars(room: &mut [u16], at: usize, stars: usize) -> usize
    requires { (stars ≤ at) × (at ≤ length room.old) }
    ensures { Laid room.old (stars_on stars (drop at room.old)) result room.new }
{
    let mut to = at;
    let mut left = stars;
    while 0 < left {
        left -= 1;
        to -= 1;
        room[to] = 7003;
    }
    to
}

// What ends an operand.
fn put_operand(room: &mut [u16], s: Fill) -> usize
    requires { (s.stars + one-if s.operand ≤ s.at) × (s.at ≤ length room.old) }
    ensures { Laid room.old (operand_in s room.old) result room.new }
{
    let at = put_stars(room, s.at, s.stars);
    put_if(room, at, s.operand, 7002)
}

// What ends an item.
fn put_item(room: &mut [u16], s: Fill) -> usize
    requires { (owing s ≤ s.at) × (s.at ≤ length room.old) }
    ensures { Laid room.old (item_in s room.old) result room.new }
{
    let at = put_operand(room, s);
    put_if(room, at, s.item, 7001)
}

// A comma: an item ends before it, and one is owed.
fn on_comma(room: &mut [u16], s: Fill) -> Fill
    requires { (owing s ≤ s.at) × (s.at ≤ length room.old) }
    ensures { Turned comma s room.old result room.new }
{
    let at = put_item(room, s);
    Fill {
        at: at,
        stars: 0,
        operand: false,
        item: true,
        functor: false,
        bare: false,
        depth: s.depth,
        frames: s.frames,
    }
}

// A plus: an operand ends before it, and one is owed.
fn on_plus(room: &mut [u16], s: Fill) -> Fill
    requires { (s.stars + one-if s.operand ≤ s.at) × (s.at ≤ length room.old) }
    ensures { Turned plus s room.old result room.new }
{
    let at = put_operand(room, s);
    Fill {
        at: at,
        stars: 0,
        operand: true,
        item: s.item,
        functor: false,
        bare: false,
        depth: s.depth,
        frames: s.frames,
    }
}

// A star: one more is owed.
fn on_times(s: Fill) -> Fill
    requires { s.stars ≤ desk.question + 1 }
    ensures { result ≡ starred_of s }
{
    Fill {
        at: s.at,
        stars: s.stars + 1,
        operand: s.operand,
        item: s.item,
        functor: false,
        bare: false,
        depth: s.depth,
        frames: s.frames,
    }
}

fn flag(b: bool) -> u16
    ensures { (result ≡ one-if b) × (result ≤ 1) }
{
    if b { 1 } else { 0 }
}

// What is owed, as one number.
fn code(stars: usize, operand: bool, item: bool) -> u16
    requires { stars ≤ desk.question + 1 }
    ensures { result ≡ code_of stars operand item }
{
    let o = flag(operand);
    let i = flag(item);
    4 * stars as u16 + (2 * o + i)
}

// A bracket that closes: what is owed is kept aside. There are fewer than `most` brackets open.
fn on_closes(s: Fill, depths: &mut [usize], owed: &mut [u16], most: usize) -> Fill
    requires { (s.stars ≤ desk.question + 1) × (s.depth < most) × ((code_of s.stars s.operand s.item ≡ 0 → ⊥) → (s.frames < length depths.old) × (s.frames < length owed.old)) }
    ensures { Enclosed s depths.old owed.old result depths.new owed.new }
{
    let c = code(s.stars, s.operand, s.item);
    let k = s.frames;
    let deeper = s.depth + 1;
    if c == 0 {
        return Fill {
            at: s.at,
            stars: 0,
            operand: false,
            item: false,
            functor: false,
            bare: true,
            depth: deeper,
            frames: k,
        };
    }
    depths[k] = s.depth;
    owed[k] = c;
    Fill {
        at: s.at,
        stars: 0,
        operand: false,
        item: false,
        functor: false,
        bare: true,
        depth: deeper,
        frames: k + 1,
    }
}

// What stands in brackets that open here.
fn put_inside(room: &mut [u16], s: Fill) -> usize
    requires { (inside_owed s ≤ s.at) × (s.at ≤ length room.old) }
    ensures { Laid room.old (inside_in s room.old) result room.new }
{
    if s.bare {
        return put_if(room, s.at, true, 7000);
    }
    put_item(room, s)
}

// One bracket less is open.
fn outer(depth: usize) -> usize
    ensures { result ≡ depth - 1 }
{
    if depth == 0 {
        return 0;
    }
    depth - 1
}

// Nothing is owed before a bracket that opens.
fn unowed(at: usize, depth: usize, frames: usize) -> Fill
    ensures { result ≡ free_of at depth frames }
{
    Fill {
        at: at,
        stars: 0,
        operand: false,
        item: false,
        functor: true,
        bare: false,
        depth: depth,
        frames: frames,
    }
}

// Out of brackets, with their words from `at` on.
fn out(s: Fill, at: usize, depths: &[usize], owed: &[u16]) -> Fill
    requires { (s.frames ≤ length depths.now) × (s.frames ≤ length owed.now) }
    ensures { Released s at depths.now owed.now result }
{
    let d = outer(s.depth);
    let k = s.frames;
    if k == 0 {
        return unowed(at, d, 0);
    }
    let top = k - 1;
    if depths[top] != d {
        return unowed(at, d, k);
    }
    let c = wide(owed[top]);
    Fill {
        at: at,
        stars: c / 4,
        operand: c / 2 % 2 == 1,
        item: c % 2 == 1,
        functor: true,
        bare: false,
        depth: d,
        frames: top,
    }
}

// A bracket that opens: what stands in it ends, and what is owed before it is owed again.
fn on_opens(room: &mut [u16], s: Fill, depths: &[usize], owed: &[u16]) -> Fill
    requires { (inside_owed s ≤ s.at) × (s.at ≤ length room.old) × (s.frames ≤ length depths.now) × (s.frames ≤ length owed.now) }
    ensures { Marked Opens s room.old depths.now owed.now result room.new depths.now owed.now }
{
    let at = put_inside(room, s);
    out(s, at, depths, owed)
}

// A character of an expression.
fn on_mark(
    mark: Mark,
    room: &mut [u16],
    s: Fill,
    depths: &mut [usize],
    owed: &mut [u16],
    most: usize,
) -> Fill
    requires { Space desk mark s room.old depths.old owed.old most }
    ensures { Marked mark s room.old depths.old owed.old result room.new depths.new owed.new }
{
    match mark {
        Mark::End => s,
        Mark::Bad => s,
        Mark::Symbol => s,
        Mark::One => s,
        Mark::Run => on_times(s),
        Mark::Function => s,
        Mark::Equals => s,
        Mark::Comma => on_comma(room, s),
        Mark::Opens => on_opens(room, s, depths, owed),
        Mark::Closes => on_closes(s, depths, owed, most),
        Mark::Plus => on_plus(room, s),
        Mark::Times => s,
    }
}

// A symbol: without brackets behind it there is eps under it.
fn on_name(text: &[u8], names: &[usize], room: &mut [u16], s: Fill, at: usize) -> Fill
    requires { (one-if (not s.functor) + 1 ≤ s.at) × (s.at ≤ length room.old) × Shelves desk names.now }
    ensures { Named desk text.now names.now at s room.old result room.new }
{
    let leaf = put_if(room, s.at, !s.functor, 7000);
    let w = own_word(text, names, Mark::Symbol, at);
    let first = put_if(room, leaf, true, w);
    Fill {
        at: first,
        stars: s.stars,
        operand: s.operand,
        item: s.item,
        functor: false,
        bare: false,
        depth: s.depth,
        frames: s.frames,
    }
}

// The name that begins at `at`, if one does before `to`.
fn take_name(text: &[u8], names: &[usize], room: &mut [u16], s: Fill, at: usize, to: usize) -> Fill
    requires { NameSpace desk text.now names.now at to s room.old }
    ensures { NameTaken desk text.now names.now at to s room.old result room.new }
{
    if at == to {
        return s;
    }
    if is_name_byte(text[at]) {
        return on_name(text, names, room, s, at);
    }
    s
}

// The words of the expression from `at` to `to`, as many as the room has; what is owed before brackets is kept in two rows.
fn write_with(
    text: &[u8],
    names: &[usize],
    at: usize,
    to: usize,
    room: &mut [u16],
    depths: &mut [usize],
    owed: &mut [u16],
)
    requires { Shelves desk names.now × Expression (numbering desk text.now names.now) text.now at to room.old × (length room.old ≤ desk.question + 1) × (length room.old ≤ length depths.old) × (length room.old ≤ length owed.old) }
    ensures { (room.new ≡ operand_on (whole (numbering desk text.now names.now) text.now at to)) × (length depths.new ≡ length depths.old) × (length owed.new ≡ length owed.old) }
{
    let mut i = to;
    let mut s = Fill {
        at: room.len(),
        stars: 0,
        operand: false,
        item: false,
        functor: false,
        bare: false,
        depth: 0,
        frames: 0,
    };
    while at < i {
        let behind = i;
        i -= 1;
        let b = text[i];
        if !is_name_byte(b) {
            s = take_name(text, names, room, s, behind, to);
            s = on_mark(mark_of(b), room, s, depths, owed, text.len());
        }
    }
    s = take_name(text, names, room, s, at, to);
    put_operand(room, s);
}

// The same, with rows of its own.
pub fn write_expression(text: &[u8], names: &[usize], at: usize, to: usize, room: &mut [u16])
    requires { Shelves desk names.now × Expression (numbering desk text.now names.now) text.now at to room.old × (length room.old ≤ desk.question + 1) }
    ensures { room.new ≡ operand_on (whole (numbering desk text.now names.now) text.now at to) }
{
    let mut depths = [0usize; QUESTION + 1];
    let mut owed = [0u16; QUESTION + 1];
    write_with(text, names, at, to, room, &mut depths, &mut owed);
}
