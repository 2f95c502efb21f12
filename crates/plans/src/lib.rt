// How the results of a rule are described: by parts of a conjunction's words, copied or with words replaced.
#![tactic(auto)]

ghost use Rattle.std.specs.Prelude.{◌-◌, ◌≤◌, ◌≡◌, length};
ghost use Rattle.language.specs.Limits.{desk};
ghost use Rattle.plans.specs.Sizes.{grown, grown_by};
ghost use Rattle.plans.specs.Slots.{forth_in, inner_of};

use frames::FRAME;
use language::limits::ROOM;

// A piece of a result: one word; a part as it is; a part under the substitution; a part up to the cut as it is;
// a part from the cut on under the substitution; for each word p of a part the equation p = ε; so many elements from a place on in the order of the
// result's number; a part with the symbol of that number for the word at `old`.
#[derive(Clone, Copy)]
pub enum Piece {
    Word(u16),
    Copy(usize, usize),
    Put(usize, usize),
    ToCut(usize),
    PutFromCut(usize),
    Each(usize, usize),
    Ordered(usize, usize),
    Named(usize, usize),
}

#[derive(Clone, Copy)]
pub struct Slot {
    pub piece: Piece,
}

// The pieces of a result in order. The substitution replaces each word of the part old..until by the part from `new` to the cut.
#[derive(Clone, Copy)]
pub struct Recipe {
    pub slots: [Slot; 12],
    pub old: usize,
    pub until: usize,
    pub new: usize,
}

// The results: none; one, at a cut; two; one for each of so many cuts, element by element; one for each order of so many elements; one for each of so
// many symbols. Of the last two kinds each has its number.
#[derive(Clone, Copy)]
pub enum Ways {
    Drop,
    One(usize),
    Two,
    Cuts(usize, usize),
    Orders(usize),
    Names(u16),
}

#[derive(Clone, Copy)]
pub struct Plan {
    pub ways: Ways,
    pub first: Recipe,
    pub second: Recipe,
}

// A part of the words.
#[derive(Clone, Copy)]
pub struct Within {
    pub from: usize,
    pub to: usize,
}

// The next place, within the words: past them a place need not have one.
fn forth(k: &[u16], i: usize) -> usize
    ensures { result ≡ forth_in (length k.now) i }
{
    if i < k.len() { i + 1 } else { i }
}

// A part without its first and its last word.
pub fn inner(k: &[u16], from: usize, to: usize) -> Within
    ensures { result ≡ inner_of k.now from to }
{
    let start = forth(k, from);
    let end = to.saturating_sub(1);
    Within {
        from: start,
        to: end,
    }
}

// A result more, counted until a lent slice is passed.
pub fn grow(n: usize, one: usize) -> usize
    requires { one ≤ desk.question }
    ensures { result ≡ grown n one }
{
    if n <= ROOM { n + FRAME + one } else { n }
}

// So many results of one length.
pub fn grow_by(times: usize, one: usize) -> usize
    requires { one ≤ desk.question }
    ensures { result ≡ grown_by times 0 one }
{
    let mut n = 0;
    for _made in 0..times {
        if ROOM < n {
            return n;
        }
        n = grow(n, one);
    }
    n
}
