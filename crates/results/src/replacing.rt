// Words replaced in a part: a recipe's substitution.
ghost use Rattle.std.specs.Prelude.{◌+◌, ◌≤◌, ◌≡◌, length};
ghost use Rattle.std.proofs.Math.Seq.{slice};
ghost use Rattle.language.specs.Limits.{desk};
ghost use Rattle.language.specs.Kinds.{pick};
ghost use Rattle.plans.specs.Results.{changed};
ghost use Rattle.words.specs.Spans.{member};
ghost use Rattle.slices.specs.Written.{Wrote};
ghost use Rattle.results.specs.Marked.{marked, Marked, swapped, bare};

use language::limits::PLACES;
use language::{Kind, classify, wide};
use slices::{copy, part_len, within};
use words::stands;

// Which hedge variables a part has, by their numbers, where it has no other words.
pub type Marks = Option<[bool; PLACES]>;

// A recipe's substitution by itself, so that its pieces are not handed on with it: each word of the part old..until is replaced by the part from `new` to the cut.
#[derive(Clone, Copy)]
pub struct Swap {
    pub old: usize,
    pub until: usize,
    pub new: usize,
}

// The hedge variables of a part, marked.
pub fn note(k: &[u16], from: usize, to: usize) -> Marks
    ensures { Marked (slice from to k.now) result }
{
    let mut set = [false; PLACES];
    let end = within(k, to);
    for i in from..end {
        match classify(k[i]) {
            Kind::Run(p) => {
                let n = wide(p.0);
                set[n] = true;
            }
            _ => {
                return None;
            }
        }
    }
    Some(set)
}

fn is_marked(set: [bool; PLACES], x: u16) -> bool
    ensures { result ≡ marked set x }
{
    match classify(x) {
        Kind::Run(p) => {
            let n = wide(p.0);
            set[n]
        }
        _ => false,
    }
}

// Whether a word is one of those replaced: one look, where they are hedge variables; else they are few, and looked through.
fn is_old(k: &[u16], old: usize, until: usize, m: Marks, x: u16) -> bool
    requires { Marked (slice old until k.now) m }
    ensures { result ≡ member x (slice old until k.now) }
{
    match m {
        Some(set) => is_marked(set, x),
        None => stands(k, old, until, wide(x)),
    }
}

// What stands for one word.
fn put_word(
    k: &[u16],
    old: usize,
    until: usize,
    new: usize,
    cut: usize,
    m: Marks,
    x: u16,
    out: &mut [u16],
    at: usize,
) -> usize
    requires { Marked (slice old until k.now) m × (at + length (swapped (slice old until k.now) (slice new cut k.now) x) ≤ length out.old) }
    ensures { Wrote out.old at (swapped (slice old until k.now) (slice new cut k.now) x) out.new result }
{
    if is_old(k, old, until, m, x) {
        return copy(k, new, cut, out, at);
    }
    out[at] = x;
    at + 1
}

// A part under the substitution.
pub fn put(
    k: &[u16],
    s: Swap,
    cut: usize,
    m: Marks,
    from: usize,
    to: usize,
    out: &mut [u16],
    at: usize,
) -> usize
    requires { Marked (slice s.old s.until k.now) m × (at + length (changed k.now (bare s) cut (slice from to k.now)) ≤ length out.old) }
    ensures { Wrote out.old at (changed k.now (bare s) cut (slice from to k.now)) out.new result }
{
    let old = s.old;
    let until = s.until;
    let new = s.new;
    let end = within(k, to);
    let mut e = at;
    for i in from..end {
        e = put_word(k, old, until, new, cut, m, k[i], out, e);
    }
    e
}

// How many words stand for one.
fn swap_len(old: bool, gain: usize) -> usize
    ensures { result ≡ pick old gain 1 }
{
    if old { gain } else { 1 }
}

// How long a part is under the substitution.
pub fn put_len(k: &[u16], s: Swap, cut: usize, m: Marks, from: usize, to: usize) -> usize
    requires { Marked (slice s.old s.until k.now) m × (length k.now ≤ desk.question) }
    ensures { result ≡ length (changed k.now (bare s) cut (slice from to k.now)) }
{
    let old = s.old;
    let until = s.until;
    let new = s.new;
    let gain = part_len(k, new, cut);
    let end = within(k, to);
    let mut n: usize = 0;
    for i in from..end {
        let found = is_old(k, old, until, m, k[i]);
        n += swap_len(found, gain);
    }
    n
}
