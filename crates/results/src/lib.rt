// A plan's results in words: how long they are together, and, where nothing stands against it, written in a row, each in its frame.
#![tactic(auto)]

mod emptying;
mod making;
mod replacing;

ghost use Rattle.std.specs.Prelude.{◌≤◌, ◌≡◌, [], ◌∷◌, map, length};
ghost use Rattle.language.specs.Limits.{desk};
ghost use Rattle.meaning.specs.Values.{numbers};
ghost use Rattle.plans.specs.Results.{made, numbered, results_of};
ghost use Rattle.words.specs.Spans.{places};
ghost use Rattle.frames.specs.Frames.{in_frames};
ghost use Rattle.plans.specs.Sizes.{sized_from, sized, Ready};
ghost use Rattle.slices.specs.Written.{Wrote};
ghost use Rattle.taking.specs.Taking.{Took};

use language::limits::QUESTION;
use language::{Refusal, wide};
use making::{made_len, write_framed};
use orders::count_orders;
use plans::{Plan, Recipe, Ways, grow, grow_by};
use spans::element_end;

// n words and those of one result. As of all sizes here, there is none where a result is too long.
fn size_one(k: &[u16], r: Recipe, cut: usize, n: usize) -> Option<usize>
    requires { length k.now ≤ desk.question }
    ensures { result ≡ sized_from n (made k.now r cut ∷ []) }
{
    let one = made_len(k, r, cut);
    if QUESTION < one {
        return None;
    }
    Some(grow(n, one))
}

fn size_two(k: &[u16], a: Recipe, b: Recipe) -> Option<usize>
    requires { length k.now ≤ desk.question }
    ensures { result ≡ sized (made k.now a 0 ∷ made k.now b 0 ∷ []) }
{
    let n = size_one(k, a, 0, 0)?;
    size_one(k, b, 0, n)
}

// One result for each cut, element by element.
fn size_cuts(k: &[u16], r: Recipe, cut: usize, times: usize) -> Option<usize>
    requires { length k.now ≤ desk.question }
    ensures { result ≡ sized (map (made k.now r) (places times k.now cut)) }
{
    let mut at = cut;
    let mut n: usize = 0;
    for _done in 0..times {
        let one = made_len(k, r, at);
        if QUESTION < one {
            return None;
        }
        n = grow(n, one);
        at = element_end(k, at);
    }
    Some(n)
}

// So many results that differ in their number alone: they are equally long.
fn size_alike(k: &[u16], r: Recipe, times: usize) -> Option<usize>
    requires { length k.now ≤ desk.question }
    ensures { result ≡ sized (map (numbered k.now r 0) (numbers 0 times)) }
{
    if times == 0 {
        return Some(0);
    }
    let one = made_len(k, r, 0);
    if QUESTION < one {
        return None;
    }
    Some(grow_by(times, one))
}

// How many words a plan's results take, each in its frame (counted until they pass a lent slice); none where one of them is too long.
fn size_results(k: &[u16], plan: Plan) -> Option<usize>
    requires { length k.now ≤ desk.question }
    ensures { result ≡ sized (results_of k.now plan) }
{
    let ways = plan.ways;
    let first = plan.first;
    let second = plan.second;
    match ways {
        Ways::Drop => Some(0),
        Ways::One(cut) => size_one(k, first, cut, 0),
        Ways::Two => size_two(k, first, second),
        Ways::Cuts(cut, n) => size_cuts(k, first, cut, n),
        Ways::Orders(n) => size_alike(k, first, count_orders(n)),
        Ways::Names(n) => size_alike(k, first, wide(n)),
    }
}

fn write_cuts(
    k: &[u16],
    r: Recipe,
    cut: usize,
    times: usize,
    number: u16,
    out: &mut [u16],
    at: usize,
) -> usize
    requires { Ready number (map (made k.now r) (places times k.now cut)) out.old at }
    ensures { Wrote out.old at (in_frames number (map (made k.now r) (places times k.now cut))) out.new result }
{
    let mut c = cut;
    let mut e = at;
    for _done in 0..times {
        e = write_framed(k, r, c, 0, number, out, e);
        c = element_end(k, c);
    }
    e
}

fn write_two(k: &[u16], a: Recipe, b: Recipe, number: u16, out: &mut [u16], at: usize) -> usize
    requires { Ready number (made k.now a 0 ∷ made k.now b 0 ∷ []) out.old at }
    ensures { Wrote out.old at (in_frames number (made k.now a 0 ∷ made k.now b 0 ∷ [])) out.new result }
{
    let e = write_framed(k, a, 0, 0, number, out, at);
    write_framed(k, b, 0, 0, number, out, e)
}

// One result for each number.
fn write_alike(k: &[u16], r: Recipe, times: usize, number: u16, out: &mut [u16], at: usize) -> usize
    requires { Ready number (map (numbered k.now r 0) (numbers 0 times)) out.old at }
    ensures { Wrote out.old at (in_frames number (map (numbered k.now r 0) (numbers 0 times))) out.new result }
{
    let mut e = at;
    for i in 0..times {
        e = write_framed(k, r, 0, i, number, out, e);
    }
    e
}

// A plan's results, each in its frame, all with the number of the conjunction that they come from.
fn write_results(k: &[u16], plan: Plan, number: u16, out: &mut [u16], at: usize) -> usize
    requires { Ready number (results_of k.now plan) out.old at }
    ensures { Wrote out.old at (in_frames number (results_of k.now plan)) out.new result }
{
    let ways = plan.ways;
    let first = plan.first;
    let second = plan.second;
    match ways {
        Ways::Drop => at,
        Ways::One(cut) => write_framed(k, first, cut, 0, number, out, at),
        Ways::Two => write_two(k, first, second, number, out, at),
        Ways::Cuts(cut, n) => write_cuts(k, first, cut, n, number, out, at),
        Ways::Orders(n) => write_alike(k, first, count_orders(n), number, out, at),
        Ways::Names(n) => write_alike(k, first, wide(n), number, out, at),
    }
}

// The results of a plan, right before `next`; the answer is the place where they begin.
pub fn step_planned(
    k: &[u16],
    plan: Plan,
    number: u16,
    out: &mut [u16],
    next: usize,
) -> Result<usize, Refusal>
    requires { (length k.now ≤ desk.question) × (next ≤ length out.old) × (next ≤ desk.room) }
    ensures { Took number (results_of k.now plan) out.old next result out.new }
{
    let n = size_results(k, plan).ok_or(Refusal::LongResult)?;
    if next < n {
        return Err(Refusal::LongWaiting);
    }
    let at = next - n;
    write_results(k, plan, number, out, at);
    Ok(at)
}
