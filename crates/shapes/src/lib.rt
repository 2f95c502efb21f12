// An expression: whether it is one, where it ends, and the number of its words.
#![tactic(auto)]

ghost use Rattle.std.specs.Prelude.{◌+◌, ◌≤◌, ◌<◌, min, ◌≡◌, length};
ghost use Rattle.language.specs.Limits.{desk};
ghost use Rattle.flat.specs.declared.State.TheVariants.{Opened, Wanted, Named, Ready};
ghost use Rattle.walking.specs.Walking.{stage_of};
ghost use Rattle.shapes.specs.Shapes.{action_of, state_behind, ends, refused, depth_by};
ghost use Rattle.shapes.specs.Actions.{action_at, end_at};
ghost use Rattle.shapes.specs.Scanned.{Scanned};

use language::limits::QUESTION;
use lexing::{Mark, next};
use walking::Way;

fn when_opened(mark: Mark) -> u8
    ensures { result ≡ action_of Opened mark }
{
    match mark {
        Mark::End => 0,
        Mark::Bad => 0,
        Mark::Symbol => 11,
        Mark::One => 0,
        Mark::Run => 0,
        Mark::Function => 0,
        Mark::Equals => 0,
        Mark::Comma => 0,
        Mark::Opens => 10,
        Mark::Closes => 21,
        Mark::Plus => 0,
        Mark::Times => 0,
    }
}

fn when_wanted(mark: Mark) -> u8
    ensures { result ≡ action_of Wanted mark }
{
    match mark {
        Mark::End => 0,
        Mark::Bad => 0,
        Mark::Symbol => 21,
        Mark::One => 0,
        Mark::Run => 0,
        Mark::Function => 0,
        Mark::Equals => 0,
        Mark::Comma => 0,
        Mark::Opens => 20,
        Mark::Closes => 0,
        Mark::Plus => 0,
        Mark::Times => 0,
    }
}

fn when_named(mark: Mark) -> u8
    ensures { result ≡ action_of Named mark }
{
    match mark {
        Mark::End => 50,
        Mark::Bad => 50,
        Mark::Symbol => 50,
        Mark::One => 50,
        Mark::Run => 50,
        Mark::Function => 50,
        Mark::Equals => 50,
        Mark::Comma => 42,
        Mark::Opens => 20,
        Mark::Closes => 31,
        Mark::Plus => 22,
        Mark::Times => 22,
    }
}

fn when_ready(mark: Mark) -> u8
    ensures { result ≡ action_of Ready mark }
{
    match mark {
        Mark::End => 50,
        Mark::Bad => 50,
        Mark::Symbol => 50,
        Mark::One => 50,
        Mark::Run => 50,
        Mark::Function => 50,
        Mark::Equals => 50,
        Mark::Comma => 41,
        Mark::Opens => 50,
        Mark::Closes => 30,
        Mark::Plus => 21,
        Mark::Times => 21,
    }
}

fn stage_behind(mark: Mark) -> u8
    ensures { result ≡ stage_of (state_behind mark) }
{
    match mark {
        Mark::End => 3,
        Mark::Bad => 3,
        Mark::Symbol => 2,
        Mark::One => 3,
        Mark::Run => 3,
        Mark::Function => 3,
        Mark::Equals => 3,
        Mark::Comma => 1,
        Mark::Opens => 0,
        Mark::Closes => 3,
        Mark::Plus => 1,
        Mark::Times => 3,
    }
}

// What a token is to the loop, by what stands before it.
fn action(stage: u8, mark: Mark) -> u8
    ensures { result ≡ action_at stage mark }
{
    if stage == 0 {
        return when_opened(mark);
    }
    if stage == 1 {
        return when_wanted(mark);
    }
    if stage == 2 {
        return when_named(mark);
    }
    when_ready(mark)
}

fn is_end(action: u8, d: usize) -> bool
    ensures { result ≡ ends action d }
{
    if action < 30 {
        return false;
    }
    d == 0
}

fn is_refused(action: u8) -> bool
    ensures { result ≡ refused action }
{
    let kind = action / 10;
    if kind == 0 {
        return true;
    }
    kind == 5
}

// There are fewer than `most` brackets open.
fn depth_by(action: u8, d: usize, most: usize) -> usize
    requires { (d < most) × (30 ≤ action → 0 < d) }
    ensures { result ≡ depth_by action d }
{
    let kind = action / 10;
    if kind == 1 {
        return d + 1;
    }
    if kind == 3 {
        return d - 1;
    }
    d
}

// So many words more, counted up to one more than a question may have.
fn count(n: usize, more: u8) -> usize
    requires { (n ≤ desk.question + 1) × (more ≤ 9) }
    ensures { result ≡ min (desk.question + 1) (n + more) }
{
    let sum = n + more as usize;
    if QUESTION < sum {
        return QUESTION + 1;
    }
    sum
}

fn words_at_end(stage: u8) -> u8
    ensures { result ≡ end_at stage }
{
    if stage == 2 {
        return 1;
    }
    0
}

// The expression at a place.
pub fn shape(text: &[u8], at: usize) -> Way
    requires { at ≤ length text.now }
    ensures { Scanned desk text.now at result }
{
    let mut stage = 1;
    let mut d = 0;
    let mut i = at;
    let mut n = 0;
    loop {
        let p = next(text, i);
        let mark = p.mark;
        let a = action(stage, mark);
        if is_end(a, d) {
            return Way {
                ok: true,
                at: i,
                n: count(n, words_at_end(stage)),
            };
        }
        if is_refused(a) {
            return Way {
                ok: false,
                at: i,
                n: n,
            };
        }
        n = count(n, a % 10);
        d = depth_by(a, d, text.len());
        stage = stage_behind(mark);
        i = p.to;
    }
}
