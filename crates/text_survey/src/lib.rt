// A first look at a text: whether each line is made of tokens, and how many have one.
#![tactic(auto)]

ghost use Rattle.std.specs.Prelude.{◌+◌, ◌≤◌, ◌<◌, ◌≡◌, length};
ghost use Rattle.language.specs.Kinds.{pick};
ghost use Rattle.text_survey.specs.Surveys.{step_of, LineSeen, Surveyed};

use lexing::{Mark, next};

// A line: whether it is made of tokens, whether it has one, and where it ends.
// kept: `LineSeen` says of a line that is not made of tokens, too, where its tokens end (`low`, `high`, `same`, `tells`).
#[derive(Clone, Copy)]
pub struct Seen {
    pub ok: bool,
    pub some: bool,
    pub to: usize,
}

fn step(mark: Mark) -> u8
    ensures { result ≡ step_of mark }
{
    match mark {
        Mark::End => 1,
        Mark::Bad => 0,
        Mark::Symbol => 2,
        Mark::One => 2,
        Mark::Run => 2,
        Mark::Function => 2,
        Mark::Equals => 2,
        Mark::Comma => 2,
        Mark::Opens => 2,
        Mark::Closes => 2,
        Mark::Plus => 2,
        Mark::Times => 2,
    }
}

// The line from `at` on.
pub fn line(text: &[u8], at: usize) -> Seen
    requires { at ≤ length text.now }
    ensures { LineSeen text.now at result }
{
    let mut i = at;
    let mut some = false;
    loop {
        let p = next(text, i);
        let mark = p.mark;
        let s = step(mark);
        if s != 2 {
            return Seen {
                ok: s == 1,
                some: some,
                to: p.to,
            };
        }
        some = true;
        i = p.to;
    }
}

// One more, if so; there are fewer than `most` yet.
fn one_more(many: usize, yes: bool, most: usize) -> usize
    requires { many < most }
    ensures { result ≡ pick yes (many + 1) many }
{
    if yes {
        return many + 1;
    }
    many
}

// The whole text: how many lines have a token, if it is made of tokens.
pub fn survey(text: &[u8]) -> Option<usize>
    ensures { Surveyed text.now result }
{
    let mut at = 0;
    let mut many = 0;
    loop {
        let l = line(text, at);
        if !l.ok {
            return None;
        }
        many = one_more(many, l.some, text.len() + 1);
        let to = l.to;
        if text.len() <= to {
            return Some(many);
        }
        at = to + 1;
    }
}
