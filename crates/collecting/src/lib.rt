// The names of a whole text, each put on the shelf of its class in the order of first appearance: for whoever reads the text, and for whoever names
// things as it does.
#![tactic(auto)]

ghost use Rattle.std.specs.Prelude.{◌≤◌, ◌≡◌, length};
ghost use Rattle.language.specs.Limits.{desk};
ghost use Rattle.lexing.specs.declared.Mark.TheVariants.{Symbol};
ghost use Rattle.text_names.specs.Shelves.{Shelves};
ghost use Rattle.collecting.specs.Collecting.{behind, shelf_at, Took, LineTaken, Taken};

use lexing::{Mark, next, sort};
use text_names::{WIDTH, enter};

// places of all four
pub const ALL: usize = 4 * WIDTH;

// The shelf of a name that stands directly behind an element or not: there it is the word `in`.
fn symbol_shelf(after: bool) -> usize
    ensures { result ≡ shelf_at desk Symbol after }
{
    if after { ALL } else { 2 * WIDTH }
}

fn shelf(mark: Mark, after: bool) -> usize
    ensures { result ≡ shelf_at desk mark after }
{
    match mark {
        Mark::End => ALL,
        Mark::Bad => ALL,
        Mark::Symbol => symbol_shelf(after),
        Mark::One => 0,
        Mark::Run => WIDTH,
        Mark::Function => 3 * WIDTH,
        Mark::Equals => ALL,
        Mark::Comma => ALL,
        Mark::Opens => ALL,
        Mark::Closes => ALL,
        Mark::Plus => ALL,
        Mark::Times => ALL,
    }
}

fn is_behind(mark: Mark, after: bool) -> bool
    ensures { result ≡ behind mark after }
{
    match mark {
        Mark::End => false,
        Mark::Bad => false,
        Mark::Symbol => !after,
        Mark::One => true,
        Mark::Run => true,
        Mark::Function => true,
        Mark::Equals => false,
        Mark::Comma => false,
        Mark::Opens => false,
        Mark::Closes => true,
        Mark::Plus => false,
        Mark::Times => false,
    }
}

// The name of a token, if it has one.
fn take(text: &[u8], names: &mut [usize], mark: Mark, after: bool, at: usize)
    requires { Shelves desk names.old }
    ensures { Took desk text.now names.old mark after at names.new }
{
    let s = shelf(mark, after);
    if s < ALL {
        enter(text, names, s, at);
    }
}

// The names of the line from `at` on, and where it ends.
fn take_line(text: &[u8], names: &mut [usize], at: usize) -> usize
    requires { (at ≤ length text.now) × Shelves desk names.old }
    ensures { LineTaken desk text.now names.old at result names.new }
{
    let mut i = at;
    let mut after = false;
    loop {
        let p = next(text, i);
        let mark = p.mark;
        if sort(mark) == 0 {
            return p.to;
        }
        take(text, names, mark, after, p.from);
        after = is_behind(mark, after);
        i = p.to;
    }
}

// The names of a text, behind those that the shelves have.
pub fn collect(text: &[u8], names: &mut [usize])
    requires { Shelves desk names.old }
    ensures { Taken desk text.now names.old names.new }
{
    let mut at = 0;
    loop {
        let end = take_line(text, names, at);
        if text.len() <= end {
            return;
        }
        at = end + 1;
    }
}
