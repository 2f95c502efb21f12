// The names of a text: compared where they stand, and numbered in the order of their first appearance.
#![tactic(auto)]

ghost use Rattle.std.specs.Prelude.{◌+◌, ◌<◌, ◌≡◌, eqb};
ghost use Rattle.language.specs.Limits.{desk};
ghost use Rattle.texts.specs.Numbering.{place};
ghost use Rattle.text_names.specs.Shelves.{name_at, Letter, listed, numbering, Shelf, Shelves, enter_on};
ghost use Rattle.text_names.specs.Words.{first_of, shelf_by, own_word};

use language::limits::PLACES;
use lexing::{Mark, is_name_byte};

// places of a shelf: the count, the names, and one too many
pub const WIDTH: usize = PLACES + 2;

// The letter or digit that stands at `at`, or 0.
pub fn letter_at(text: &[u8], at: usize) -> u8
    ensures { Letter text.now at result }
{
    if text.len() <= at {
        return 0;
    }
    let b = text[at];
    if is_name_byte(b) {
        return b;
    }
    0
}

// Whether the names that begin at these places are the same.
fn same_name(text: &[u8], a: usize, b: usize) -> bool
    ensures { result ≡ eqb (name_at text.now b) (name_at text.now a) }
{
    let mut i = a;
    let mut j = b;
    while i < text.len() {
        let x = letter_at(text, i);
        let y = letter_at(text, j);
        if x != y {
            return false;
        }
        if x == 0 {
            return true;
        }
        i += 1;
        j += 1;
    }
    letter_at(text, j) == 0
}

// The place on its shelf of the name that begins at `at`: how many stand before it, or all of them.
fn number(text: &[u8], names: &[usize], base: usize, at: usize) -> usize
    requires { Shelf desk names.now base }
    ensures { result ≡ place (name_at text.now at) (listed text.now names.now base) }
{
    let first = base + 1;
    let end = first + names[base];
    for i in first..end {
        if same_name(text, names[i], at) {
            return i - first;
        }
    }
    end - first
}

// A name put on its shelf, where it is not there yet and there is room.
pub fn enter(text: &[u8], names: &mut [usize], base: usize, at: usize)
    requires { Shelf desk names.old base }
    ensures { names.new ≡ enter_on desk text.now names.old base at }
{
    let n = number(text, names, base, at);
    let many = names[base];
    if n < many {
        return;
    }
    if PLACES < many {
        return;
    }
    names[base + 1 + many] = at;
    names[base] = many + 1;
}

// The first word of a mark's kind, and its shelf; 0 where it has no name.
fn first_of(mark: Mark) -> u16
    ensures { result ≡ first_of mark }
{
    match mark {
        Mark::End => 0,
        Mark::Bad => 0,
        Mark::Symbol => 3000,
        Mark::One => 1000,
        Mark::Run => 2000,
        Mark::Function => 4000,
        Mark::Equals => 0,
        Mark::Comma => 0,
        Mark::Opens => 0,
        Mark::Closes => 0,
        Mark::Plus => 0,
        Mark::Times => 0,
    }
}

fn shelf_by(mark: Mark) -> usize
    ensures { result ≡ shelf_by desk mark }
{
    match mark {
        Mark::End => 0,
        Mark::Bad => 0,
        Mark::Symbol => 2 * WIDTH,
        Mark::One => 0,
        Mark::Run => WIDTH,
        Mark::Function => 3 * WIDTH,
        Mark::Equals => 0,
        Mark::Comma => 0,
        Mark::Opens => 0,
        Mark::Closes => 0,
        Mark::Plus => 0,
        Mark::Times => 0,
    }
}

// A token's own word: that of its name, or 0.
pub fn own_word(text: &[u8], names: &[usize], mark: Mark, at: usize) -> u16
    requires { Shelves desk names.now }
    ensures { result ≡ own_word (numbering desk text.now names.now) mark (name_at text.now at) }
{
    let first = first_of(mark);
    if first == 0 {
        return 0;
    }
    first + number(text, names, shelf_by(mark), at) as u16
}
