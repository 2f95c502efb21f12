// The names of the text that a question came as, by their numbers. `names` is that text and the shelves of its names behind it, as `collecting` leaves
// them, two bytes for each place; where the question came as words it is empty.
ghost use Rattle.std.specs.Prelude.{◌<◌};

use crate::Writer;
use collecting::ALL;
use lexing::next;
use print::say;
use text_names::WIDTH;
use word_bytes::word_at;

// The bytes of all shelves.
const SHELVES: usize = 2 * ALL;

// What has a name: each sort has a shelf of its own.
#[derive(Clone, Copy)]
pub(crate) enum Sort {
    Term,
    Run,
    Symbol,
    Function,
}

impl Sort {
    // Where its shelf begins.
    fn shelf(self) -> usize
        ensures { result < 65536 }
    {
        match self {
            Sort::Term => 0,
            Sort::Run => WIDTH,
            Sort::Symbol => 2 * WIDTH,
            Sort::Function => 3 * WIDTH,
        }
    }

    // The mark before its names in a text.
    fn mark(self) -> &'static str {
        match self {
            Sort::Term => "?",
            Sort::Run => "*",
            Sort::Symbol => "",
            Sort::Function => "%",
        }
    }

    // The letter before its numbers, for a question of words.
    fn letter(self) -> char {
        match self {
            Sort::Term => 'x',
            Sort::Run => 'p',
            Sort::Symbol => 'a',
            Sort::Function => 'X',
        }
    }
}

impl Writer<'_> {
    pub(crate) fn is_text(&self) -> bool {
        SHELVES <= self.names.len()
    }

    // What stands at a place of the shelves.
    fn shelved(&self, i: usize) -> usize
        ensures { result < 65536 }
    {
        let names = self.names;
        if names.len() < SHELVES || ALL <= i {
            return 0;
        }
        let from = names.len() - SHELVES;
        usize::from(word_at(&names[from..], i))
    }

    // The name that begins at a place of the text.
    fn name_at(&self, at: usize) {
        let names = self.names;
        if names.len() < SHELVES {
            return;
        }
        let text = &names[..names.len() - SHELVES];
        if text.len() < at {
            return;
        }
        let p = next(text, at);
        if let Some(name) = text.get(p.from..p.to) {
            say(self.out, name);
        }
    }

    // The name of number n on the shelf of a sort behind its mark, or, where that has none, a letter and the number.
    pub(crate) fn name(&self, sort: Sort, n: usize) {
        let shelf = sort.shelf();
        if n < self.shelved(shelf) {
            let mark = sort.mark();
            let _ = print!(self.out; "{mark}");
            self.name_at(self.shelved(shelf + 1 + n));
            return;
        }
        let letter = sort.letter();
        let _ = print!(self.out; "{letter}{n}");
    }
}
