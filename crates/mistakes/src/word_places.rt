// A word of a text, shown in its line.
ghost use Rattle.std.specs.Prelude.{◌<◌, ◌≤◌, length};

use language::limits::QUESTION;
use pointing::point_at;
use prompt::parse;
use std::io::Stderr;

// How many words are shown before and behind the one that is meant: a line may hold all words of a question.
const AROUND: usize = 8;

// Whether a text has more than n words.
fn has_more(text: &[u8], n: usize) -> bool {
    let mut words = [0u16; 2 * QUESTION];
    n < parse(text, &mut words).words
}

// A place of a text, halfway between two.
fn halfway(text: &[u8], low: usize, high: usize) -> usize
    requires { (low < high) × (high ≤ length text.now) }
    ensures { (low ≤ result) × (result < high) × (result ≤ length text.now) }
{
    low + (high - low) / 2
}

// Where word n of a text begins: just before the end of the shortest beginning that has it. Of a text that has no such word, before its last byte.
fn beginning(text: &[u8], n: usize) -> usize
    ensures { result ≤ length text.now }
{
    let mut low = 0;
    let mut high = text.len();
    while low < high {
        let middle = halfway(text, low, high);
        if has_more(&text[0..middle], n) {
            high = middle;
        } else {
            low = middle + 1;
        }
    }
    low.saturating_sub(1)
}

// Where the digits end that begin at a place.
fn ending(text: &[u8], from: usize) -> usize
    ensures { from ≤ result }
{
    for i in from..text.len() {
        if !text[i].is_ascii_digit() {
            return i;
        }
    }
    from.max(text.len())
}

// Says where word n of a text stands, or what is right behind it, and shows the words around it. The text's name is said before.
pub(crate) fn point(err: Stderr, text: &[u8], n: usize, past: bool) {
    let word = beginning(text, n);
    let at = if past { ending(text, word) } else { word };
    let first = beginning(text, n.saturating_sub(AROUND));
    let last = beginning(text, if n < QUESTION { n + AROUND } else { n });
    point_at(err, text, at, first, ending(text, last.max(at)), b'#');
}
