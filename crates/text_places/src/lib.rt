// Where something stops being a text, by asking the reader. A beginning of a text can be continued where some ending makes it a text, and the reader
// says whether one does; here endings are only proposed. They are enough: what is open is a name behind its mark, `in` that is written half, a side
// or a shape that is missing, and brackets.
// To print is all that the call does: it returns nothing, and is proved safe and ending.
#![tactic(auto)]

ghost use Rattle.std.specs.Prelude.{◌<◌, ◌≤◌, length};

use language::Refusal;
use pointing::point_at;
use read_text::read_text;
use std::io::Stderr;

// The most bytes of a file, twice: so many brackets can be open. And an ending.
const WHOLE: usize = 2 * 65536 + 8;

// How many bytes are shown before and behind the one that is meant: a line may hold all bytes of a text.
const AROUND: usize = 50;

// What can stand where a beginning breaks off, before the brackets that close; and behind them.
const FILLERS: [&[u8]; 2] = [b"", b"a"];

const TAILS: [&[u8]; 5] = [b"", b"=a", b" in a", b"n a", b" a"];

// Whether some bytes are a text, however many names or words it has.
fn is_text(text: &[u8]) -> bool {
    let mut room = [0u16; 1];
    !matches!(read_text(text, &mut room), Err(Refusal::NotText))
}

// Bytes behind each other, as far as there is room.
// kept: a buffer with its length, since no program has a heap
#[derive(Drop)]
struct Whole {
    bytes: [u8; WHOLE],
    length: usize,
}

impl Whole {
    fn push(&mut self, b: u8) {
        if self.length < WHOLE {
            self.bytes[self.length] = b;
            self.length += 1;
        }
    }

    fn append(&mut self, bytes: &[u8]) {
        for b in bytes {
            self.push(*b);
        }
    }

    fn is_text(&self) -> bool {
        is_text(&self.bytes[..self.length.min(WHOLE)])
    }
}

// How many brackets are open behind a byte.
fn open_behind(deep: usize, b: u8) -> usize {
    match b {
        b'\n' => 0,
        b'(' => deep.saturating_add(1).min(WHOLE),
        b')' => deep.saturating_sub(1),
        _ => deep,
    }
}

// How many brackets are open in the last line of a beginning.
fn open_brackets(beginning: &[u8]) -> usize {
    beginning.iter().fold(0, |deep, b| open_behind(deep, *b))
}

// Whether a beginning is a text with this ending: a filler, the brackets closed, a tail.
fn ends_well(beginning: &[u8], filler: &[u8], deep: usize, tail: &[u8]) -> bool {
    let mut whole = Whole {
        bytes: [0; WHOLE],
        length: 0,
    };
    whole.append(beginning);
    whole.append(filler);
    for _ in 0..deep {
        whole.push(b')');
    }
    whole.append(tail);
    whole.is_text()
}

// Whether a beginning can be continued to a text.
fn can_go_on(beginning: &[u8]) -> bool {
    let deep = open_brackets(beginning);
    for filler in FILLERS {
        for tail in TAILS {
            if ends_well(beginning, filler, deep, tail) {
                return true;
            }
        }
    }
    false
}

// A place of a text, halfway between two.
fn halfway(text: &[u8], low: usize, high: usize) -> usize
    requires { (low < high) × (high ≤ length text.now) }
    ensures { (low ≤ result) × (result < high) × (result < length text.now) }
{
    low + (high - low) / 2
}

// The first byte that cannot continue a text, or the number of bytes where the text only breaks off.
fn first_wrong(text: &[u8]) -> usize
    ensures { result ≤ length text.now }
{
    let mut low = 0;
    let mut high = text.len();
    while low < high {
        let middle = halfway(text, low, high);
        if can_go_on(&text[0..middle + 1]) {
            low = middle + 1;
        } else {
            high = middle;
        }
    }
    low
}

// What is wrong with what stands at a place, where a text cannot continue.
fn wrong(at: Option<u8>) -> &'static str {
    match at {
        Some(b'\n') => "the line breaks off here: something has to follow",
        Some(_) => "up to here it can be a text; with this it cannot",
        None => "the text breaks off here: something has to follow",
    }
}

// Says where something that is no text stops being one, and shows it. Its name is said before.
pub fn not_text(err: Stderr, text: &[u8]) {
    let at = first_wrong(text);
    let first = at.saturating_sub(AROUND);
    let last = if at < WHOLE { at + AROUND } else { at };
    point_at(err, text, at, first, last, b'\n');
    let wrong = wrong(text.get(at).copied());
    let _ = println!(err; "{wrong}");
}
