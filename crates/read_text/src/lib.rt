// Reading a text: the words of its question, or 17, 18, 19.
#![tactic(auto)]

ghost use Rattle.std.specs.Prelude.{◌+◌, ◌*◌, ◌≤◌, ◌<◌, ◌≡◌, false, length, take};
ghost use Rattle.std.proofs.lemmas.List.Edits.{sets};
ghost use Rattle.language.specs.Limits.{desk};
ghost use Rattle.texts.specs.Outcomes.{reads_text};
ghost use Rattle.read_text.specs.Reads.{reading_of, left_by, many_of, one_at_least, header_of, first_of};

use collecting::{ALL, collect};
use language::Refusal;
use language::limits::{ALTERNATIVES, PLACES, QUESTION};
use room_words::put_head;
use text_names::WIDTH;
use text_survey::survey;
use text_words::write_lines;

const LINES: usize = ALTERNATIVES as usize;

// Whether there are more names of a class, or more lines, than a header can count.
fn is_many(names: &[usize], many: usize) -> bool
    requires { 4 * (desk.each + 2) ≤ length names.now }
    ensures { result ≡ many_of desk names.now many }
{
    if PLACES < names[0] {
        return true;
    }
    if PLACES < names[WIDTH] {
        return true;
    }
    if PLACES < names[2 * WIDTH] {
        return true;
    }
    if PLACES < names[3 * WIDTH] {
        return true;
    }
    LINES < many
}

// One symbol is declared where none appears.
fn at_least_one(n: usize) -> usize
    ensures { result ≡ one_at_least n }
{
    if n == 0 {
        return 1;
    }
    n
}

// Where the words of the conjunctions begin.
fn first_word(many: usize) -> usize
    ensures { result ≡ first_of desk many }
{
    if LINES < many {
        return 6 + LINES;
    }
    6 + many
}

// The five counts, and the first offset.
fn write_header(names: &[usize], many: usize, words: &mut [u16])
    requires { (4 * (desk.each + 2) ≤ length names.now) × (many_of desk names.now many ≡ false) }
    ensures { words.new ≡ sets words.old 0 (header_of desk names.now many) }
{
    let s = at_least_one(names[2 * WIDTH]);
    put_head(words, 0, s as u16);
    put_head(words, 1, names[0] as u16);
    put_head(words, 2, names[WIDTH] as u16);
    put_head(words, 3, names[3 * WIDTH] as u16);
    put_head(words, 4, many as u16);
    put_head(words, 5, (6 + many) as u16);
}

// The first words, copied to the room.
// kept: std's copy needs memmove from who links the desk, which nothing else here does
fn copy(words: &[u16], n: usize, room: &mut [u16])
    requires { (n ≤ length words.now) × (n ≤ length room.old) }
    ensures { room.new ≡ sets room.old 0 (take n words.now) }
{
    for i in 0..n {
        room[i] = words[i];
    }
}

// The words of the question that a text is, in the room lent, and how many they are; or why there are none.
pub fn read_text(text: &[u8], room: &mut [u16]) -> Result<usize, Refusal>
    ensures value { result ≡ reading_of (reads_text desk (length room.old) text.now) }
    ensures room_after { room.new ≡ left_by (reads_text desk (length room.old) text.now) room.old }
{
    let Some(many) = survey(text) else {
        return Err(Refusal::NotText);
    };
    let mut names = [0usize; ALL];
    let mut words = [0u16; QUESTION + 1];
    collect(text, &mut names);
    let Some(n) = write_lines(text, &names, &mut words, first_word(many)) else {
        return Err(Refusal::NotText);
    };
    if is_many(&names, many) {
        return Err(Refusal::ManyNames);
    }
    if QUESTION < n {
        return Err(Refusal::LongText);
    }
    if room.len() < n {
        return Err(Refusal::LongText);
    }
    write_header(&names, many, &mut words);
    copy(&words, n, room);
    Ok(n)
}
