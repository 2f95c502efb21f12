// A day's sheets in one call: each question is taken out of the sheet's bytes, solved by itself, and its answer written to the room's bytes.
#![tactic(auto)]

ghost use Rattle.std.specs.Prelude.{◌+◌, ◌*◌, ◌/◌, ◌≤◌, ◌<◌, ◌≡◌, true, ◌∷◌, [], eqb, length, take, drop, get_or};
ghost use Rattle.std.proofs.lemmas.List.Edits.{sets};
ghost use Rattle.language.specs.Limits.{desk};
ghost use Rattle.language.specs.Kinds.{pick};
ghost use Rattle.rules.specs.Answer.{solving};
ghost use Rattle.outcomes.specs.Numbers.{checked_numbers};
ghost use Rattle.word_bytes.specs.Bytes.{words_in, words_of, bytes_of};
ghost use Rattle.sheets.specs.Layout.{doubled, undoubled, parts_at, count_of, table_laid, sheet_laid, sheet_parts};
ghost use Rattle.sheets.specs.Day.{answer_part, answers_of, day};
ghost use Rattle.day.specs.Leaves.{day_numbers, room_leaves, slice_leaves};
ghost use Rattle.day.specs.Written.{written, Ended, Kept};
ghost use Rattle.language.specs.Question.{rising};

use handing::clear_words;
use language::Refusal;
use language::limits::{QUESTION, ROOM, SHEETS};
use outcomes::outcome_number;
use slices::clear;
use word_bytes::{take_words, word_at, write_words_at};

// ---- the sheet's header

// An offset of the sheet: two words, the low one first.
fn offset(sheet: &[u8], i: usize) -> usize
    requires { (2 * (2 * i + 3) ≤ length sheet.now) × (i ≤ 65536) }
    ensures { (result ≡ get_or (words_of sheet.now) (2 * i + 1) 0 + 65536 * get_or (words_of sheet.now) (2 * i + 2) 0) × (result < 4294967296) }
{
    let low = usize::from(word_at(sheet, 2 * i + 1));
    let high = usize::from(word_at(sheet, 2 * i + 2));
    low + 65536 * high
}

// The offsets after the first never fall, and the last is the sheet's length.
fn rises(sheet: &[u8], n: usize) -> bool
    requires { (2 * parts_at n ≤ length sheet.now) × (n ≤ 65535) }
    ensures { result ≡ rising (parts_at n) (undoubled n (drop 3 (words_of sheet.now))) (length sheet.now / 2) }
{
    let mut from = 2 * n + 3;
    for i in 0..n {
        let to = offset(sheet, i + 1);
        if to < from {
            return false;
        }
        from = to;
    }
    from == sheet.len() / 2
}

// The offsets, for n questions.
fn table(sheet: &[u8], n: usize) -> bool
    requires { n ≤ 65535 }
    ensures { result ≡ table_laid n (words_of sheet.now) }
{
    let start = 2 * n + 3;
    if sheet.len() / 2 < start {
        return false;
    }
    if offset(sheet, 0) != start {
        return false;
    }
    rises(sheet, n)
}

// Whether the header is one: 22 where it is not.
fn laid(sheet: &[u8]) -> bool
    ensures { result ≡ sheet_laid desk (words_in sheet.now) }
{
    if sheet.len() % 2 != 0 {
        return false;
    }
    if sheet.len() < 2 {
        return false;
    }
    let n = usize::from(word_at(sheet, 0));
    if SHEETS < n {
        return false;
    }
    table(sheet, n)
}

// ---- a question

// How many words of the answer slice belong to an answer: up to the end of its last line, and of a refusal none.
fn answer_end(number: u16, lines: usize, answer: &[u16]) -> usize
    requires { lines + 2 < length answer.now }
    ensures { result ≡ pick (eqb number 0) (get_or answer.now (lines + 2) 0) 0 }
{
    if number == 0 {
        return usize::from(answer[lines + 2]);
    }
    0
}

// A question's refusal number, or 0, and how many words of the answer slice follow it.
#[derive(Clone, Copy)]
pub struct Part {
    pub number: u16,
    pub len: usize,
}

// Solves one question by itself.
fn solve_one(question: &[u8], work: &mut [u16], answer: &mut [u16]) -> Part
    requires { (desk.room ≤ length work.old) × (desk.room ≤ length answer.old) }
    ensures len_le_room { (result.len ≤ desk.room) × (result.len ≤ length answer.new) × (result.number ∷ take result.len answer.new ≡ answer_part desk (solving desk (length work.old) (length answer.old) (words_in question.now))) }
    ensures kept { Kept work.old work.new × Kept answer.old answer.new }
{
    let mut words = [0u16; QUESTION];
    let n = take_words(question, &mut words);
    let s = solver::solve(&words[..n], work, answer);
    let outcome = s.outcome;
    let number = outcome_number(outcome);
    let len = answer_end(number, s.lines, answer);
    Part { number, len }
}

// Solves the question of that number, from 0.
fn solve_part(sheet: &[u8], i: usize, work: &mut [u16], answer: &mut [u16]) -> Part
    requires { (sheet_laid desk (words_in sheet.now) ≡ true) × (i < count_of (words_in sheet.now)) × (desk.room ≤ length work.old) × (desk.room ≤ length answer.old) }
    ensures len_le_room { (result.len ≤ desk.room) × (result.len ≤ length answer.new) × (result.number ∷ take result.len answer.new ≡ answer_part desk (solving desk (length work.old) (length answer.old) (get_or (sheet_parts (words_in sheet.now)) i []))) }
    ensures kept { Kept work.old work.new × Kept answer.old answer.new }
{
    let from = offset(sheet, i);
    let to = offset(sheet, i + 1);
    solve_one(&sheet[2 * from..2 * to], work, answer)
}

// ---- the room

// A number as the two words of an offset, at its place in the table.
fn put_offset(room: &mut [u8], i: usize, n: usize)
    requires { (2 * (2 * i + 3) ≤ length room.old) × (n < 4294967296) × (i ≤ 65536) }
    ensures { room.new ≡ sets room.old (2 * (2 * i + 1)) (bytes_of (doubled (n ∷ []))) }
{
    // kept: the casts are proved to keep the halves, and `u16::try_from(..).unwrap()` would say no more
    let pair = [(n % 65536) as u16, (n / 65536) as u16];
    write_words_at(&pair, room, 2 * i + 1);
}

// One word at a place.
fn put_word(room: &mut [u8], at: usize, w: u16)
    requires { 2 * (at + 1) ≤ length room.old }
    ensures { room.new ≡ sets room.old (2 * at) (bytes_of (w ∷ [])) }
{
    write_words_at(&[w], room, at);
}

// The words of a part, from the place `at` on.
fn put_part(room: &mut [u8], at: usize, number: u16, words: &[u16])
    requires { 2 * (at + 1 + length words.now) ≤ length room.old }
    ensures { room.new ≡ sets room.old (2 * at) (bytes_of (number ∷ words.now)) }
{
    put_word(room, at, number);
    write_words_at(words, room, at + 1);
}

// The number of answers, and where the first begins.
fn begin(room: &mut [u8], n: u16)
    requires { 2 * parts_at n ≤ length room.old }
    ensures { room.new ≡ written n room.old [] }
{
    put_word(room, 0, n);
    put_offset(room, 0, 2 * usize::from(n) + 3);
}

// The part of a question, from the place `at` on, and where it ends.
fn place(room: &mut [u8], i: usize, at: usize, number: u16, words: &[u16])
    requires { (2 * (at + 1 + length words.now) ≤ length room.old) × (at + 1 + length words.now < 4294967296) × (2 * i + 5 ≤ at) × (i ≤ 65535) }
    ensures { room.new ≡ sets (sets room.old (2 * at) (bytes_of (number ∷ words.now))) (2 * (2 * (i + 1) + 1)) (bytes_of (doubled ((at + length (number ∷ words.now)) ∷ []))) }
{
    put_part(room, at, number, words);
    put_offset(room, i + 1, at + 1 + words.len());
}

// Question by question, in a room that is begun; whether the answers fit.
fn answer_all(
    sheet: &[u8],
    count: u16,
    work: &mut [u16],
    answer: &mut [u16],
    room: &mut [u8],
) -> bool
    requires { (sheet_laid desk (words_in sheet.now) ≡ true) × (count ≡ count_of (words_in sheet.now)) × (desk.room ≤ length work.old) × (desk.room ≤ length answer.old) × (2 * parts_at count ≤ length room.old) × (room.old ≡ written count room.old []) }
    ensures { Ended (answers_of desk (length work.old) (length answer.old) (sheet_parts (words_in sheet.now))) room.old result room.new × Kept work.old work.new × Kept answer.old answer.new }
{
    let n = usize::from(count);
    let mut at = 2 * n + 3;
    for i in 0..n {
        let p = solve_part(sheet, i, work, answer);
        let len = p.len;
        let next = at + 1 + len;
        if room.len() / 2 < next {
            return false;
        }
        place(room, i, at, p.number, &answer[..len]);
        at = next;
    }
    true
}

// The answers, where the table fits at least.
fn answer_day(sheet: &[u8], work: &mut [u16], answer: &mut [u16], room: &mut [u8]) -> bool
    requires { (sheet_laid desk (words_in sheet.now) ≡ true) × (desk.room ≤ length work.old) × (desk.room ≤ length answer.old) }
    ensures { Ended (answers_of desk (length work.old) (length answer.old) (sheet_parts (words_in sheet.now))) room.old result room.new × Kept work.old work.new × Kept answer.old answer.new }
{
    let n = word_at(sheet, 0);
    if room.len() / 2 < 2 * usize::from(n) + 3 {
        return false;
    }
    begin(room, n);
    answer_all(sheet, n, work, answer, room)
}

// Answers a day's sheet: what comes back, and what the room and the two lent slices then hold, is what `day` says of them.
pub fn solve_day(
    sheet: &[u8],
    work: &mut [u16],
    answer: &mut [u16],
    room: &mut [u8],
) -> Result<(), Refusal>
    ensures result_value { checked_numbers result ≡ day_numbers (day desk (length work.old) (length answer.old) (length room.old / 2) (words_in sheet.now)) }
    ensures room_after { (room.new ≡ room_leaves (day desk (length work.old) (length answer.old) (length room.old / 2) (words_in sheet.now)) room.old) × (work.new ≡ slice_leaves (day desk (length work.old) (length answer.old) (length room.old / 2) (words_in sheet.now)) work.old) × (answer.new ≡ slice_leaves (day desk (length work.old) (length answer.old) (length room.old / 2) (words_in sheet.now)) answer.old) }
{
    if work.len() < ROOM {
        return Err(Refusal::ShortSlice);
    }
    if answer.len() < ROOM {
        return Err(Refusal::ShortSlice);
    }
    if !laid(sheet) {
        return Err(Refusal::SheetLayout);
    }
    let fits = answer_day(sheet, work, answer, room);
    clear(work);
    clear(answer);
    if fits {
        return Ok(());
    }
    clear_words(room);
    Err(Refusal::LongAnswers)
}
