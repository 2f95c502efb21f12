// The calls of the control room's host that solve: bytes and numbers around the calls on words. The slices that a call on words is lent are arrays of
// the desk's own, cleared at the start.
#![tactic(auto)]

ghost use Rattle.std.specs.Prelude.{◌*◌, ◌≤◌, ◌≡◌, length};
ghost use Rattle.language.specs.Limits.{desk};
ghost use Rattle.host.specs.Host.{solving_bytes, solve_number, solve_leaves, showing_bytes, show_number, show_leaves, day_bytes};
ghost use Rattle.rules.specs.Calls.{showing};
ghost use Rattle.day.specs.Leaves.{day_number, room_leaves};

use bools::truth;
use day::solve_day;
use handing::{most, put_answer, solved_number, told};
use language::limits::{ANSWER_BYTES, FILLING, QUESTION, ROOM};
use outcomes::{shown_length, shown_number, verdict_number};
use word_bytes::{take_words, write_words};

// Solves a question: the refusal's number, or 0.
pub fn desk_solve(question: &[u8], answer: &mut [u8]) -> u32
    ensures value { result ≡ solve_number (solving_bytes desk (length answer.old) question.now) }
    ensures answer_after { answer.new ≡ solve_leaves desk (solving_bytes desk (length answer.old) question.now) answer.old }
{
    if answer.len() < ANSWER_BYTES {
        return 1;
    }
    let mut words = [0u16; QUESTION];
    let mut work = [0u16; ROOM];
    let mut own = [0u16; ROOM];
    let n = take_words(question, &mut words);
    let number = solved_number(solver::solve(&words[..n], &mut work, &mut own));
    put_answer(number, &own, answer);
    u32::from(number)
}

// The example in the desk's own room, and then in the bytes lent.
fn show(question: &[u16], line: usize, old: bool, own: &mut [u16], room: &mut [u8]) -> u32
    requires { (length own.old ≤ desk.filling) × (2 * length own.old ≤ length room.old) }
    ensures value { result ≡ show_number (showing desk old desk.room desk.room (length own.old) line question.now) }
    ensures room_after { room.new ≡ show_leaves (showing desk old desk.room desk.room (length own.old) line question.now) room.old }
{
    let mut work = [0u16; ROOM];
    let mut answer = [0u16; ROOM];
    let s = example::example(question, line, old, &mut work, &mut answer, own);
    let n = shown_length(s);
    // of a refusal that is 0, and nothing is written
    write_words(&own[..n], room);
    // kept: the cast is proved to keep the number, and `u16::try_from(..).unwrap()` would say no more
    told(shown_number(s), n as u16)
}

// Shows the example of a settled line: 100 and its length in words, or the refusal's number. Free blanks take the last declared symbol where `old`
// is 0, and else symbol 0.
pub fn desk_example(question: &[u8], line: u32, old: u32, room: &mut [u8]) -> u32
    ensures value { result ≡ show_number (showing_bytes desk (length room.old) line old question.now) }
    ensures room_after { room.new ≡ show_leaves (showing_bytes desk (length room.old) line old question.now) room.old }
{
    let mut words = [0u16; QUESTION];
    let mut own = [0u16; FILLING];
    let n = take_words(question, &mut words);
    let m = most(FILLING, room.len() / 2);
    // kept: there is no `From<u32>` for `usize`
    show(&words[..n], line as usize, truth(old), &mut own[..m], room)
}

// Answers a day's sheet: the refusal's number, or 0.
pub fn desk_day(sheet: &[u8], room: &mut [u8]) -> u32
    ensures value { result ≡ day_number (day_bytes desk (length room.old) sheet.now) }
    ensures room_after { room.new ≡ room_leaves (day_bytes desk (length room.old) sheet.now) room.old }
{
    let mut own_work = [0u16; ROOM];
    let mut own_answer = [0u16; ROOM];
    u32::from(verdict_number(solve_day(sheet, &mut own_work, &mut own_answer, room)))
}
