// The calls of the control room's host that write a trail or replay one: bytes and numbers around the calls on words. The slices that a call on words
// is lent are arrays of the desk's own, cleared at the start; a trail that is replayed is read where it stands.
#![tactic(auto)]

ghost use Rattle.std.specs.Prelude.{◌*◌, ◌≤◌, ◌≡◌, length};
ghost use Rattle.language.specs.Limits.{desk};
ghost use Rattle.language.specs.Question.{read_question};
ghost use Rattle.word_bytes.specs.Bytes.{words_in, words_of, half_word};
ghost use Rattle.host.specs.Host.{solve_number, solve_leaves, show_number, show_leaves};
ghost use Rattle.replay.specs.Calls.{solving_trail, trail_of, showing_trail};
ghost use Rattle.trail_host.specs.Host.{longest_trail, trailing_bytes, trail_number, trail_bytes, replaying_bytes, showing_trail_bytes};

use bools::truth;
use handing::{most, put_answer, put_trail, solved_number, told};
use language::limits::{ANSWER_BYTES, FILLING, QUESTION, ROOM, STEPS};
use outcomes::{shown_length, shown_number};
use replayer::replay;
use trail_example::example_trail;
use trails::solve_trail;
use word_bytes::{take_words, write_words};

// the words of the longest trail: three for each step
const TRAIL: usize = 3 * STEPS;

// Solving with a trail in the desk's own slices, and then in the bytes lent.
fn note(question: &[u16], own: &mut [u16], answer: &mut [u8], trail: &mut [u8]) -> u32
    requires { (2 * desk.room ≤ length answer.old) × (length own.old ≤ longest_trail desk) × (2 * length own.old ≤ length trail.old) }
    ensures value { result ≡ trail_number (solving_trail desk desk.room desk.room (length own.old) question.now) }
    ensures answer_after { answer.new ≡ solve_leaves desk (solving_trail desk desk.room desk.room (length own.old) question.now) answer.old }
    ensures trail_after { trail.new ≡ trail_bytes (solving_trail desk desk.room desk.room (length own.old) question.now) (trail_of desk (read_question desk question.now)) trail.old }
{
    let mut work = [0u16; ROOM];
    let mut lines = [0u16; ROOM];
    let s = solve_trail(question, &mut work, &mut lines, own);
    let steps = s.steps;
    let number = solved_number(s);
    put_answer(number, &lines, answer);
    put_trail(number, steps, own, trail);
    // kept: the cast is proved to keep the number, and `u16::try_from(..).unwrap()` would say no more
    told(number, steps as u16)
}

// Solves a question and writes its trail: 100 and the steps made, or the refusal's number.
pub fn desk_solve_trail(question: &[u8], answer: &mut [u8], trail: &mut [u8]) -> u32
    ensures value { result ≡ trail_number (trailing_bytes desk (length answer.old) (length trail.old) question.now) }
    ensures answer_after { answer.new ≡ solve_leaves desk (trailing_bytes desk (length answer.old) (length trail.old) question.now) answer.old }
    ensures trail_after { trail.new ≡ trail_bytes (trailing_bytes desk (length answer.old) (length trail.old) question.now) (trail_of desk (read_question desk (words_in question.now))) trail.old }
{
    if answer.len() < ANSWER_BYTES {
        return 1;
    }
    let mut words = [0u16; QUESTION];
    let mut own = [0u16; TRAIL];
    let n = take_words(question, &mut words);
    let m = most(TRAIL, trail.len() / 2);
    note(&words[..n], &mut own[..m], answer, trail)
}

// Replays a trail on a question: the refusal's number, or 0.
pub fn desk_replay(question: &[u8], trail: &[u8], answer: &mut [u8]) -> u32
    ensures value { result ≡ solve_number (replaying_bytes desk (length answer.old) trail.now question.now) }
    ensures answer_after { answer.new ≡ solve_leaves desk (replaying_bytes desk (length answer.old) trail.now question.now) answer.old }
{
    if answer.len() < ANSWER_BYTES {
        return 1;
    }
    let mut words = [0u16; QUESTION];
    let mut work = [0u16; ROOM];
    let mut own = [0u16; ROOM];
    let n = take_words(question, &mut words);
    let number = solved_number(replay(&words[..n], trail, &mut work, &mut own));
    put_answer(number, &own, answer);
    u32::from(number)
}

// The example in the desk's own room, and then in the bytes lent.
fn show(
    question: &[u16],
    trail: &[u8],
    line: usize,
    old: bool,
    own: &mut [u16],
    room: &mut [u8],
) -> u32
    requires { (length own.old ≤ desk.filling) × (2 * length own.old ≤ length room.old) }
    ensures value { result ≡ show_number (showing_trail desk old desk.room desk.room (length own.old) line (half_word trail.now) (words_of trail.now) question.now) }
    ensures room_after { room.new ≡ show_leaves (showing_trail desk old desk.room desk.room (length own.old) line (half_word trail.now) (words_of trail.now) question.now) room.old }
{
    let mut work = [0u16; ROOM];
    let mut answer = [0u16; ROOM];
    let s = example_trail(question, trail, line, old, &mut work, &mut answer, own);
    let n = shown_length(s);
    // of a refusal that is 0, and nothing is written
    write_words(&own[..n], room);
    // kept: the cast is proved to keep the number, and `u16::try_from(..).unwrap()` would say no more
    told(shown_number(s), n as u16)
}

// Shows the example of a settled line, to which a trail leads: 100 and its length in words, or the refusal's number. Free blanks take the last declared
// symbol where `old` is 0, and else symbol 0.
pub fn desk_example_trail(
    question: &[u8],
    trail: &[u8],
    line: u32,
    old: u32,
    room: &mut [u8],
) -> u32
    ensures value { result ≡ show_number (showing_trail_bytes desk (length room.old) line old trail.now question.now) }
    ensures room_after { room.new ≡ show_leaves (showing_trail_bytes desk (length room.old) line old trail.now question.now) room.old }
{
    let mut words = [0u16; QUESTION];
    let mut own = [0u16; FILLING];
    let n = take_words(question, &mut words);
    let m = most(FILLING, room.len() / 2);
    // kept: there is no `From<u32>` for `usize`
    show(
        &words[..n],
        trail,
        line as usize,
        truth(old),
        &mut own[..m],
        room,
    )
}
