// The desk, for C programs: the calls of the control room's host under the names that include/desk.h declares. Each says what the library's own function
// of that name says, word for word, and only calls it.
#![tactic(auto)]

ghost use Rattle.std.specs.Prelude.{◌≡◌, length};
ghost use Rattle.language.specs.Limits.{desk};
ghost use Rattle.language.specs.Question.{read_question};
ghost use Rattle.word_bytes.specs.Bytes.{words_in};
ghost use Rattle.try_host.specs.Host.{trying_bytes, TryNumber, place_bytes};
ghost use Rattle.host.specs.Host.{solving_bytes, solve_number, solve_leaves, showing_bytes, show_number, show_leaves, day_bytes};
ghost use Rattle.day.specs.Leaves.{day_number, room_leaves};
ghost use Rattle.replay.specs.Calls.{trail_of};
ghost use Rattle.trail_host.specs.Host.{trailing_bytes, trail_number, trail_bytes, replaying_bytes, showing_trail_bytes};
ghost use Rattle.telling.specs.Telling.{triple_of};
ghost use Rattle.step_host.specs.Host.{word_from, naming_bytes, step_number, step_leaves};
ghost use Rattle.write_text.specs.Writes.{left_by};
ghost use Rattle.text_host.specs.Texts.{writing_bytes, reading_bytes, text_number, words_left};

// Whether a filling meets a question: 101 for yes, 100 for no, or the refusal's number.
#[unsafe(no_mangle)]
pub extern "C" fn desk_try(question: &[u8], filling: &[u8]) -> u32
    ensures { TryNumber (trying_bytes desk question.now filling.now) result }
{
    try_host::desk_try(question, filling)
}

// Where the mistake is for which a question is refused: its place among the question's words, for 5 and 6, and else 0.
#[unsafe(no_mangle)]
pub extern "C" fn desk_place(question: &[u8]) -> u32
    ensures { result ≡ place_bytes desk question.now }
{
    try_host::desk_place(question)
}

// Solves a question: the refusal's number, or 0.
#[unsafe(no_mangle)]
pub extern "C" fn desk_solve(question: &[u8], answer: &mut [u8]) -> u32
    ensures value { result ≡ solve_number (solving_bytes desk (length answer.old) question.now) }
    ensures answer_after { answer.new ≡ solve_leaves desk (solving_bytes desk (length answer.old) question.now) answer.old }
{
    host::desk_solve(question, answer)
}

// Shows the example of a settled line: 100 and its length in words, or the refusal's number. Free blanks take the last declared symbol where `old`
// is 0, and else symbol 0.
#[unsafe(no_mangle)]
pub extern "C" fn desk_example(question: &[u8], line: u32, old: u32, room: &mut [u8]) -> u32
    ensures value { result ≡ show_number (showing_bytes desk (length room.old) line old question.now) }
    ensures room_after { room.new ≡ show_leaves (showing_bytes desk (length room.old) line old question.now) room.old }
{
    host::desk_example(question, line, old, room)
}

// Answers a day's sheet: the refusal's number, or 0.
#[unsafe(no_mangle)]
pub extern "C" fn desk_day(sheet: &[u8], room: &mut [u8]) -> u32
    ensures value { result ≡ day_number (day_bytes desk (length room.old) sheet.now) }
    ensures room_after { room.new ≡ room_leaves (day_bytes desk (length room.old) sheet.now) room.old }
{
    host::desk_day(sheet, room)
}

// Solves a question and writes its trail: 100 and the steps made, or the refusal's number.
#[unsafe(no_mangle)]
pub extern "C" fn desk_solve_trail(question: &[u8], answer: &mut [u8], trail: &mut [u8]) -> u32
    ensures value { result ≡ trail_number (trailing_bytes desk (length answer.old) (length trail.old) question.now) }
    ensures answer_after { answer.new ≡ solve_leaves desk (trailing_bytes desk (length answer.old) (length trail.old) question.now) answer.old }
    ensures trail_after { trail.new ≡ trail_bytes (trailing_bytes desk (length answer.old) (length trail.old) question.now) (trail_of desk (read_question desk (words_in question.now))) trail.old }
{
    trail_host::desk_solve_trail(question, answer, trail)
}

// Replays a trail on a question: the refusal's number, or 0.
#[unsafe(no_mangle)]
pub extern "C" fn desk_replay(question: &[u8], trail: &[u8], answer: &mut [u8]) -> u32
    ensures value { result ≡ solve_number (replaying_bytes desk (length answer.old) trail.now question.now) }
    ensures answer_after { answer.new ≡ solve_leaves desk (replaying_bytes desk (length answer.old) trail.now question.now) answer.old }
{
    trail_host::desk_replay(question, trail, answer)
}

// Shows the example of a settled line, to which a trail leads: 100 and its length in words, or the refusal's number. Free blanks take the last declared
// symbol where `old` is 0, and else symbol 0.
#[unsafe(no_mangle)]
pub extern "C" fn desk_example_trail(
    question: &[u8],
    trail: &[u8],
    line: u32,
    old: u32,
    room: &mut [u8],
) -> u32
    ensures value { result ≡ show_number (showing_trail_bytes desk (length room.old) line old trail.now question.now) }
    ensures room_after { room.new ≡ show_leaves (showing_trail_bytes desk (length room.old) line old trail.now question.now) room.old }
{
    trail_host::desk_example_trail(question, trail, line, old, room)
}

// Makes one named step of a question of one alternative: 100 and the word of the room where the results begin, or the refusal's number.
#[unsafe(no_mangle)]
pub extern "C" fn desk_step(
    question: &[u8],
    number: u32,
    rule: u32,
    literal: u32,
    side: u32,
    room: &mut [u8],
) -> u32
    ensures value { result ≡ step_number (word_from number) (naming_bytes desk (length room.old) (word_from number) (triple_of (word_from rule) (word_from literal) (word_from side)) question.now) }
    ensures room_after { room.new ≡ step_leaves (word_from number) (naming_bytes desk (length room.old) (word_from number) (triple_of (word_from rule) (word_from literal) (word_from side)) question.now) room.old }
{
    step_host::desk_step(question, number, rule, literal, side, room)
}

// Writes a question as a text: 100 and its length in bytes, or the refusal's number.
#[unsafe(no_mangle)]
pub extern "C" fn desk_write_text(question: &[u8], room: &mut [u8]) -> u32
    ensures value { result ≡ text_number (writing_bytes desk (length room.old) question.now) }
    ensures room_after { room.new ≡ left_by (writing_bytes desk (length room.old) question.now) room.old }
{
    text_host::desk_write_text(question, room)
}

// Reads a text as a question: 100 and its length in words, or the refusal's number.
#[unsafe(no_mangle)]
pub extern "C" fn desk_read_text(text: &[u8], room: &mut [u8]) -> u32
    ensures value { result ≡ text_number (reading_bytes desk (length room.old) text.now) }
    ensures room_after { room.new ≡ words_left (reading_bytes desk (length room.old) text.now) room.old }
{
    text_host::desk_read_text(text, room)
}
