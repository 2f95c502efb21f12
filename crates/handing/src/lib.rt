// What the calls for C hand to their host: a number, and the bytes lent, by the number that came back from the calls on words.
#![tactic(auto)]

ghost use Rattle.std.specs.Prelude.{◌*◌, ◌≤◌, ◌≡◌, ◌++◌, length, drop, replicate};
ghost use Rattle.outcomes.specs.Numbers.{outcome_number};
ghost use Rattle.handing.specs.Handed.{used, number_or, word_bytes, keeps_bytes, answer_out, trail_out};

use outcomes::{Solved, outcome_number};
use word_bytes::write_words;

// Of so many words, as many as are ever used.
pub fn most(limit: usize, n: usize) -> usize
    ensures { (result ≡ used limit n) × (result ≤ limit) × (result ≤ n) }
{
    n.min(limit)
}

// The refusal's number, or 0.
pub fn solved_number(s: Solved) -> u16
    ensures { result ≡ outcome_number s.outcome }
{
    let outcome = s.outcome;
    outcome_number(outcome)
}

// The refusal's number, or 100 and the value.
pub fn told(number: u16, value: u16) -> u32
    ensures { result ≡ number_or number value }
{
    if number == 0 {
        return 100 + u32::from(value);
    }
    u32::from(number)
}

// 1 to 6 leave all bytes as they are.
fn keeps_bytes(number: u16) -> bool
    ensures { result ≡ keeps_bytes number }
{
    if number == 0 {
        return false;
    }
    number <= 6
}

// The answer's bytes after a call of that number, from the desk's own answer slice.
pub fn put_answer(number: u16, own: &[u16], answer: &mut [u8])
    requires { 2 * length own.now ≤ length answer.old }
    ensures { answer.new ≡ answer_out number own.now answer.old }
{
    if keeps_bytes(number) {
        return;
    }
    write_words(own, answer);
}

// Zeros in every word.
pub fn clear_words(room: &mut [u8])
    ensures { room.new ≡ replicate (word_bytes room.old) 0 ++ drop (word_bytes room.old) room.old }
{
    let end = 2 * (room.len() / 2);
    room[..end].fill(0);
}

// The trail's bytes after a call of that number and so many steps, from the desk's own trail: zeros after a refusal that changes bytes.
pub fn put_trail(number: u16, steps: usize, own: &[u16], trail: &mut [u8])
    requires { (3 * steps ≤ length own.now) × (2 * length own.now ≤ length trail.old) }
    ensures { trail.new ≡ trail_out number steps own.now trail.old }
{
    if keeps_bytes(number) {
        return;
    }
    if number > 0 {
        clear_words(trail);
        return;
    }
    write_words(&own[..3 * steps], trail);
}
