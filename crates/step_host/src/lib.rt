// The call of the control room's host that makes one named step: bytes and numbers around the call on words. The slices that it is lent are arrays of
// the desk's own, cleared at the start.
#![tactic(auto)]

ghost use Rattle.std.specs.Prelude.{◌*◌, ◌≤◌, ◌≡◌, length};
ghost use Rattle.language.specs.Limits.{desk};
ghost use Rattle.language.specs.Numbers.{number_of};
ghost use Rattle.telling.specs.Telling.{triple_of};
ghost use Rattle.step_host.specs.Host.{word_from, naming_bytes, step_number, step_leaves};
ghost use Rattle.step_host.specs.Refused.{refused_leaves};

use language::Refusal;
use language::limits::{ANSWER_BYTES, QUESTION, ROOM};
use named_steps::step_named;
use refusals::number;
use word_bytes::{take_words, write_words};

// A number as a word; one that is no word stands for the last one, which names no rule, no literal and no side.
fn word(n: u32) -> u16
    ensures { result ≡ word_from n }
{
    if n <= 65535 {
        return n as u16;
    }
    65535
}

// The refusal's number: the room is unchanged after 1 to 6, and else has the desk's own words, which are zeros then.
fn refuse(refusal: Refusal, own: &[u16], room: &mut [u8]) -> u32
    requires { 2 * length own.now ≤ length room.old }
    ensures value { result ≡ number_of refusal }
    ensures room_after { room.new ≡ refused_leaves (number_of refusal) own.now room.old }
{
    let n = number(refusal);
    if n <= 6 {
        return n as u32;
    }
    write_words(own, room);
    n as u32
}

// Makes one named step of a question of one alternative: 100 and the word of the room where the results begin, or the refusal's number.
pub fn desk_step(
    question: &[u8],
    number: u32,
    rule: u32,
    literal: u32,
    side: u32,
    room: &mut [u8],
) -> u32
    ensures value { result ≡ step_number (word_from number) (naming_bytes desk (length room.old) (word_from number) (triple_of (word_from rule) (word_from literal) (word_from side)) question.now) }
    ensures room_after { room.new ≡ step_leaves (word_from number) (naming_bytes desk (length room.old) (word_from number) (triple_of (word_from rule) (word_from literal) (word_from side)) question.now) room.old }
{
    if room.len() < ANSWER_BYTES {
        return 1;
    }
    let mut words = [0u16; QUESTION];
    let mut own = [0u16; ROOM];
    let n = take_words(question, &mut words);
    let w = word(number);
    let r = word(rule);
    let l = word(literal);
    let s = word(side);
    match step_named(&words[..n], w, r, l, s, &mut own) {
        Ok(at) => {
            write_words(&own, room);
            100 + at as u32
        }
        Err(x) => refuse(x, &own, room),
    }
}
