// The calls of the control room's host that solve nothing: bytes and numbers around the calls on words. The slices that a call on words is lent are
// arrays of the desk's own, cleared at the start.
#![tactic(auto)]

ghost use Rattle.std.specs.Prelude.{◌≡◌};
ghost use Rattle.language.specs.Limits.{desk};
ghost use Rattle.try_host.specs.Host.{trying_bytes, TryNumber, place_bytes};

use handing::told;
use language::limits::{FILLING, QUESTION, ROOM};
use outcomes::{tried_number, tried_value};
use refusals::place;
use word_bytes::take_words;

// Whether a filling meets a question: 101 for yes, 100 for no, or the refusal's number.
pub fn desk_try(question: &[u8], filling: &[u8]) -> u32
    ensures { TryNumber (trying_bytes desk question.now filling.now) result }
{
    let mut words = [0u16; QUESTION];
    let mut values = [0u16; FILLING];
    let mut work = [0u16; ROOM];
    let n = take_words(question, &mut words);
    let m = take_words(filling, &mut values);
    let t = trying::try_filling(&words[..n], &values[..m], &mut work);
    told(tried_number(t), tried_value(t))
}

// Where the mistake is for which a question is refused: its place among the question's words, for 5 and 6, and else 0.
pub fn desk_place(question: &[u8]) -> u32
    ensures { result ≡ place_bytes desk question.now }
{
    let mut words = [0u16; QUESTION];
    let n = take_words(question, &mut words);
    match reader::read_question(&words[..n]) {
        Ok(()) => 0,
        // kept: the cast is proved to keep the number, and `u32::try_from(..).unwrap()` would say no more
        Err(r) => place(r) as u32,
    }
}
