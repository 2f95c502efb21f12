// A question written as a text, and a text as words. The commands print, and return their status.
#![tactic(auto)]

use files::status::{Status, found};
use files::{TOO_MANY, load_question};
use language::limits::QUESTION;
use print::say;
use replies::{no_question, refuse};
use wording::answer::words;
use write_text::write_text;

// More bytes than the text of any question has.
const BYTES: usize = 65536;

// The first bytes of the room.
fn say_first(rt: &HostRuntime, room: &[u8], n: usize) {
    if let Some(text) = room.get(0..n) {
        say(rt.stdout(), text);
    }
}

fn write(rt: &HostRuntime, question: &[u16], text: &[u8], i: usize) -> Status {
    let mut room = [0u8; BYTES];
    match write_text(question, &mut room) {
        Ok(n) => {
            say_first(rt, &room, n);
            found()
        }
        Err(r) => refuse(rt, r, question, text, i),
    }
}

fn list(rt: &HostRuntime, question: &[u16]) -> Status {
    words(rt.stdout(), question);
    found()
}

// What is made of the question of the file that argument `i` names, and of its bytes.
fn with_question<F: Fn(&[u16], &[u8]) -> Status>(rt: &HostRuntime, i: usize, made: F) -> Status
    requires { F.IsAlwaysCallable made }
{
    let mut buf = [0u8; TOO_MANY];
    let mut words = [0u16; 2 * QUESTION];
    match load_question(rt, i, &mut buf, &mut words) {
        Ok(t) => made(&words[0..t.words], &buf[0..t.bytes]),
        Err(u) => no_question(rt, u.refusal, &buf[0..u.bytes], i),
    }
}

pub fn text_file(rt: &HostRuntime, i: usize) -> Status {
    with_question(rt, i, |question, text| write(rt, question, text, i))
}

pub fn words_file(rt: &HostRuntime, i: usize) -> Status {
    with_question(rt, i, |question, _| list(rt, question))
}
