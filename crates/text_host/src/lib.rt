// The host's calls on texts: bytes and numbers around the calls on words.
#![tactic(auto)]

ghost use Rattle.std.specs.Prelude.{◌+◌, ◌*◌, ◌≤◌, ◌≡◌, length, take};
ghost use Rattle.std.proofs.lemmas.List.Edits.{sets};
ghost use Rattle.language.specs.Limits.{desk};
ghost use Rattle.texts.specs.Outcomes.{reads_text};
ghost use Rattle.word_bytes.specs.Bytes.{bytes_of};
ghost use Rattle.write_text.specs.Writes.{left_by};
ghost use Rattle.text_host.specs.Texts.{writing_bytes, reading_bytes, text_number, words_left, given_number, given_words};

use language::Refusal;
use language::limits::QUESTION;
use read_text::read_text;
use refusals::number;
use word_bytes::{take_words, write_words};
use write_text::write_text;

// 100 and how many bytes were written, or the refusal's number. No text has more bytes than a u32 can tell.
fn told(given: Result<usize, Refusal>) -> u32
    requires { given_number given ≤ 100 + 65535 }
    ensures { result ≡ given_number given }
{
    match given {
        Ok(n) => 100 + n as u32,
        Err(r) => u32::from(number(r)),
    }
}

// Writes a question as a text: 100 and its length in bytes, or the refusal's number.
pub fn desk_write_text(question: &[u8], room: &mut [u8]) -> u32
    ensures value { result ≡ text_number (writing_bytes desk (length room.old) question.now) }
    ensures room_after { room.new ≡ left_by (writing_bytes desk (length room.old) question.now) room.old }
{
    let mut words = [0u16; QUESTION];
    let n = take_words(question, &mut words);
    told(write_text(&words[..n], room))
}

// 100 and the words that were read, which are written to the room, or the refusal's number.
fn give(read: Result<usize, Refusal>, own: &[u16], room: &mut [u8]) -> u32
    requires { (given_words read ≤ desk.question) × (given_words read ≤ length own.now) × (2 * length own.now ≤ length room.old) }
    ensures value { result ≡ given_number read }
    ensures room_after { room.new ≡ sets room.old 0 (bytes_of (take (given_words read) own.now)) }
{
    match read {
        Ok(n) => {
            write_words(&own[..n], room);
            100 + n as u32
        }
        Err(r) => u32::from(number(r)),
    }
}

// The words in the desk's own room, and then in the bytes lent.
fn read(text: &[u8], own: &mut [u16], room: &mut [u8]) -> u32
    requires { 2 * length own.old ≤ length room.old }
    ensures value { result ≡ text_number (reads_text desk (length own.old) text.now) }
    ensures room_after { room.new ≡ words_left (reads_text desk (length own.old) text.now) room.old }
{
    give(read_text(text, own), own, room)
}

// Reads a text as a question: 100 and its length in words, or the refusal's number.
pub fn desk_read_text(text: &[u8], room: &mut [u8]) -> u32
    ensures value { result ≡ text_number (reading_bytes desk (length room.old) text.now) }
    ensures room_after { room.new ≡ words_left (reading_bytes desk (length room.old) text.now) room.old }
{
    let mut own = [0u16; QUESTION];
    let m = (room.len() / 2).min(QUESTION);
    read(text, &mut own[..m], room)
}
