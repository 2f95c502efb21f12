// A question as a text, in the room lent.
#![tactic(auto)]

mod bytes;
mod lines;
mod numbers;
mod shapes;
mod sides;

ghost use Rattle.std.specs.Prelude.{◌≡◌, length};
ghost use Rattle.language.specs.Limits.{desk};
ghost use Rattle.texts.specs.Outcomes.{writes_text};
ghost use Rattle.write_text.specs.Writes.{written_by, left_by};

use language::Refusal;
use lines::put_lines;
use numbers::is_numbered;
use reader::read_question;

// The place after a tree in the words, and the place after what was written of it.
#[derive(Clone, Copy)]
struct Wrote {
    end: usize,
    to: usize,
}

// The text of a question, in the room lent, and how many bytes it has; or why there is none. It is counted first, and written if there is room for all of it.
pub fn write_text(question: &[u16], room: &mut [u8]) -> Result<usize, Refusal>
    ensures value { result ≡ written_by (writes_text desk (length room.old) question.now) }
    ensures room_after { room.new ≡ left_by (writes_text desk (length room.old) question.now) room.old }
{
    read_question(question)?;
    if !is_numbered(question) {
        return Err(Refusal::OtherNumbers);
    }
    let stop = room.len() + 1;
    let mut nowhere = [0u8; 1];
    let n = put_lines(question, &mut nowhere, stop);
    if n == stop {
        return Err(Refusal::LongText);
    }
    put_lines(question, room, stop);
    Ok(n)
}
