// The example of a line of an answer, which is read where it stands.
#![tactic(auto)]

ghost use Rattle.std.specs.Prelude.{◌+◌, ◌<◌, ◌≤◌, length, ◌≡◌};
ghost use Rattle.language.specs.Trees.{Counts};
ghost use Rattle.rules.specs.Example.{default_symbol};
ghost use Rattle.answers.specs.Lined.{line_head};
ghost use Rattle.values.specs.Values.{SettledLine};
ghost use Rattle.answer_example.specs.Answers.{Ranged, Answered, LineIn, WordsShown, PartShown, AnswerShown};

use answers::LINE_HEAD;
use language::{Refusal, Sym};
use line_example::fill_line;
use words::word;

// The symbol that free blanks take: the last declared one, and for old training sheets the first.
fn default_symbol(symbols: u16, old: bool) -> Sym
    requires { 0 < symbols }
    ensures { (result.0 < symbols) × ((n : Counts) → n.symbols ≡ symbols → result ≡ default_symbol old n) }
{
    let last = symbols - 1;
    if old { Sym(0) } else { Sym(last) }
}

// The example of the line that these words are, with the symbols and the variables that a question declares.
fn show_words(question: &[u16], old: bool, k: &[u16], room: &mut [u16]) -> Result<usize, Refusal>
    requires { Ranged question.now × (length k.now ≤ 65536) × SettledLine k.now }
    ensures { WordsShown question.now old k.now room.old room.new result }
{
    let terms = usize::from(question[1]);
    let hedges = usize::from(question[2]);
    let functions = usize::from(question[3]);
    let any = default_symbol(question[0] % 256, old);
    fill_line(k, terms, hedges, functions, any, room)
}

// The example of the line that stands in a part of an answer, its mark first and then its number.
fn show_part(
    question: &[u16],
    old: bool,
    answer: &[u16],
    from: usize,
    to: usize,
    room: &mut [u16],
) -> Result<usize, Refusal>
    requires { Ranged question.now × (from + line_head ≤ to) × (to ≤ length answer.now) × (to ≤ 65536) × LineIn answer.now from to }
    ensures { PartShown question.now old answer.now from to room.old room.new result }
{
    let mark = word(answer, from);
    if mark != 1 {
        return Err(Refusal::OpenLine);
    }
    show_words(question, old, &answer[from + LINE_HEAD..to], room)
}

// The example of a line of an answer, read where it stands. `old` is for old training sheets.
pub fn show_line(
    question: &[u16],
    line: usize,
    old: bool,
    answer: &[u16],
    room: &mut [u16],
) -> Result<usize, Refusal>
    requires { Ranged question.now × Answered answer.now }
    ensures { AnswerShown question.now line old answer.now room.old room.new result }
{
    let lines = usize::from(word(answer, 0));
    if lines <= line {
        return Err(Refusal::NoSuchLine);
    }
    let from = usize::from(word(answer, line + 2));
    let to = usize::from(word(answer, line + 3));
    show_part(question, old, answer, from, to, room)
}
