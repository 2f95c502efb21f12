// Why a call refuses and what to do about it, in a sentence each for every number of the table.
use language::Refusal;
use refusals::number;
use std::io::Stderr;

// What a refusal means, and what whoever asked can do. The last three come from no call that the desk at its prompt makes.
fn reason(r: Refusal) -> &'static str {
    match r {
        Refusal::ShortSlice => "a lent slice is too short.\nThis is a fault of the program.",
        Refusal::QuestionLength =>
            "the question has under 6 or over 4,096 words.\nLook for words that are left out, or ask in several questions.",
        Refusal::CountRange =>
            "a count of the question is out of range.\nThe first five words count symbols (1 to 128, and 256 times as many as are unordered, at most all of them), term, hedge and function variables (0 to 128 each) and conjunctions (0 to 16).",
        Refusal::BadOffset =>
            "an offset of the question is missing or out of place.\nFor c conjunctions c + 1 offsets follow the counts: the first is 6 + c, none is less than the one before it, the last is the number of words.",
        Refusal::NotLiterals(_) =>
            "a conjunction of the question is not exactly literals.\nA literal is 5000, a hedge, 0, a hedge, 0; or 6000, a hedge, 0, an expression. Look for a 0 too many or too few, and whether the offsets stand where conjunctions end.",
        Refusal::Undeclared(_) =>
            "the question has a number that it does not declare.\nRaise its count among the first four words, or correct it: with two symbols these are 3000 and 3001.",
        Refusal::LongResult =>
            "a step's result is longer than 4,096 words.\nAsk a smaller question.",
        Refusal::LongWaiting =>
            "the waiting conjunctions take more than 16,384 words together.\nAsk about one alternative at a time, or add what is known.",
        Refusal::LineRoom =>
            "there is a 513th line, or a line past the end of the answer.\nAsk about one alternative at a time, or add what is known.",
        Refusal::StepLimit =>
            "10,000 steps are made and a rule still applies.\nAsk about one alternative at a time, or add what is known.",
        Refusal::FillingLayout =>
            "the filling's length, count or offsets are not right.\nIt has at most 4,096 words: the number n of the question's variables, n + 1 offsets, of which the first is n + 2 and the last the number of words, and the values.",
        Refusal::FillingValue =>
            "a value of the filling has the wrong form or a symbol that is not declared.\nA term variable takes one term, a hedge variable any hedge, a function variable one symbol without children, all without variables, and a 0 ends each value.",
        Refusal::LongLiteral =>
            "a literal of the question, filled in, is longer than 8,192 words.\nTry a shorter filling.",
        Refusal::NoSuchLine =>
            "there is no such line.\nThe first line is 0, and desk solve shows them all.",
        Refusal::OpenLine =>
            "the line is open.\nOnly a settled line has an example, and desk solve says which are.",
        Refusal::LongExample =>
            "the example is longer than 4,096 words.\nThere is one all the same: desk solve shows its line.",
        Refusal::NotText =>
            "it is not a text of the grammar.\ndocs/TEXT.md says what a text is: names, ?one *run %name, = and in, commas and round brackets, one alternative to a line.",
        Refusal::ManyNames =>
            "the text has more names of one kind, or more lines, than a question can count.\nAsk in several questions: 128 names of each kind, 16 lines.",
        Refusal::LongText =>
            "it is longer than a question may be, or than the room.\nAsk a smaller question.",
        Refusal::OtherNumbers =>
            "the question is numbered or counted otherwise than a text would be.\nNumber the names of each kind in the order in which they first stand in the words, and declare only those.",
        Refusal::LongWalk =>
            "two shape tests of one blank lead to more than 4,096 pairs of shapes when they are compared.\nAsk with shorter shape tests of that blank, or with one of them alone.",
        Refusal::BadStep =>
            "a step of the trail does not apply.\nIts three words are the place of a rule in the list, the place of a literal, both from 0, and 1 where its sides are swapped, else 0; desk trail writes a trail that applies.",
        Refusal::ShortTrail =>
            "the trail ends early or within a step.\nSome rule still applies where it ends; desk trail writes a whole one.",
        Refusal::LongTrail =>
            "the trail goes on after the end.\nNo rule applies any more there: leave out what stands behind.",
        Refusal::SheetLayout | Refusal::LongAnswers | Refusal::TrailRoom =>
            "no number of the table.\nThis is a fault of the program.",
    }
}

pub fn refusal(err: Stderr, r: Refusal) {
    let n = number(r);
    let reason = reason(r);
    let _ = println!(err; "desk: refused, number {n}: {reason}");
}
