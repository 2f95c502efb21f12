// A refusal in numbers: which of the table it is, and where the mistake is.
#![tactic(auto)]

ghost use Rattle.std.specs.Prelude.{◌≡◌};
ghost use Rattle.language.specs.Numbers.{number_of, place_of};

use language::Refusal;

// The number that stands in the table.
pub fn number(refusal: Refusal) -> u16
    ensures { result ≡ number_of refusal }
{
    match refusal {
        Refusal::ShortSlice => 1,
        Refusal::QuestionLength => 2,
        Refusal::CountRange => 3,
        Refusal::BadOffset => 4,
        Refusal::NotLiterals(_) => 5,
        Refusal::Undeclared(_) => 6,
        Refusal::LongResult => 7,
        Refusal::LongWaiting => 8,
        Refusal::LineRoom => 9,
        Refusal::StepLimit => 10,
        Refusal::FillingLayout => 11,
        Refusal::FillingValue => 12,
        Refusal::LongLiteral => 13,
        Refusal::NoSuchLine => 14,
        Refusal::OpenLine => 15,
        Refusal::LongExample => 16,
        Refusal::NotText => 17,
        Refusal::ManyNames => 18,
        Refusal::LongText => 19,
        Refusal::OtherNumbers => 20,
        Refusal::LongWalk => 21,
        Refusal::SheetLayout => 22,
        Refusal::LongAnswers => 23,
        Refusal::BadStep => 26,
        Refusal::ShortTrail => 27,
        Refusal::LongTrail => 28,
        Refusal::TrailRoom => 29,
    }
}

// The place of the mistake among the question's words, 0 where no word of it is to blame.
pub fn place(refusal: Refusal) -> usize
    ensures { result ≡ place_of refusal }
{
    match refusal {
        Refusal::ShortSlice => 0,
        Refusal::QuestionLength => 0,
        Refusal::CountRange => 0,
        Refusal::BadOffset => 0,
        Refusal::NotLiterals(at) => at,
        Refusal::Undeclared(at) => at,
        Refusal::LongResult => 0,
        Refusal::LongWaiting => 0,
        Refusal::LineRoom => 0,
        Refusal::StepLimit => 0,
        Refusal::FillingLayout => 0,
        Refusal::FillingValue => 0,
        Refusal::LongLiteral => 0,
        Refusal::NoSuchLine => 0,
        Refusal::OpenLine => 0,
        Refusal::LongExample => 0,
        Refusal::NotText => 0,
        Refusal::ManyNames => 0,
        Refusal::LongText => 0,
        Refusal::OtherNumbers => 0,
        Refusal::LongWalk => 0,
        Refusal::SheetLayout => 0,
        Refusal::LongAnswers => 0,
        Refusal::BadStep => 0,
        Refusal::ShortTrail => 0,
        Refusal::LongTrail => 0,
        Refusal::TrailRoom => 0,
    }
}
