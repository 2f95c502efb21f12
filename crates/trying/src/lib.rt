// Trying a filling: whether it meets a question, or why that cannot be said.
#![tactic(auto)]

ghost use Rattle.std.specs.Prelude.{◌+◌, ◌≤◌, ◌<◌, length};
ghost use Rattle.language.specs.Limits.{desk};
ghost use Rattle.rules.specs.Calls.{trying};
ghost use Rattle.header.specs.Heading.{counts_in};
ghost use Rattle.filling.specs.Showing.{filled, Shows};
ghost use Rattle.trying.specs.Tasks.{FirstEnd, Comparable, EquationMet, Testable, MembershipMet, FittingLiteral, LiteralMet, LiteralEnd, SomeConj, FittingConj, ConjTooLong, ConjMet, SomeQuestion, FittingQuestion, QuestionTooLong, QuestionMet, AskedQuestion};
ghost use Rattle.trying.specs.Outcome.{ToldOutcome, TriedGiven, TriedAsked};

use header::Header;
use language::limits::{LITERAL, ROOM};
use language::{Refusal, Signature};
use slices::clear;

// ---- A literal.

// The place after its first hedge.
fn first_end(literal: &[u16]) -> usize
    ensures { FirstEnd literal.now result }
{
    match trees::read_hedge(literal, 1) {
        Ok(end) => end,
        Err(place) => place,
    }
}

// Both sides are written into the work slice, one after the other.
fn meets_equation<'a>(
    filling: &'a [u16],
    left: &'a [u16],
    right: &'a [u16],
    terms: usize,
    hedges: usize,
    s: Signature,
    work: &mut [u16],
) -> bool
    requires shows { Shows terms hedges filling.now left.now }
    requires shows_2 { Shows terms hedges filling.now right.now }
    requires comparable { Comparable terms hedges filling.now left.now right.now }
    requires right_len_bound { length (filled terms hedges filling.now left.now) + length (filled terms hedges filling.now right.now) ≤ desk.literal }
    requires room_in_bounds { desk.room ≤ length work.old }
    ensures { EquationMet s terms hedges filling.now left.now right.now work.old work.new result }
{
    let mid = filling::fill_in(filling, left, terms, hedges, work, 0);
    let end = filling::fill_in(filling, right, terms, hedges, work, mid);
    let words = &work[..];
    alike::same(&words[0..end], mid, s)
}

// The hedge is written into the work slice.
fn meets_membership<'a>(
    filling: &'a [u16],
    hedge: &'a [u16],
    expression: &'a [u16],
    terms: usize,
    hedges: usize,
    s: Signature,
    work: &mut [u16],
) -> bool
    requires shows { Shows terms hedges filling.now hedge.now }
    requires testable { Testable terms hedges filling.now hedge.now expression.now }
    requires expression_len_bound { length expression.now ≤ desk.question }
    requires hedge_len_bound { length (filled terms hedges filling.now hedge.now) ≤ desk.literal }
    requires room_in_bounds { desk.room ≤ length work.old }
    ensures { MembershipMet s terms hedges filling.now hedge.now expression.now work.old work.new result }
{
    let end = filling::fill_in(filling, hedge, terms, hedges, work, 0);
    let words = &work[..];
    member::member(s, expression, 0, &words[0..end], 0)
}

fn meets_literal<'a>(h: Header, filling: &'a [u16], literal: &'a [u16], work: &mut [u16]) -> bool
    requires fitting_literal { FittingLiteral (counts_in h) filling.now literal.now }
    requires room_in_bounds { desk.room ≤ length work.old }
    ensures { LiteralMet (counts_in h) filling.now literal.now work.old work.new result }
{
    let terms = usize::from(h.terms);
    let hedges = usize::from(h.hedges);
    let s = Signature {
        symbols: h.symbols,
        unordered: h.unordered,
    };
    let mid = first_end(literal);
    let end = literal.len();
    if literal[0] == 5000 {
        return meets_equation(
            filling,
            &literal[1..mid],
            &literal[mid..end],
            terms,
            hedges,
            s,
            work,
        );
    }
    meets_membership(
        filling,
        &literal[1..mid],
        &literal[mid..end],
        terms,
        hedges,
        s,
        work,
    )
}

// ---- A conjunction.

// The place after the literal at `at`.
fn literal_end(conj: &[u16], at: usize) -> usize
    ensures { LiteralEnd conj.now at result }
{
    match trees::read_literal(conj, at) {
        Ok(end) => end,
        Err(place) => place,
    }
}

// Whether one of its literals, filled in, is too long.
fn too_long<'a>(h: Header, filling: &'a [u16], conj: &'a [u16]) -> bool
    requires { SomeConj (counts_in h) filling.now conj.now }
    ensures { ConjTooLong (counts_in h) filling.now conj.now result }
{
    let mut i: usize = 0;
    while i < conj.len() {
        let end = literal_end(conj, i);
        let terms = usize::from(h.terms);
        let hedges = usize::from(h.hedges);
        if LITERAL < filling::filled_len(filling, &conj[i..end], terms, hedges) {
            return true;
        }
        i = end;
    }
    false
}

// Whether all its literals are met.
fn meets_all<'a>(h: Header, filling: &'a [u16], conj: &'a [u16], work: &mut [u16]) -> bool
    requires fitting_conj { FittingConj (counts_in h) filling.now conj.now }
    requires room_in_bounds { desk.room ≤ length work.old }
    ensures { ConjMet (counts_in h) filling.now conj.now work.old work.new result }
{
    let mut i: usize = 0;
    while i < conj.len() {
        let end = literal_end(conj, i);
        if !meets_literal(h, filling, &conj[i..end], work) {
            return false;
        }
        i = end;
    }
    true
}

// ---- A question.

// Whether some literal of the question, filled in, is too long: of all its alternatives, before any is tested.
fn any_too_long<'a>(h: Header, filling: &'a [u16], question: &'a [u16]) -> bool
    requires { SomeQuestion h filling.now question.now }
    ensures { QuestionTooLong h filling.now question.now result }
{
    let n = usize::from(h.alternatives);
    for i in 0..n {
        let from = usize::from(question[5 + i]);
        let to = usize::from(question[6 + i]);
        if too_long(h, filling, &question[from..to]) {
            return true;
        }
    }
    false
}

// Whether one of its alternatives is met.
fn meets_one<'a>(h: Header, filling: &'a [u16], question: &'a [u16], work: &mut [u16]) -> bool
    requires fitting_question { FittingQuestion h filling.now question.now }
    requires room_in_bounds { desk.room ≤ length work.old }
    ensures { QuestionMet h filling.now question.now work.old work.new result }
{
    let n = usize::from(h.alternatives);
    for i in 0..n {
        let from = usize::from(question[5 + i]);
        let to = usize::from(question[6 + i]);
        if meets_all(h, filling, &question[from..to], work) {
            return true;
        }
    }
    false
}

// ---- The call.

// For a question and a filling that are not refused: 13, or the answer.
fn try_given<'a>(
    h: Header,
    question: &'a [u16],
    filling: &'a [u16],
    work: &mut [u16],
) -> Result<bool, Refusal>
    requires some_question { SomeQuestion h filling.now question.now }
    requires room_in_bounds { desk.room ≤ length work.old }
    ensures { TriedGiven h filling.now question.now result work.old work.new }
{
    if any_too_long(h, filling, question) {
        clear(work);
        return Err(Refusal::LongLiteral);
    }
    let met = meets_one(h, filling, question, work);
    clear(work);
    if met {
        return Ok(true);
    }
    Ok(false)
}

// For a question that is not refused: 11 and 12 come next.
fn try_asked<'a>(
    h: Header,
    question: &'a [u16],
    filling: &'a [u16],
    work: &mut [u16],
) -> Result<bool, Refusal>
    requires asked_question { AskedQuestion h question.now }
    requires room_in_bounds { desk.room ≤ length work.old }
    ensures { TriedAsked h filling.now question.now result work.old work.new }
{
    match given::read_filling(h, filling) {
        Err(refusal) => Err(refusal),
        Ok(()) => try_given(h, question, filling, work),
    }
}

// Whether the filling meets the question; or 1 to 6, 11, 12 with the work slice as it was; or 13. Else it is left with zeros.
pub fn try_filling<'a>(
    question: &'a [u16],
    filling: &'a [u16],
    work: &mut [u16],
) -> Result<bool, Refusal>
    ensures { ToldOutcome (trying desk (length work.old) question.now filling.now) result work.old work.new }
{
    if work.len() < ROOM {
        return Err(Refusal::ShortSlice);
    }
    match reader::read_question(question) {
        Err(mistake) => Err(mistake),
        Ok(()) => {
            let h = header::read_header(question);
            try_asked(h, question, filling, work)
        }
    }
}
