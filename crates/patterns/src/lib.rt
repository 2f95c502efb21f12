// The question of a pair of patterns, made from their bytes: the blanks of each are numbered apart, and the two stand in one equation.
#![tactic(auto)]

ghost use Rattle.std.specs.Prelude.{◌+◌, ◌-◌, ◌*◌, ◌/◌, ◌%◌, ◌≤◌, ◌<◌, ◌≡◌, false, ◌||◌, [], ◌∷◌, ◌++◌, map, eqb, ltb, length, get_or, set, drop};
ghost use Rattle.std.proofs.lemmas.List.Edits.{sets};
ghost use Rattle.language.specs.Limits.{desk};
ghost use Rattle.language.specs.Kinds.{pick, kind_of};
ghost use Rattle.word_bytes.specs.Bytes.{words_of, words_in};
ghost use Rattle.patterns.specs.Blanks.{no_blanks};
ghost use Rattle.patterns.specs.Terms.{closing, one_term};
ghost use Rattle.patterns.specs.Pairs.{of_both, too_many, pair_words, asked, asked_leaves};
ghost use Rattle.patterns.specs.Tables.{Tabled, Noted, renumbered_by, Entered, EnteredOn, Ready};

use bools::{and, or};
use language::limits::{PLACES, QUESTION};
use language::{
    FunVar, HedgeVar, Kind, TermVar, classify, function_word, run_word, term_word, wide,
};
use word_bytes::word_at;

// A place for each number of each kind of blanks.
const TABLE: usize = 3 * PLACES;

// How many blanks of each kind there are.
#[derive(Clone, Copy)]
pub struct Numbers {
    pub terms: usize,
    pub hedges: usize,
    pub functions: usize,
}

// The question of a pair, in the first `len` words of a slice: the first pattern stands in it from word 8 on and has `first` words. `fair` says
// whether each pattern is one term.
#[derive(Clone, Copy)]
pub struct Pair {
    pub len: usize,
    pub first: usize,
    pub terms: usize,
    pub hedges: usize,
    pub fair: bool,
}

// Why two patterns have no question: more blanks of one kind than a question has, or more words.
#[derive(Clone, Copy)]
pub enum Unasked {
    TooMany,
    TooLong,
}

// The bytes of whole words: none of them where their count is odd.
fn even<'a>(bytes: &'a [u8]) -> &'a [u8]
    ensures { (words_of result.now ≡ words_in bytes.now) × (length result.now / 2 ≡ length (words_in bytes.now)) }
{
    if bytes.len() % 2 == 0 {
        return bytes;
    }
    &bytes[0..0]
}

// One blank: where its place is empty it is the next of its kind. How many there are then.
fn note(table: &mut [usize], place: usize, count: usize) -> usize
    requires { (place < length table.old) × (count + 1 < 18446744073709551616) }
    ensures { (result ≡ pick (eqb (get_or table.old place 0) 0) (count + 1) count) × (table.new ≡ pick (eqb (get_or table.old place 0) 0) (set table.old place (count + 1)) table.old) }
{
    if table[place] == 0 {
        table[place] = count + 1;
        return count + 1;
    }
    count
}

// The blanks of a pattern, each noted in the table once.
fn number_blanks(bytes: &[u8], table: &mut [usize]) -> Numbers
    requires { Tabled no_blanks table.old }
    ensures { Noted (words_of bytes.now) result table.new }
{
    let n = bytes.len() / 2;
    let mut terms: usize = 0;
    let mut hedges: usize = 0;
    let mut functions: usize = 0;
    for i in 0..n {
        let word = word_at(bytes, i);
        match classify(word) {
            Kind::Term(x) => terms = note(table, wide(x.0), terms),
            Kind::Run(p) => hedges = note(table, PLACES + wide(p.0), hedges),
            Kind::Function(f) => functions = note(table, PLACES + PLACES + wide(f.0), functions),
            _ => {}
        }
    }
    Numbers {
        terms,
        hedges,
        functions,
    }
}

// Whether the words from `at` on close so many hedges, the last of them with the last word.
fn closes(bytes: &[u8], at: usize, hedges: usize) -> bool
    requires { hedges ≤ at }
    ensures { result ≡ closing hedges (drop at (words_of bytes.now)) }
{
    let n = bytes.len() / 2;
    let mut depth = hedges;
    for i in at..n {
        if depth == 0 {
            return false;
        }
        let word = word_at(bytes, i);
        match classify(word) {
            Kind::End => depth -= 1,
            Kind::Term(_) | Kind::Run(_) => {}
            Kind::Symbol(_) | Kind::Function(_) => depth += 1,
            _ => return false,
        }
    }
    depth == 0
}

// Whether a pattern is exactly one term.
fn is_term(bytes: &[u8]) -> bool
    ensures { result ≡ one_term (words_of bytes.now) }
{
    if bytes.len() / 2 == 0 {
        return false;
    }
    match classify(word_at(bytes, 0)) {
        Kind::Term(_) => closes(bytes, 1, 0),
        Kind::Symbol(_) | Kind::Function(_) => closes(bytes, 1, 1),
        _ => false,
    }
}

// A number as a word.
// kept: the number is promised to fit, so that `u16::try_from` would bring a case that never comes.
fn short(n: usize) -> u16
    requires { n < 65536 }
    ensures { result ≡ n }
{
    n as u16
}

// The number of the blank at a place of the table, behind n others.
fn number_at(table: &[usize], place: usize, n: usize) -> u16
    requires { Entered n table.now place }
    ensures { (result ≡ n + get_or table.now place 0 - 1) × (result < desk.each) }
{
    short(n + table[place] - 1)
}

// A word with its blank numbered by the table, behind as many as n has of its kind.
fn renumbered(word: u16, table: &[usize], n: Numbers) -> u16
    requires { EnteredOn n table.now (kind_of desk word) }
    ensures { result ≡ renumbered_by n table.now word }
{
    match classify(word) {
        Kind::Term(x) => short(term_word(TermVar(number_at(table, wide(x.0), n.terms)))),
        Kind::Run(p) => short(run_word(HedgeVar(number_at(table, PLACES + wide(p.0), n.hedges)))),
        Kind::Function(f) => short(function_word(FunVar(number_at(
            table,
            PLACES + PLACES + wide(f.0),
            n.functions,
        )))),
        _ => word,
    }
}

// A pattern with its blanks numbered so, and an end mark, into the question at a place. The place after them.
fn write_apart(bytes: &[u8], table: &[usize], n: Numbers, question: &mut [u16], at: usize) -> usize
    requires ready { Ready n table.now (words_of bytes.now) }
    requires bytes_in_bounds { at + length bytes.now / 2 < length question.old }
    ensures { (result ≡ at + length bytes.now / 2 + 1) × (question.new ≡ sets question.old at (map (renumbered_by n table.now) (words_of bytes.now) ++ (0 ∷ []))) }
{
    let m = bytes.len() / 2;
    for i in 0..m {
        question[at + i] = renumbered(word_at(bytes, i), table, n);
    }
    question[at + m] = 0;
    at + m + 1
}

// What stands before the two patterns: the header of a question with one conjunction, its offsets, and the mark of an equation.
fn write_head(
    word: u16,
    terms: usize,
    hedges: usize,
    functions: usize,
    len: usize,
    question: &mut [u16],
)
    requires { (terms < 65536) × (hedges < 65536) × (functions < 65536) × (len < 65536) × (8 ≤ length question.old) }
    ensures { question.new ≡ sets question.old 0 (word ∷ terms ∷ hedges ∷ functions ∷ 1 ∷ 7 ∷ len ∷ 5000 ∷ []) }
{
    question[0] = word;
    question[1] = short(terms);
    question[2] = short(hedges);
    question[3] = short(functions);
    question[4] = 1;
    question[5] = 7;
    question[6] = short(len);
    question[7] = 5000;
}

// Whether two numbers together are more than a kind has.
fn past(a: usize, b: usize) -> bool
    ensures { result ≡ ltb desk.each (a + b) }
{
    if PLACES < a {
        return true;
    }
    PLACES - a < b
}

// Whether two patterns together have more blanks of one kind than a question has.
fn too_many(n: Numbers, m: Numbers) -> bool
    ensures { result ≡ (ltb desk.each (n.terms + m.terms) || ltb desk.each (n.hedges + m.hedges) || ltb desk.each (n.functions + m.functions)) }
{
    or(
        or(past(n.terms, m.terms), past(n.hedges, m.hedges)),
        past(n.functions, m.functions),
    )
}

// Whether the question of these patterns is longer than a question may be.
fn too_long(first: &[u8], second: &[u8]) -> bool
    ensures { result ≡ ltb desk.question (10 + (length first.now / 2 + length second.now / 2)) }
{
    if QUESTION < first.len() / 2 {
        return true;
    }
    if QUESTION < second.len() / 2 {
        return true;
    }
    QUESTION < 10 + (first.len() / 2 + second.len() / 2)
}

// The question itself, into a slice that has room for it. Each pattern has its table; n and m are how many blanks they have.
fn write_pair(
    word: u16,
    first: &[u8],
    second: &[u8],
    one: &[usize],
    other: &[usize],
    n: Numbers,
    m: Numbers,
    question: &mut [u16],
)
    requires noted { Noted (words_of first.now) n one.now × Noted (words_of second.now) m other.now }
    requires second_value { too_many (of_both word (words_of first.now) (words_of second.now)) ≡ false }
    requires second_bound { (10 + (length first.now / 2 + length second.now / 2) ≤ desk.question) × (desk.question ≤ length question.old) }
    ensures { question.new ≡ sets question.old 0 (pair_words word (words_of first.now) (words_of second.now)) }
{
    let len = 10 + (first.len() / 2 + second.len() / 2);
    write_head(
        word,
        n.terms + m.terms,
        n.hedges + m.hedges,
        n.functions + m.functions,
        len,
        question,
    );
    let none = Numbers {
        terms: 0,
        hedges: 0,
        functions: 0,
    };
    let at = write_apart(first, one, none, question, 8);
    write_apart(second, other, n, question, at);
}

// Makes the question of a pair of patterns, whose word 0 is `word`: whether their forms become the same report.
pub fn ask(word: u16, first: &[u8], second: &[u8], question: &mut [u16]) -> Result<Pair, Unasked>
    requires { desk.question ≤ length question.old }
    ensures value { result ≡ asked word (words_in first.now) (words_in second.now) }
    ensures question_after { question.new ≡ asked_leaves word (words_in first.now) (words_in second.now) question.old }
{
    let a = even(first);
    let b = even(second);
    let mut one = [0usize; TABLE];
    let mut other = [0usize; TABLE];
    let n = number_blanks(a, &mut one);
    let m = number_blanks(b, &mut other);
    if too_many(n, m) {
        return Err(Unasked::TooMany);
    }
    if too_long(a, b) {
        return Err(Unasked::TooLong);
    }
    write_pair(word, a, b, &one, &other, n, m, question);
    Ok(Pair {
        len: 10 + (a.len() / 2 + b.len() / 2),
        first: a.len() / 2,
        terms: n.terms + m.terms,
        hedges: n.hedges + m.hedges,
        fair: and(is_term(a), is_term(b)),
    })
}
