// The values of a filling, read: its count and offsets, the form of each value, and which of the refusals 11 and 12 is given.
#![tactic(auto)]

ghost use Rattle.std.specs.Prelude.{◌≡◌, true, ◌+◌, ◌<◌};
ghost use Rattle.language.specs.Limits.{desk};
ghost use Rattle.language.specs.Kinds.{kind_of};
ghost use Rattle.language.specs.Question.{laid_out, counts_fit};
ghost use Rattle.meaning.specs.Values.{variables, read_filling};
ghost use Rattle.header.specs.Heading.{counts_in};
ghost use Rattle.given.specs.Checking.{plain_on, plain_words, of_form, form_at, Judged, OneTerm, all_of_form, given};

use header::Header;
use language::limits::FILLING;
use language::{Kind, Refusal, classify, wide};

// No variable, and a symbol only if it is declared.
fn is_plain_word(word: u16, symbols: u16) -> bool
    ensures { result ≡ plain_on symbols (kind_of desk word) }
{
    match classify(word) {
        Kind::End => true,
        Kind::Symbol(f) => f.0 < symbols,
        _ => false,
    }
}

fn is_plain(words: &[u16], symbols: u16) -> bool
    ensures { result ≡ plain_words symbols words.now }
{
    for i in 0..words.len() {
        if !is_plain_word(words[i], symbols) {
            return false;
        }
    }
    true
}

// A hedge and its 0, without variables, all of whose symbols are declared.
fn is_complete(h: Header, value: &[u16]) -> bool
    ensures { Judged (counts_in h) value.now result }
{
    match trees::read_hedge(value, 0) {
        Ok(end) => {
            if end != value.len() {
                return false;
            }
            is_plain(value, h.symbols)
        }
        Err(_) => false,
    }
}

// Of a complete hedge: that it is one term. Its children end just before its 0.
fn is_term(value: &[u16]) -> bool
    ensures { OneTerm value.now result }
{
    if value.len() < 2 {
        return false;
    }
    match trees::read_hedge(value, 1) {
        Ok(end) => end == value.len() - 1,
        Err(_) => false,
    }
}

// Whether the value numbered i has the form that its variable takes.
fn value_fits(h: Header, value: &[u16], i: usize) -> bool
    ensures { result ≡ of_form (counts_in h) (form_at (counts_in h) i) value.now }
{
    if !is_complete(h, value) {
        return false;
    }
    let terms = wide(h.terms);
    if i < terms {
        return is_term(value);
    }
    if i < terms + wide(h.hedges) {
        return true;
    }
    value.len() == 3
}

fn values_fit(h: Header, filling: &[u16], n: u16) -> bool
    requires n_value { n ≡ variables (counts_in h) }
    requires filling_value { laid_out 1 n filling.now ≡ true }
    ensures { result ≡ all_of_form (counts_in h) filling.now }
{
    let stop = wide(n) + 2;
    let mut from = stop;
    for i in 2..stop {
        let to = wide(filling[i]);
        if !value_fits(h, &filling[from..to], i - 2) {
            return false;
        }
        from = to;
    }
    true
}

fn count_variables(h: Header) -> u16
    requires { counts_fit desk (counts_in h) h.alternatives ≡ true }
    ensures { result ≡ variables (counts_in h) }
{
    h.terms + (h.hedges + h.functions)
}

// Whether these words are a filling for a question with this header, or which of 11 and 12 is given.
pub fn read_filling(h: Header, filling: &[u16]) -> Result<(), Refusal>
    requires { counts_fit desk (counts_in h) h.alternatives ≡ true }
    ensures { result ≡ given (read_filling desk (counts_in h) filling.now) }
{
    if FILLING < filling.len() {
        return Err(Refusal::FillingLayout);
    }
    if filling.len() < 1 {
        return Err(Refusal::FillingLayout);
    }
    let n = count_variables(h);
    if filling[0] != n {
        return Err(Refusal::FillingLayout);
    }
    if !header::laid_out(filling, 1, n) {
        return Err(Refusal::FillingLayout);
    }
    if !values_fit(h, filling, n) {
        return Err(Refusal::FillingValue);
    }
    Ok(())
}
