// The first number in a question's words that is not declared.
#![tactic(auto)]

ghost use Rattle.std.specs.Prelude.{◌≡◌, drop};
ghost use Rattle.language.specs.Limits.{desk};
ghost use Rattle.language.specs.Undeclared.{declared_word};
ghost use Rattle.header.specs.Heading.{counts_in};
ghost use Rattle.undeclared.specs.Scanning.{first_undeclared};

use header::Header;
use language::{Kind, classify};

// Whether a word's number is below the count of its kind.
fn is_declared(h: Header, word: u16) -> bool
    ensures { result ≡ declared_word desk (counts_in h) word }
{
    match classify(word) {
        Kind::Term(x) => x.0 < h.terms,
        Kind::Run(p) => p.0 < h.hedges,
        Kind::Symbol(f) => f.0 < h.symbols,
        Kind::Function(x) => x.0 < h.functions,
        _ => true,
    }
}

// The place of the first undeclared number from a place on, if there is one.
pub fn find_undeclared(h: Header, w: &[u16], from: usize) -> Option<usize>
    ensures { result ≡ first_undeclared desk (counts_in h) from (drop from w.now) }
{
    for i in from..w.len() {
        if !is_declared(h, w[i]) {
            return Some(i);
        }
    }
    None
}
