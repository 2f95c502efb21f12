// The first words of a question, and the table of offsets of a question or a filling.
#![tactic(auto)]

ghost use Rattle.std.specs.Prelude.{◌≡◌, ◌≤◌, length};
ghost use Rattle.language.specs.Trees.{signature};
ghost use Rattle.language.specs.Question.{rising, laid_out, counts_of};
ghost use Rattle.language.specs.Between.{between};
ghost use Rattle.header.specs.Heading.{header_of};

use language::Signature;

// Whether the offsets from place `at` up to `stop` never fall, from `from` on, and the last is the length.
fn rises(w: &[u16], at: usize, stop: usize, from: usize) -> bool
    requires { (at ≤ stop) × (stop ≤ length w.now) }
    ensures { result ≡ rising from (between at stop w.now) (length w.now) }
{
    let mut last = from;
    for i in at..stop {
        let next = usize::from(w[i]);
        if next < last {
            return false;
        }
        last = next;
    }
    last == w.len()
}

// Whether the table of offsets of `n` parts, after `head` words, is as it should be.
pub fn laid_out(w: &[u16], head: u16, n: u16) -> bool
    ensures { result ≡ laid_out head n w.now }
{
    let at = usize::from(head);
    let first = at + usize::from(n) + 1;
    if w.len() < first {
        return false;
    }
    if usize::from(w[at]) != first {
        return false;
    }
    rises(w, at + 1, first, first)
}

// The first five words of a question: how many of each are declared, how many of the symbols are unordered, and how many conjunctions follow.
#[derive(Clone, Copy)]
pub struct Header {
    pub symbols: u16,
    pub unordered: u16,
    pub terms: u16,
    pub hedges: u16,
    pub functions: u16,
    pub alternatives: u16,
}

pub fn read_header(w: &[u16]) -> Header
    requires { 5 ≤ length w.now }
    ensures { result ≡ header_of w.now }
{
    Header {
        symbols: w[0] % 256,
        unordered: w[0] / 256,
        terms: w[1],
        hedges: w[2],
        functions: w[3],
        alternatives: w[4],
    }
}

// The signature that a question's header declares.
pub fn signature_of(question: &[u16]) -> Signature
    requires { 5 ≤ length question.now }
    ensures { result ≡ signature (counts_of question.now) }
{
    let h = read_header(question);
    Signature {
        symbols: h.symbols,
        unordered: h.unordered,
    }
}
