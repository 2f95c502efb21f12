// Whether a word stands in other literals: by how often it stands in all of them, and in its own.
ghost use Rattle.std.specs.Prelude.{◌<◌, ◌≡◌, ◌||◌, eqb, take, drop};
ghost use Rattle.std.proofs.Math.Seq.{slice};
ghost use Rattle.language.specs.Kinds.{pick};
ghost use Rattle.words.specs.Spans.{member};
ghost use Rattle.counts.specs.Tables.{times, table as places, afresh};

use counts::TABLE;
use language::wide;

// 1 for the word x.
fn one_if(y: u16, x: usize) -> usize
    ensures { result ≡ pick (eqb y x) 1 0 }
{
    if wide(y) == x { 1 } else { 0 }
}

// How often a word stands in a part.
fn times_in(k: &[u16], from: usize, to: usize, x: usize) -> usize
    ensures { result ≡ times x (slice from to k.now) }
{
    let mut n: usize = 0;
    for i in from..to {
        if k.len() <= i {
            return n;
        }
        n += one_if(k[i], x);
    }
    n
}

// Whether a variable's word stands before a literal or behind it, the table having the counts of all words.
pub fn elsewhere(k: &[u16], table: &[u16; TABLE], at: usize, end: usize, x: usize) -> bool
    requires { table.now ≡ afresh k.now }
    ensures { x < places → result ≡ (member x (take at k.now) || member x (drop end k.now)) }
{
    let here = times_in(k, at, end, x);
    if x < TABLE {
        return here < wide(table[x]);
    }
    false
}
