// The values of the variables of one kind, in a row.
ghost use Rattle.std.specs.Prelude.{◌+◌, ◌*◌, ◌≤◌, ◌<◌, ◌≡◌, length};
ghost use Rattle.language.specs.Limits.{desk};
ghost use Rattle.values.specs.Values.{SettledLine};
ghost use Rattle.line_example.specs.Rows.{numbered_of, KindLength, KindStarts, KindWritten};

use language::{FunVar, HedgeVar, Sym, TermVar};
use samples::put;
use values::{Variable, value_len, write_value};

// A row of offsets that is written: the place after it, and the offset that is next.
#[derive(Clone, Copy)]
pub struct Row {
    pub to: usize,
    pub next: usize,
}

// A number as a word, where it is one.
pub(crate) fn short(n: usize) -> u16
    ensures { n < 65536 → result ≡ n }
{
    u16::try_from(n).unwrap_or(0)
}

#[derive(Clone, Copy)]
pub enum Sort {
    Terms,
    Runs,
    Functions,
}

// The variable of a kind with a number.
fn numbered(of: Sort, j: usize) -> Variable
    ensures { j < 65536 → result ≡ numbered_of of j }
{
    let n = short(j);
    match of {
        Sort::Terms => Variable::Term(TermVar(n)),
        Sort::Runs => Variable::Run(HedgeVar(n)),
        Sort::Functions => Variable::Function(FunVar(n)),
    }
}

// How many words they have together.
pub(crate) fn values_len(k: &[u16], of: Sort, count: usize) -> usize
    requires { (length k.now ≤ 65536) × (count ≤ desk.each) × SettledLine k.now }
    ensures { KindLength k.now of count result }
{
    let mut n: usize = 0;
    for j in 0..count {
        n += value_len(k, numbered(of, j));
    }
    n
}

// Writes where each begins, the first at `offset`; the answer has the place where the next would begin.
pub(crate) fn write_starts(
    k: &[u16],
    of: Sort,
    count: usize,
    out: &mut [u16],
    at: usize,
    offset: usize,
) -> Row
    requires { (length k.now ≤ 65536) × (count ≤ desk.each) × (offset ≤ 4 * (10000000000 * desk.each)) × SettledLine k.now }
    ensures { KindStarts k.now of count out.old at offset out.new result }
{
    let mut e = at;
    let mut next = offset;
    for j in 0..count {
        e = put(out, e, short(next));
        next += value_len(k, numbered(of, j));
    }
    Row { to: e, next }
}

// Writes them in a row; free blanks take the symbol `any`.
pub(crate) fn write_values(
    k: &[u16],
    of: Sort,
    count: usize,
    any: Sym,
    out: &mut [u16],
    at: usize,
) -> usize
    requires { (count ≤ desk.each) × SettledLine k.now × (any.0 < desk.each) }
    ensures { KindWritten k.now of count any out.old at out.new result }
{
    let mut e = at;
    for j in 0..count {
        e = write_value(k, numbered(of, j), any, out, e);
    }
    e
}
