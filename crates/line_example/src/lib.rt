// The example of one line, written as a filling: a table of offsets, and the values of the variables.
#![tactic(auto)]

mod sorts;

ghost use Rattle.std.specs.Prelude.{◌≤◌, ◌<◌, length};
ghost use Rattle.language.specs.Limits.{desk};
ghost use Rattle.values.specs.Values.{SettledLine};
ghost use Rattle.line_example.specs.Fillings.{FillingLength, TableWritten, ValuesWritten, LineShown};

use language::limits::FILLING;
use language::{Refusal, Sym};
use samples::put;
use sorts::{Sort, short, values_len, write_starts, write_values};

// How many words the filling has.
fn filling_len(k: &[u16], terms: usize, hedges: usize, functions: usize) -> usize
    requires { (length k.now ≤ 65536) × (terms ≤ desk.each) × (hedges ≤ desk.each) × (functions ≤ desk.each) × SettledLine k.now }
    ensures { FillingLength k.now terms hedges functions result }
{
    let a = values_len(k, Sort::Terms, terms);
    let b = values_len(k, Sort::Runs, hedges);
    let c = values_len(k, Sort::Functions, functions);
    terms + hedges + functions + 2 + a + b + c
}

// Writes the number of variables and the offsets of their values.
fn write_table(k: &[u16], terms: usize, hedges: usize, functions: usize, room: &mut [u16]) -> usize
    requires { (length k.now ≤ 65536) × (terms ≤ desk.each) × (hedges ≤ desk.each) × (functions ≤ desk.each) × SettledLine k.now }
    ensures { TableWritten k.now terms hedges functions room.old 0 room.new result }
{
    let n = terms + hedges + functions;
    let e = put(room, 0, short(n));
    let s = write_starts(k, Sort::Terms, terms, room, e, n + 2);
    let t = write_starts(k, Sort::Runs, hedges, room, s.to, s.next);
    let u = write_starts(k, Sort::Functions, functions, room, t.to, t.next);
    put(room, u.to, short(u.next))
}

// Writes the values.
fn write_all(
    k: &[u16],
    terms: usize,
    hedges: usize,
    functions: usize,
    any: Sym,
    room: &mut [u16],
    at: usize,
) -> usize
    requires { (terms ≤ desk.each) × (hedges ≤ desk.each) × (functions ≤ desk.each) × SettledLine k.now × (any.0 < desk.each) }
    ensures { ValuesWritten k.now terms hedges functions any room.old at room.new result }
{
    let s = write_values(k, Sort::Terms, terms, any, room, at);
    let t = write_values(k, Sort::Runs, hedges, any, room, s);
    write_values(k, Sort::Functions, functions, any, room, t)
}

// The example of a line, where it has room. Free blanks take the symbol `any`.
pub fn fill_line(
    k: &[u16],
    terms: usize,
    hedges: usize,
    functions: usize,
    any: Sym,
    room: &mut [u16],
) -> Result<usize, Refusal>
    requires { (length k.now ≤ 65536) × (terms ≤ desk.each) × (hedges ≤ desk.each) × (functions ≤ desk.each) × SettledLine k.now × (any.0 < desk.each) }
    ensures { LineShown k.now terms hedges functions any room.old room.new result }
{
    let n = filling_len(k, terms, hedges, functions);
    if FILLING < n {
        return Err(Refusal::LongExample);
    }
    if room.len() < n {
        return Err(Refusal::LongExample);
    }
    let e = write_table(k, terms, hedges, functions, room);
    write_all(k, terms, hedges, functions, any, room, e);
    Ok(n)
}
