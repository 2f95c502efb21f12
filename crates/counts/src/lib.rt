// A table of how often each word stands among others, up to the last word of a variable: a variable's count is kept at the place of its word.
#![tactic(auto)]

ghost use Rattle.std.specs.Prelude.{ℕ, ◌+◌, ◌-◌, ◌≤◌, ◌<◌, ◌≡◌, eqb, ltb, length, get_or};
ghost use Rattle.std.proofs.Math.Seq.{slice};
ghost use Rattle.counts.specs.Tables.{times, table, count_at, one_in, one_out, added, removed};

use language::limits::LAST_FUNCTION;

// A place for each word up to the last of a variable.
pub const TABLE: usize = LAST_FUNCTION as usize + 1;

// A word counted in.
fn one_in(x: usize, t: &mut [u16; TABLE])
    requires { get_or t.old x 0 + 1 < 65536 }
    ensures { t.new ≡ one_in x t.old }
{
    if TABLE <= x {
        return;
    }
    t[x] = t[x] + 1;
}

// A word counted out.
fn one_out(x: usize, t: &mut [u16; TABLE])
    requires { x < table → 1 ≤ get_or t.old x 0 }
    ensures { t.new ≡ one_out x t.old }
{
    if TABLE <= x {
        return;
    }
    t[x] = t[x] - 1;
}

// The words of a part, counted in.
pub fn count_in(k: &[u16], from: usize, to: usize, t: &mut [u16; TABLE])
    requires { (to ≤ length k.now) × (length t.old ≡ table) × ((x : ℕ) → get_or t.old x 0 + (to - from) < 65536) }
    ensures { t.new ≡ added (slice from to k.now) t.old }
{
    for i in from..to {
        one_in(usize::from(k[i]), t);
    }
}

// The words of a part, counted out.
pub fn count_out(k: &[u16], from: usize, to: usize, t: &mut [u16; TABLE])
    requires { (to ≤ length k.now) × (length t.old ≡ table) × ((x : ℕ) → x < table → times x (slice from to k.now) ≤ get_or t.old x 0) }
    ensures { t.new ≡ removed (slice from to k.now) t.old }
{
    for i in from..to {
        one_out(usize::from(k[i]), t);
    }
}

// Whether a word is counted more than once.
pub fn repeated(t: &[u16; TABLE], x: usize) -> bool
    ensures { result ≡ ltb 1 (count_at t.now x) }
{
    if x < TABLE {
        return 1 < t[x];
    }
    false
}

// Whether a word is counted once.
pub fn once(t: &[u16; TABLE], x: usize) -> bool
    ensures { result ≡ eqb (count_at t.now x) 1 }
{
    if x < TABLE {
        return t[x] == 1;
    }
    false
}
