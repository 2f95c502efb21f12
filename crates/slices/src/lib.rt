// What is done to lent slices of words: a part measured and copied, a number stored, the room cleared.
#![tactic(auto)]

ghost use Rattle.std.specs.Prelude.{◌+◌, ◌≤◌, ◌<◌, ◌≡◌, length, set};
ghost use Rattle.std.proofs.Math.Seq.{slice};
ghost use Rattle.language.specs.Limits.{desk};
ghost use Rattle.rules.specs.Answer.{zeros, overwritten};
ghost use Rattle.slices.specs.Written.{Wrote, Within};

use language::limits::ROOM;

// Where a part ends that is to end at a place: there, or at the end of the words.
pub fn within(k: &[u16], to: usize) -> usize
    ensures { Within k.now to result }
{
    to.min(k.len())
}

// How many words a part has.
pub fn part_len(k: &[u16], from: usize, to: usize) -> usize
    ensures { result ≡ length (slice from to k.now) }
{
    within(k, to).saturating_sub(from)
}

// A part as it is. The answer is the place after it.
pub fn copy(k: &[u16], from: usize, to: usize, out: &mut [u16], at: usize) -> usize
    requires { at + length (slice from to k.now) ≤ length out.old }
    ensures { Wrote out.old at (slice from to k.now) out.new result }
{
    // kept: std's copy needs memmove from who links the desk, which nothing else here does
    let end = within(k, to);
    let mut e = at;
    for i in from..end {
        out[e] = k[i];
        e += 1;
    }
    e
}

// A number as a word.
pub fn store(s: &mut [u16], i: usize, n: usize)
    requires { (i < length s.old) × (n < 65536) }
    ensures { s.new ≡ set s.old i n }
{
    s[i] = n as u16;
}

// Zeros in the first 16,384 words.
pub fn clear(s: &mut [u16])
    requires { desk.room ≤ length s.old }
    ensures { s.new ≡ overwritten desk (zeros desk) s.old }
{
    s[..ROOM].fill(0);
}
