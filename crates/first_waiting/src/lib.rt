// The first waiting conjunction, taken out of its frame, and beside it the table of how often each variable occurs in it. Both are kept from turn to
// turn: only the words that are not as before are counted.
#![tactic(auto)]

ghost use Rattle.std.specs.Prelude.{◌+◌, ◌-◌, ◌≤◌, ◌<◌, ◌≡◌, length, take};
ghost use Rattle.std.proofs.Math.Seq.{slice};
ghost use Rattle.std.proofs.lemmas.List.Edits.{sets};
ghost use Rattle.language.specs.Limits.{desk};
ghost use Rattle.frames.specs.Frames.{frame, framed_length};
ghost use Rattle.counts.specs.Tables.{afresh};
ghost use Rattle.first_waiting.specs.Parts.{Alike, AlikeBack};

use counts::{TABLE, count_in, count_out};
use frames::{FRAME, read_frame};
use slices::copy;

// Up to where the words are the same from their beginnings on: so many at most.
fn same_before(k: &[u16], work: &[u16], from: usize, most: usize) -> usize
    requires { (most ≤ length k.now) × (from + most ≤ length work.now) }
    ensures { (result ≤ most) × Alike k.now work.now from result }
{
    for i in 0..most {
        if k[i] != work[from + i] {
            return i;
        }
    }
    most
}

// How many words are the same up to their ends: so many at most.
fn same_behind(k: &[u16], end: usize, work: &[u16], to: usize, most: usize) -> usize
    requires { (most ≤ end) × (end ≤ length k.now) × (most ≤ to) × (to ≤ length work.now) }
    ensures { (result ≤ most) × AlikeBack k.now end work.now to result }
{
    for i in 0..most {
        if k[end - 1 - i] != work[to - 1 - i] {
            return i;
        }
    }
    most
}

// The words of the conjunction that waits first, in the place of `old` words of k, of which the table has the counts: k then begins with these
// words, so many as is answered, and the table has their counts.
pub fn take_first(
    work: &[u16],
    at: usize,
    k: &mut [u16],
    old: usize,
    table: &mut [u16; TABLE],
) -> usize
    requires at_in_bounds { (at + frame + framed_length work.now at ≤ length work.now) × (framed_length work.now at ≤ length k.old) × (old ≤ length k.old) × (length k.old ≤ desk.question) }
    requires table_value { table.old ≡ afresh (take old k.old) }
    ensures value { result ≡ framed_length work.now at }
    ensures k_after { k.new ≡ sets k.old 0 (slice (at + frame) (at + frame + framed_length work.now at) work.now) }
    ensures table_after { table.new ≡ afresh (slice (at + frame) (at + frame + framed_length work.now at) work.now) }
{
    let n = read_frame(work, at);
    let from = at + FRAME;
    let to = from + n;
    let most = old.min(n);
    let front = same_before(k, work, from, most);
    let back = same_behind(k, old, work, to, most - front);
    count_out(k, front, old - back, table);
    count_in(work, from + front, to - back, table);
    copy(work, from + front, to, k, front);
    n
}
