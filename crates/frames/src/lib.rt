// The frame of a waiting conjunction: the words that stand before its own. They are written and read here alone.
#![tactic(auto)]

ghost use Rattle.std.specs.Prelude.{◌≡◌, ◌<◌, ◌≤◌, ◌+◌, length};
ghost use Rattle.std.proofs.lemmas.List.Edits.{sets};
ghost use Rattle.frames.specs.Frames.{frame, frame_of, framed_length, framed_number};

// How many words a frame has.
pub const FRAME: usize = 2;

// The frame of a conjunction of n words, which are to stand after it, with the number of its alternative.
pub fn write_frame(out: &mut [u16], at: usize, n: usize, number: u16)
    requires { (n < 65536) × (at + frame ≤ length out.old) }
    ensures { out.new ≡ sets out.old at (frame_of n number) }
{
    out[at] = n as u16;
    out[at + 1] = number;
}

// How many words stand after the frame at a place.
pub fn read_frame(work: &[u16], at: usize) -> usize
    requires { at + frame ≤ length work.now }
    ensures { result ≡ framed_length work.now at }
{
    usize::from(work[at])
}

// The number of the alternative that those words descend from.
pub fn read_number(work: &[u16], at: usize) -> u16
    requires { at + frame ≤ length work.now }
    ensures { result ≡ framed_number work.now at }
{
    work[at + 1]
}
