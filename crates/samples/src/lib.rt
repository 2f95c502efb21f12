// The sample of an expression, as words: measured first, then written straight to its place.
#![tactic(auto)]

ghost use Rattle.std.specs.Prelude.{[], ◌∷◌};
ghost use Rattle.samples.specs.Laid.{Laid};
ghost use Rattle.samples.specs.Samples.{Measured, Written};

// Of an expression in the words: the place after it, and how many words its sample has before its 0.
#[derive(Clone, Copy)]
pub struct Sample {
    pub end: usize,
    pub words: usize,
}

// The place after an expression in the words, and the place after what was written.
#[derive(Clone, Copy)]
pub struct Wrote {
    pub end: usize,
    pub to: usize,
}

// One word more, where there is room for it; the answer is the place after it.
pub fn put(out: &mut [u16], at: usize, x: u16) -> usize
    ensures { Laid out.old at (x ∷ []) out.new result }
{
    if at < out.len() {
        out[at] = x;
        return at + 1;
    }
    at
}

// ---- the sample of an expression

// Measures the sample of the expression at a place.
pub fn measure(k: &[u16], at: usize) -> Sample
    ensures { Measured k.now at result }
{
    if k.len() <= at {
        return Sample { end: at, words: 0 };
    }
    let x = k[at];
    if x == 7000 {
        return Sample {
            end: at + 1,
            words: 0,
        };
    }
    let a = measure(k, at + 1);
    let mid = a.end;
    if x == 7003 {
        return Sample { end: mid, words: 0 };
    }
    let first = a.words;
    if x < 7000 {
        return Sample {
            end: mid,
            words: first + 2,
        };
    }
    let b = measure(k, mid);
    let end = b.end;
    let second = b.words;
    if x == 7001 {
        return Sample {
            end,
            words: first + second,
        };
    }
    Sample { end, words: first }
}

// Writes the sample of the expression at a place, without its 0.
pub fn write_sample(k: &[u16], at: usize, out: &mut [u16], to: usize) -> Wrote
    ensures { Written k.now at out.old to out.new result }
{
    if k.len() <= at {
        return Wrote { end: at, to };
    }
    let x = k[at];
    if x == 7000 {
        return Wrote { end: at + 1, to };
    }
    if x == 7003 {
        let s = measure(k, at + 1);
        return Wrote { end: s.end, to };
    }
    if x < 7000 {
        let n = put(out, to, x);
        let a = write_sample(k, at + 1, out, n);
        let m = put(out, a.to, 0);
        return Wrote { end: a.end, to: m };
    }
    let a = write_sample(k, at + 1, out, to);
    let mid = a.end;
    let done = a.to;
    if x == 7001 {
        return write_sample(k, mid, out, done);
    }
    let b = measure(k, mid);
    Wrote {
        end: b.end,
        to: done,
    }
}
