// The conjunctions of a question, each of which is to be exactly literals.
#![tactic(auto)]

ghost use Rattle.std.specs.Prelude.{◌≡◌, true, ◌+◌};
ghost use Rattle.language.specs.Limits.{desk};
ghost use Rattle.language.specs.Reading.{read_conj};
ghost use Rattle.language.specs.Question.{laid_out, parts, read_all};
ghost use Rattle.trees.specs.Places.{placed};

use trees::read_literal;

// A conjunction: literals, to the last word.
fn read_conj(w: &[u16]) -> Result<usize, usize>
    ensures { result ≡ placed 0 (read_conj desk w.now) }
{
    let mut i = 0;
    while i < w.len() {
        match read_literal(w, i) {
            Ok(after) => i = after,
            Err(place) => return Err(place),
        }
    }
    Ok(i)
}

// The parts of a question with `n` conjunctions, each of which is to be exactly literals: the end of the last, or the place of the first word that
// cannot go on.
pub fn read_all(w: &[u16], n: u16) -> Result<usize, usize>
    requires { laid_out 5 n w.now ≡ true }
    ensures { result ≡ placed (6 + n) (read_all desk (parts 5 n w.now)) }
{
    let stop = usize::from(n) + 6;
    let mut from = stop;
    for i in 6..stop {
        let to = usize::from(w[i]);
        read_conj(&w[from..to]).map_err(|more| from + more)?;
        from = to;
    }
    Ok(from)
}
