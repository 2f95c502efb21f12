// The trees that words stand for, read at a place: `Ok` is the place after what was read, `Err` the place of the first word that cannot go on.
#![tactic(auto)]

ghost use Rattle.std.specs.Prelude.{◌≡◌, drop};
ghost use Rattle.language.specs.Limits.{desk};
ghost use Rattle.language.specs.Reading.{read_term, read_hedge, read_expr, read_literal};
ghost use Rattle.trees.specs.Places.{placed};

use language::{Kind, classify};

// One term: a term variable, or a symbol or function variable with its children.
#[cycle(read_hedge_read_term)]
fn read_term(w: &[u16], at: usize) -> Result<usize, usize>
    ensures { result ≡ placed at (read_term desk (drop at w.now)) }
{
    if w.len() <= at {
        return Err(at);
    }
    match classify(w[at]) {
        Kind::Term(_) => Ok(at + 1),
        Kind::Symbol(_) | Kind::Function(_) => read_hedge(w, at + 1),
        _ => Err(at),
    }
}

// A hedge and its 0: hedge variables and terms, one after another.
#[cycle(read_hedge_read_term)]
pub fn read_hedge(w: &[u16], at: usize) -> Result<usize, usize>
    ensures { result ≡ placed at (read_hedge desk (drop at w.now)) }
{
    let mut i = at;
    while i < w.len() {
        match classify(w[i]) {
            Kind::End => return Ok(i + 1),
            Kind::Run(_) => i += 1,
            _ => i = read_term(w, i)?,
        }
    }
    Err(i)
}

// An expression, by its parts.
fn read_expr(w: &[u16], at: usize) -> Result<usize, usize>
    ensures { result ≡ placed at (read_expr desk (drop at w.now)) }
{
    if w.len() <= at {
        return Err(at);
    }
    match classify(w[at]) {
        Kind::Eps => Ok(at + 1),
        Kind::Symbol(_) | Kind::Star => read_expr(w, at + 1),
        Kind::Cat | Kind::Alt => {
            let after = read_expr(w, at + 1)?;
            read_expr(w, after)
        }
        _ => Err(at),
    }
}

// A literal: an equation of two hedges, or a hedge's membership in an expression.
pub fn read_literal(w: &[u16], at: usize) -> Result<usize, usize>
    ensures { result ≡ placed at (read_literal desk (drop at w.now)) }
{
    if w.len() <= at {
        return Err(at);
    }
    match classify(w[at]) {
        Kind::Equation => {
            let right = read_hedge(w, at + 1)?;
            read_hedge(w, right)
        }
        Kind::Membership => {
            let expression = read_hedge(w, at + 1)?;
            read_expr(w, expression)
        }
        _ => Err(at),
    }
}
