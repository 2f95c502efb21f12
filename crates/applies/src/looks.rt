// What a test reads off a look, a name and the first word of an expression.
ghost use Rattle.std.specs.Prelude.{◌≡◌};
ghost use Rattle.applies.specs.Parts.{is_empty, is_term, is_run, is_last, is_bare, single as single_term, lone_variable, lone_run, lone_functor, variable_of, run_of, name_in, is_symbol, symbol_of, blank_of, is_blank, is_named, same_name, keeps_name, form_word, symbol_in};

use language::{
    FunVar, HedgeVar, Kind, Name, Signature, Sym, TermVar, any_unordered, is_unordered,
};
use views::Look;

// Nothing stands there.
pub fn is_empty(look: Look) -> bool
    ensures { result ≡ is_empty look }
{
    match look {
        Look::Empty => true,
        Look::Term(_, _) => false,
        Look::Run(_, _) => false,
        Look::Node(_, _, _) => false,
    }
}

// It begins with a term.
pub fn is_term(look: Look) -> bool
    ensures { result ≡ is_term look }
{
    match look {
        Look::Empty => false,
        Look::Term(_, _) => true,
        Look::Run(_, _) => false,
        Look::Node(_, _, _) => true,
    }
}

// It begins with a hedge variable.
pub fn is_run(look: Look) -> bool
    ensures { result ≡ is_run look }
{
    match look {
        Look::Empty => false,
        Look::Term(_, _) => false,
        Look::Run(_, _) => true,
        Look::Node(_, _, _) => false,
    }
}

// Nothing follows the first element.
pub fn is_last(look: Look) -> bool
    ensures { result ≡ is_last look }
{
    match look {
        Look::Empty => true,
        Look::Term(_, last) => last,
        Look::Run(_, last) => last,
        Look::Node(_, last, _) => last,
    }
}

// The first element has no children.
pub fn is_bare(look: Look) -> bool
    ensures { result ≡ is_bare look }
{
    match look {
        Look::Empty => true,
        Look::Term(_, _) => true,
        Look::Run(_, _) => true,
        Look::Node(_, _, bare) => bare,
    }
}

// One term.
pub fn single(look: Look) -> bool
    ensures { result ≡ single_term look }
{
    match look {
        Look::Empty => false,
        Look::Term(_, last) => last,
        Look::Run(_, _) => false,
        Look::Node(_, last, _) => last,
    }
}

// One term variable.
pub fn lone_variable(look: Look) -> bool
    ensures { result ≡ lone_variable look }
{
    match look {
        Look::Empty => false,
        Look::Term(_, last) => last,
        Look::Run(_, _) => false,
        Look::Node(_, _, _) => false,
    }
}

// One hedge variable.
pub fn lone_run(look: Look) -> bool
    ensures { result ≡ lone_run look }
{
    match look {
        Look::Empty => false,
        Look::Term(_, _) => false,
        Look::Run(_, last) => last,
        Look::Node(_, _, _) => false,
    }
}

// One F(H).
pub fn lone_functor(look: Look) -> bool
    ensures { result ≡ lone_functor look }
{
    match look {
        Look::Empty => false,
        Look::Term(_, _) => false,
        Look::Run(_, _) => false,
        Look::Node(_, last, _) => last,
    }
}

// The term variable that it begins with.
pub fn variable_of(look: Look) -> TermVar
    ensures { result ≡ variable_of look }
{
    match look {
        Look::Empty => TermVar(0),
        Look::Term(x, _) => x,
        Look::Run(_, _) => TermVar(0),
        Look::Node(_, _, _) => TermVar(0),
    }
}

// The hedge variable that it begins with.
pub fn run_of(look: Look) -> HedgeVar
    ensures { result ≡ run_of look }
{
    match look {
        Look::Empty => HedgeVar(0),
        Look::Term(_, _) => HedgeVar(0),
        Look::Run(p, _) => p,
        Look::Node(_, _, _) => HedgeVar(0),
    }
}

// The name that it begins with.
pub fn name_in(look: Look) -> Name
    ensures { result ≡ name_in look }
{
    match look {
        Look::Empty => Name::Symbol(Sym(0)),
        Look::Term(_, _) => Name::Symbol(Sym(0)),
        Look::Run(_, _) => Name::Symbol(Sym(0)),
        Look::Node(f, _, _) => f,
    }
}

// The name is a symbol.
pub fn is_symbol(name: Name) -> bool
    ensures { result ≡ is_symbol name }
{
    match name {
        Name::Symbol(_) => true,
        Name::Blank(_) => false,
    }
}

// The symbol.
pub fn symbol_of(name: Name) -> Sym
    ensures { result ≡ symbol_of name }
{
    match name {
        Name::Symbol(f) => f,
        Name::Blank(_) => Sym(0),
    }
}

// The function variable.
pub fn blank_of(name: Name) -> FunVar
    ensures { result ≡ blank_of name }
{
    match name {
        Name::Symbol(_) => FunVar(0),
        Name::Blank(x) => x,
    }
}

// The name is that function variable.
pub fn is_blank(x: FunVar, name: Name) -> bool
    ensures { result ≡ is_blank x name }
{
    match name {
        Name::Symbol(_) => false,
        Name::Blank(y) => x.0 == y.0,
    }
}

// And that symbol.
fn is_named(f: Sym, name: Name) -> bool
    ensures { result ≡ is_named f name }
{
    match name {
        Name::Symbol(g) => f.0 == g.0,
        Name::Blank(_) => false,
    }
}

// The same name twice.
pub fn same_name(a: Name, b: Name) -> bool
    ensures { result ≡ same_name a b }
{
    match a {
        Name::Symbol(f) => is_named(f, b),
        Name::Blank(x) => is_blank(x, b),
    }
}

// Its children stay in order.
pub fn keeps_order(signature: Signature, name: Name) -> bool
    ensures { result ≡ keeps_name signature name }
{
    match name {
        Name::Symbol(f) => {
            let shuffled = is_unordered(signature, f);
            !shuffled
        }
        Name::Blank(_) => {
            let some = any_unordered(signature);
            !some
        }
    }
}

// The word that an expression begins with, and the first of the symbols' for any of them; 0 for a word that begins none.
pub fn form_word(first: Kind) -> usize
    ensures { result ≡ form_word first }
{
    match first {
        Kind::Eps => 7000,
        Kind::Cat => 7001,
        Kind::Alt => 7002,
        Kind::Star => 7003,
        Kind::Symbol(_) => 3000,
        _ => 0,
    }
}

// The symbol that an expression begins with.
pub fn symbol_in(first: Kind) -> Sym
    ensures { result ≡ symbol_in first }
{
    match first {
        Kind::Symbol(g) => g,
        _ => Sym(0),
    }
}
