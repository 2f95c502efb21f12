// The first rule at an equation whose left side begins with a functor.
ghost use Rattle.std.specs.Prelude.{◌<◌, ◌≡◌, false, ◌&&◌, ◌++◌};
ghost use Rattle.language.specs.Limits.{desk};
ghost use Rattle.language.specs.Fine.{fine_functor};
ghost use Rattle.language.specs.Trees.{Functor, symbol, fvar, Hedge, ε, node, Conj, eq_f};
ghost use Rattle.rules.specs.Looks.{empty};
ghost use Rattle.views.specs.Looks.{name_of};
ghost use Rattle.views.specs.Views.{Sees};
ghost use Rattle.counts.specs.Tables.{Beside};
ghost use Rattle.equations.specs.Rank.{shuffled, functors};
ghost use Rattle.equations.specs.Ranked.{RanksBy, blanks_in};

use bools::and;
use counts::{TABLE, repeated};
use finds::all_terms;
use language::{FunVar, Name, Signature, Sym, any_unordered, function_word, is_unordered};
use plans::inner;
use rules::places::{AT_D0, AT_D1, AT_D2, AT_DEL2, AT_E5, AT_E6, AT_E7, AT_F3, AT_R1, NO_RULE};
use sharing::first_shared;
use views::{Look, Side, View};
use words::same_part;

// X() = F(): X in the others, and F too where it is a variable.
fn both_elsewhere(table: &[u16; TABLE], f: FunVar, g: Name) -> bool
    ensures { (K : Conj) (G : Functor) → Beside table.now K (node (fvar f) ε ε) (node G ε ε) → f.0 < desk.each → g ≡ name_of G → fine_functor desk G → eq_f (fvar f) G ≡ false → result ≡ blanks_in (fvar f) G K }
{
    if !repeated(table, function_word(f)) {
        return false;
    }
    match g {
        Name::Symbol(_) => true,
        Name::Blank(y) => repeated(table, function_word(y)),
    }
}

// Single terms with one unordered symbol: Del2, D1.
fn rank_shuffled(k: &[u16], v: View) -> usize
    ensures { (before behind : Conj) (F G : Functor) (c s d t : Hedge) → Sees k.now v before (node F c s) (node G d t) behind → result ≡ shuffled c d }
{
    let l = v.l;
    let r = v.r;
    let c = inner(k, l.from, l.to);
    let d = inner(k, r.from, r.to);
    if first_shared(k, c.from, d.from).is_some() {
        return AT_DEL2;
    }
    let terms = all_terms(k, d.from);
    if terms.all {
        return AT_D1;
    }
    NO_RULE
}

// Single terms with the symbol f and the functor g: F3, Del2, D1, D0.
fn rank_symbol(k: &[u16], v: View, signature: Signature, f: Sym, g: Name) -> usize
    ensures { (before behind : Conj) (G : Functor) (c y d t : Hedge) → Sees k.now v before (node (symbol f) c y) (node G d t) behind → g ≡ name_of G → result ≡ functors signature (before ++ behind) (symbol f) c G d }
{
    match g {
        Name::Symbol(h) => {
            if f.0 == h.0 {
                if is_unordered(signature, f) {
                    return rank_shuffled(k, v);
                }
                return AT_D0;
            }
            AT_F3
        }
        Name::Blank(_) => NO_RULE,
    }
}

// Whether a functor is this function variable.
fn same_blank(f: FunVar, g: Name) -> bool
    ensures { (G : Functor) → g ≡ name_of G → result ≡ eq_f (fvar f) G }
{
    match g {
        Name::Symbol(_) => false,
        Name::Blank(y) => f.0 == y.0,
    }
}

// Single terms with the function variable f and the functor g: D0, E5, E6, E7.
fn rank_blank(table: &[u16; TABLE], signature: Signature, f: FunVar, bare: bool, g: Name) -> usize
    ensures { (K : Conj) (G : Functor) (c d : Hedge) → Beside table.now K (node (fvar f) c ε) (node G d ε) → f.0 < desk.each → g ≡ name_of G → fine_functor desk G → bare ≡ (empty c && empty d) → result ≡ functors signature K (fvar f) c G d }
{
    if same_blank(f, g) {
        if any_unordered(signature) {
            return AT_E7;
        }
        return AT_D0;
    }
    if !bare {
        return AT_E6;
    }
    if both_elsewhere(table, f, g) {
        return AT_E5;
    }
    NO_RULE
}

// Single terms with the functors f and g: F3, Del2, D1, D0, E5, E6, E7.
fn rank_functors(
    k: &[u16],
    table: &[u16; TABLE],
    v: View,
    signature: Signature,
    f: Name,
    bare: bool,
    g: Name,
) -> usize
    ensures { (before behind : Conj) (F G : Functor) (c y d t : Hedge) → Sees k.now v before (node F c y) (node G d t) behind → Beside table.now (before ++ behind) (node F c ε) (node G d ε) → f ≡ name_of F → g ≡ name_of G → bare ≡ (empty c && empty d) → result ≡ functors signature (before ++ behind) F c G d }
{
    match f {
        Name::Symbol(a) => rank_symbol(k, v, signature, a, g),
        Name::Blank(x) => rank_blank(table, signature, x, bare, g),
    }
}

// Both sides begin with a functor: R1, D2, or the two are single terms.
fn rank_nodes(
    k: &[u16],
    table: &[u16; TABLE],
    v: View,
    signature: Signature,
    f: Name,
    lone: bool,
    bare: bool,
    g: Name,
    more: bool,
    plain: bool,
) -> usize
    ensures { (F G : Functor) (c y d t : Hedge) → f ≡ name_of F → lone ≡ empty y → bare ≡ empty c → g ≡ name_of G → more ≡ empty t → plain ≡ empty d → RanksBy signature k.now table.now v (node F c y) (node G d t) result }
{
    let l = v.l;
    let r = v.r;
    if same_part(k, l.from, l.to, r.from, r.to) {
        return AT_R1;
    }
    if and(lone, more) {
        let both = and(bare, plain);
        return rank_functors(k, table, v, signature, f, both, g);
    }
    AT_D2
}

// The left side begins with a functor.
pub fn rank_node(
    k: &[u16],
    table: &[u16; TABLE],
    v: View,
    signature: Signature,
    f: Name,
    lone: bool,
    bare: bool,
) -> usize
    ensures { (F : Functor) (c y r : Hedge) → f ≡ name_of F → lone ≡ empty y → bare ≡ empty c → RanksBy signature k.now table.now v (node F c y) r result }
{
    let r = v.r;
    let look = r.look;
    match look {
        Look::Empty => NO_RULE,
        Look::Run(_, _) => NO_RULE,
        Look::Term(_, more) => {
            if and(lone, more) {
                return NO_RULE;
            }
            AT_D2
        }
        Look::Node(g, more, plain) => rank_nodes(
            k, table, v, signature, f, lone, bare, g, more, plain,
        ),
    }
}
