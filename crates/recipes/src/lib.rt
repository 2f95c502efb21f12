// A recipe put together from its pieces, and a plan of one recipe.
#![tactic(auto)]

ghost use Rattle.std.specs.Prelude.{◌≡◌};
ghost use Rattle.plans.specs.Slots.{full_recipe, few_recipe, single, drop_plan};

use plans::{Piece, Plan, Recipe, Slot, Ways};

// A recipe of twelve pieces.
pub fn full(
    a: Piece,
    b: Piece,
    c: Piece,
    d: Piece,
    e: Piece,
    f: Piece,
    g: Piece,
    h: Piece,
    i: Piece,
    j: Piece,
    k: Piece,
    l: Piece,
    old: usize,
    until: usize,
    new: usize,
) -> Recipe
    ensures { result ≡ full_recipe a b c d e f g h i j k l old until new }
{
    let slots = [
        Slot { piece: a },
        Slot { piece: b },
        Slot { piece: c },
        Slot { piece: d },
        Slot { piece: e },
        Slot { piece: f },
        Slot { piece: g },
        Slot { piece: h },
        Slot { piece: i },
        Slot { piece: j },
        Slot { piece: k },
        Slot { piece: l },
    ];
    Recipe {
        slots,
        old,
        until,
        new,
    }
}

// A recipe of five pieces: the others have no words.
pub fn few(
    a: Piece,
    b: Piece,
    c: Piece,
    d: Piece,
    e: Piece,
    old: usize,
    until: usize,
    new: usize,
) -> Recipe
    ensures { result ≡ few_recipe a b c d e old until new }
{
    let none = Piece::Copy(0, 0);
    full(
        a, b, c, d, e, none, none, none, none, none, none, none, old, until, new,
    )
}

// A plan of one recipe.
pub fn single(ways: Ways, first: Recipe) -> Plan
    ensures { result ≡ single ways first }
{
    Plan {
        ways,
        first,
        second: first,
    }
}

// No result.
pub fn plan_drop() -> Plan
    ensures { result ≡ drop_plan }
{
    let none = Piece::Copy(0, 0);
    let first = few(none, none, none, none, none, 0, 0, 0);
    single(Ways::Drop, first)
}
