// Whether a line is solved, read off its words and off how often each variable occurs in it.
#![tactic(auto)]

ghost use Rattle.std.specs.Prelude.{ℕ, ◌+◌, ◌-◌, ◌≤◌, ◌<◌, ◌≡◌, List, ◌∷◌, ◌++◌, length, get_or, replicate};
ghost use Rattle.language.specs.Limits.{desk};
ghost use Rattle.language.specs.Trees.{Hedge, Expr, Literal, mem, Conj};
ghost use Rattle.language.specs.Writing.{conj_words};
ghost use Rattle.language.specs.Fine.{fine_conj};
ghost use Rattle.rules.specs.Solved.{variable, alone, is_some, solved_literal, solved};
ghost use Rattle.views.specs.Views.{Sees, Shows};
ghost use Rattle.views.specs.Standing.{LiteralAt, Conjunction};
ghost use Rattle.alone.specs.Lone.{lone_variable};
ghost use Rattle.counts.specs.Tables.{table as places, afresh, Tallied, Beside};
ghost use Rattle.solved.specs.Members.{member_in, InMembers};

use alone::{Variable, lone_word, side_variable};
use counts::{TABLE, count_in, once};
use language::TermVar;
use views::{Look, Shape, View, see, show_membership, swapped};
use words::next_literal;

// The variable whose membership it is: the one that the hedge would be against a single term.
fn lone_variable(look: Look) -> Option<Variable>
    ensures { result ≡ lone_variable look }
{
    side_variable(look, Look::Term(TermVar(0), true))
}

// Whether the side that is looked at first is one variable that is counted once.
fn lonely_side(table: &[u16; TABLE], v: View) -> bool
    ensures { (k : List ℕ) (before : Conj) (l r : Hedge) (behind : Conj) → Sees k v before l r behind → Beside table.now (before ++ behind) l r → result ≡ is_some (alone (before ++ behind) r (variable l r)) }
{
    let l = v.l;
    let r = v.r;
    let a = l.look;
    let b = r.look;
    let x = lone_word(side_variable(a, b));
    if x == 0 {
        return false;
    }
    once(table, x)
}

// The words of the literal i..next counted in, where that is a membership.
fn member_in(k: &[u16], i: usize, next: usize, members: &mut [u16; TABLE])
    requires { (i < length k.now) × (next ≤ length k.now) × (length members.old ≡ places) × ((x : ℕ) → get_or members.old x 0 + (next - i) < 65536) }
    ensures { members.new ≡ member_in k.now i next members.old }
{
    if k[i] == 6000 {
        count_in(k, i, next, members);
    }
}

// How often each variable stands in memberships.
fn count_members(k: &[u16], members: &mut [u16; TABLE])
    requires { (length k.now ≤ desk.question) × (members.old ≡ replicate places 0) }
    ensures { (c : Conj) → fine_conj desk c → k.now ≡ conj_words c → InMembers members.new c }
{
    let mut i = 0;
    while i < k.len() {
        let next = next_literal(k, i);
        member_in(k, i, next, members);
        i = next;
    }
}

// Whether a membership is of a lone variable that is in no other membership.
fn lone_member(members: &[u16; TABLE], s: Shape) -> bool
    ensures { (k : List ℕ) (before : Conj) (h : Hedge) (R : Expr) (behind : Conj) → Shows k s before h R behind → InMembers members.now (before ++ (mem h R ∷ behind)) → result ≡ solved_literal (before ++ behind) (mem h R) }
{
    let h = s.h;
    let look = h.look;
    let x = lone_word(lone_variable(look));
    if x == 0 {
        return false;
    }
    once(members, x)
}

// Whether the literal at a place is solved.
fn solved_literal(k: &[u16], table: &[u16; TABLE], members: &[u16; TABLE], at: usize) -> bool
    requires { at < length k.now }
    ensures { (before : Conj) (l : Literal) (behind : Conj) → LiteralAt k.now at before l behind → Tallied table.now (before ++ (l ∷ behind)) → InMembers members.now (before ++ (l ∷ behind)) → result ≡ solved_literal (before ++ behind) l }
{
    if k[at] == 5000 {
        let v = see(k, at);
        if lonely_side(table, v) {
            return true;
        }
        return lonely_side(table, swapped(v));
    }
    let s = show_membership(k, at);
    lone_member(members, s)
}

// Whether a line is solved, the table having the counts of its variables.
pub fn is_solved(k: &[u16], table: &[u16; TABLE]) -> bool
    requires k_len_bound { length k.now ≤ desk.question }
    requires conjunction { Conjunction k.now }
    requires table_value { table.now ≡ afresh k.now }
    ensures { (c : Conj) → fine_conj desk c → k.now ≡ conj_words c → result ≡ solved c }
{
    let mut members = [0; TABLE];
    count_members(k, &mut members);
    let mut i = 0;
    while i < k.len() {
        let next = next_literal(k, i);
        let here = solved_literal(k, table, &members, i);
        if !here {
            return false;
        }
        i = next;
    }
    true
}
