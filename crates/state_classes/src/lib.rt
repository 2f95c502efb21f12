// States of an expression in its words: which of them mean the same expression. The first of these stands for all.
#![tactic(auto)]

mod tails;

ghost use Rattle.std.specs.Prelude.{◌+◌, ◌*◌, ◌≤◌, ◌<◌, ◌≡◌, length};
ghost use Rattle.language.specs.Limits.{desk};
ghost use Rattle.state_classes.specs.Classes.{StateTest, Liked, Classed, Tabled, KeptTo, Changed, Expressed, state_room, Counted, Keyed, KeyedTo};

use crate::tails::{lay_open, same_state, tail_of, take_apart};
use charts::table::Chart;
use language::limits::QUESTION;
use words::word;

// Room for the states of a question's words: two for each, and two more.
pub const STATES: usize = 2 * QUESTION + 2;

fn narrow(x: usize) -> u16
    requires { x < 65536 }
    ensures { result ≡ x }
{
    x as u16
}

// Whether a number is that of a state, the first of which is given: the states behind it are by their symbols.
fn is_state(k: &[u16], first: usize, t: usize) -> bool
    ensures { StateTest k.now first t result }
{
    if t <= first {
        return true;
    }
    if word(k, (t - 1) / 2) < 7000 {
        return true;
    }
    false
}

// How many words the expression at a place has.
fn words_at(chart: &Chart, at: usize) -> u16
    ensures { Counted chart.now.words.now at result }
{
    let p = chart.part(at);
    let end = p.end;
    narrow((end - at) % 65536)
}

// A number that is one for all states that mean the same: the words of the second part of a concatenation, and of anything else its own.
fn key_of(chart: &Chart, at: usize, s: usize) -> u16
    ensures { Keyed chart.now.words.now at s result }
{
    let t = tail_of(chart, at, s);
    let Some(o) = lay_open(chart, t) else {
        return 1;
    };
    match take_apart(chart, t, o) {
        Ok(c) => words_at(chart, c.part),
        Err(part) => words_at(chart, part),
    }
}

// Whether a number is that of a state that means what s means. x and y are the keys of the two, which are looked at first.
fn is_like(chart: &Chart, at: usize, first: usize, s: usize, t: usize, x: u16, y: u16) -> bool
    requires { Keyed chart.now.words.now at s x × Keyed chart.now.words.now at t y }
    ensures { Liked chart.now.words.now at first s t result }
{
    let k = chart.words;
    if x == y {
        if is_state(k, first, t) {
            return same_state(chart, at, s, t);
        }
        return false;
    }
    false
}

// The first state of the expression at a place that means the same as s, whose key is x. The states before s have their keys.
fn class_of(chart: &Chart, at: usize, s: usize, x: u16, keys: &[u16; STATES]) -> usize
    requires { (at ≤ desk.question) × (s < state_room) × Keyed chart.now.words.now at s x × KeyedTo chart.now.words.now at s keys.now }
    ensures { Classed chart.now.words.now at s result }
{
    let first = 2 * at;
    for t in first..s {
        if is_like(chart, at, first, s, t, x, keys[t]) {
            return t;
        }
    }
    s
}

// The class of a number and its key, where it is that of a state.
fn class_at(
    chart: &Chart,
    at: usize,
    first: usize,
    s: usize,
    classes: &mut [u16; STATES],
    keys: &mut [u16; STATES],
)
    requires places { (at ≤ desk.question) × (first ≡ 2 * at) × (first ≤ s) × (s < state_room) }
    requires classes_len { (length classes.old ≡ state_room) × (length keys.old ≡ state_room) × KeyedTo chart.now.words.now at s keys.old }
    ensures { KeptTo s classes.old classes.new × (Tabled chart.now.words.now at s classes.old → Tabled chart.now.words.now at (s + 1) classes.new) × KeyedTo chart.now.words.now at (s + 1) keys.new × (length keys.new ≡ state_room) × Changed chart.now.words.now at (s + 1) classes.old classes.new }
{
    let k = chart.words;
    if is_state(k, first, s) {
        let x = key_of(chart, at, s);
        let c = class_of(chart, at, s, x, keys);
        classes[s] = narrow(c);
        keys[s] = x;
    }
}

// The classes of all states of the expression from `at` to `end`. All else in the table stays.
pub fn class_all(chart: &Chart, at: usize, end: usize, classes: &mut [u16; STATES])
    requires { (at ≤ end) × (end ≤ desk.question) × (length classes.old ≡ state_room) × Expressed chart.now.words.now at end }
    ensures { Tabled chart.now.words.now at (2 * end + 1) classes.new × KeptTo (2 * at) classes.old classes.new × Changed chart.now.words.now at (2 * end + 1) classes.old classes.new }
{
    let first = 2 * at;
    let last = 2 * end;
    let mut keys = [0; STATES];
    for s in first..last + 1 {
        class_at(chart, at, first, s, classes, &mut keys);
    }
}
