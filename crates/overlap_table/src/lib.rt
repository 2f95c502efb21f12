// A sheet of live rules, pair by pair: a table of those that can meet or are not settled, with the dangerous ones first, whose actions are different.
#![tactic(auto)]

ghost use Rattle.std.specs.Prelude.{◌≤◌, length};

use files::status::{Status, failed, found, nothing};
use files::{TOO_MANY, load};
use language::limits::FILLING;
use live_rules::{rule_end, sheet_number};
use overlap_wording::{heading, met, no_pair, no_progress, not_met, pair, progress, refused, rest};
use pairing::meet;
use std::io::IsTerminal;
use word_bytes::{take_words, word_at, write_words};

// As many words as a text of 65,535 bytes can have.
const SHEET: usize = 32768;

// The bytes of the longest report that is shown.
const REPORT: usize = 2 * FILLING;

// How many pairs stand in the table, how many of these are refused, and how many cannot meet.
#[derive(Clone, Copy)]
struct Tally {
    rows: usize,
    failed: usize,
    apart: usize,
}

// Two rules: their numbers, the places where they stand, and their actions.
#[derive(Clone, Copy)]
struct Rules {
    i: usize,
    first: usize,
    a: u16,
    j: usize,
    second: usize,
    b: u16,
}

// A word of the sheet, and 0 where it has none.
fn word_of(sheet: &[u8], at: usize) -> u16 {
    if at < sheet.len() / 2 {
        word_at(sheet, at)
    } else {
        0
    }
}

// The place behind the rule at a place, and its pattern: of no use where no rule stands there.
fn behind(sheet: &[u8], at: usize) -> usize {
    if sheet.len() / 2 < 2 {
        return at;
    }
    if sheet.len() / 2 - 2 < at {
        return at;
    }
    rule_end(sheet, at)
}

fn pattern(sheet: &[u8], at: usize) -> &[u8] {
    let to = behind(sheet, at);
    let end = sheet.len() / 2;
    if end < to {
        return &sheet[0..0];
    }
    if to < 2 {
        return &sheet[0..0];
    }
    if to - 2 < at {
        return &sheet[0..0];
    }
    &sheet[2 * (at + 2)..2 * to]
}

// The report that is in the room, behind its two rules: zeros stand behind it.
fn show(rt: &HostRuntime, word: u16, room: &[u8]) {
    let mut report = [0u16; FILLING];
    let n = take_words(room, &mut report);
    met(rt.stdout(), word, &report[..n]);
}

// A row, for a pair that does not meet for sure; whether it is refused.
fn row(rt: &HostRuntime, r: Rules, word: u16, n: u32, room: &[u8]) -> bool {
    pair(rt.stdout(), r.i, r.a, r.j, r.b);
    if 200 <= n {
        show(rt, word, room);
        return false;
    }
    not_met(rt.stdout(), n);
    if n == 16 {
        return false;
    }
    n < 100
}

// What a pair came to, as a row or in a count.
fn told(rt: &HostRuntime, r: Rules, word: u16, n: u32, room: &[u8], t: Tally) -> Tally {
    let mut next = t;
    if n == 100 {
        next.apart = t.apart.saturating_add(1);
        return next;
    }
    next.rows = t.rows.saturating_add(1);
    if row(rt, r, word, n, room) {
        next.failed = t.failed.saturating_add(1);
    }
    next
}

fn ask(rt: &HostRuntime, sheet: &[u8], r: Rules, t: Tally) -> Tally {
    let mut room = [0u8; REPORT];
    let word = word_of(sheet, 0);
    if rt.stderr().is_terminal() {
        progress(rt.stderr(), r.i, r.j);
    }
    let n = meet(
        word,
        pattern(sheet, r.first),
        pattern(sheet, r.second),
        &mut room,
        0,
        FILLING,
    );
    if rt.stderr().is_terminal() {
        no_progress(rt.stderr());
    }
    told(rt, r, word, n, &room, t)
}

// The pair, where its actions are different or not, as is asked.
fn sorted(rt: &HostRuntime, sheet: &[u8], r: Rules, different: bool, t: Tally) -> Tally {
    if (r.a != r.b) == different {
        return ask(rt, sheet, r, t);
    }
    t
}

// A rule with each of those behind it.
fn with_later(
    rt: &HostRuntime,
    sheet: &[u8],
    i: usize,
    at: usize,
    n: usize,
    different: bool,
    before: Tally,
) -> Tally {
    let mut t = before;
    let mut second = behind(sheet, at);
    for j in i.saturating_add(1)..n {
        let r = Rules {
            i,
            first: at,
            a: word_of(sheet, at),
            j,
            second,
            b: word_of(sheet, second),
        };
        t = sorted(rt, sheet, r, different, t);
        second = behind(sheet, second);
    }
    t
}

// The pairs whose actions are different, or the others, behind their heading.
fn section(rt: &HostRuntime, sheet: &[u8], n: usize, different: bool, before: Tally) -> Tally {
    heading(rt.stdout(), different);
    let mut t = before;
    let mut at: usize = 2;
    for i in 0..n {
        t = with_later(rt, sheet, i, at, n, different, t);
        at = behind(sheet, at);
    }
    if t.rows == before.rows {
        no_pair(rt.stdout());
    }
    t
}

fn ended(rt: &HostRuntime, t: Tally) -> Status {
    rest(rt.stdout(), t.apart);
    if t.failed != 0 {
        return failed();
    }
    if t.rows != 0 {
        return found();
    }
    nothing()
}

// The table of a sheet's bytes.
fn all_pairs(rt: &HostRuntime, sheet: &[u8]) -> Status {
    let k = sheet_number(sheet);
    if k != 0 {
        refused(rt.stderr(), k);
        return failed();
    }
    let n = usize::from(word_of(sheet, 1));
    let none = Tally {
        rows: 0,
        failed: 0,
        apart: 0,
    };
    let t = section(rt, sheet, n, true, none);
    ended(rt, section(rt, sheet, n, false, t))
}

fn sheet_of(rt: &HostRuntime, words: &[u16]) -> Status
    requires { length words.now ≤ 32768 }
{
    let mut bytes = [0u8; 2 * SHEET];
    write_words(words, &mut bytes);
    let n = 2 * words.len();
    all_pairs(rt, &bytes[0..n])
}

// The table of the sheet in the file that argument `i` names. It prints, and returns its status.
pub fn overlap_file(rt: &HostRuntime, i: usize) -> Status {
    let mut buf = [0u8; TOO_MANY];
    let mut words = [0u16; SHEET];
    match load(rt, i, &mut buf, &mut words) {
        Ok(t) => sheet_of(rt, &words[0..t.words]),
        Err(_) => failed(),
    }
}
