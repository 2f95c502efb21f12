// A sheet of live rules in bytes: whether it is one, and where its rules stand.
#![tactic(auto)]

ghost use Rattle.std.specs.Prelude.{◌+◌, ◌*◌, ◌/◌, ◌≤◌, ◌≡◌, length};
ghost use Rattle.word_bytes.specs.Bytes.{words_of, words_in};
ghost use Rattle.live_rules.specs.Layout.{rule_end, rule_fits, rules_laid, sheet_number};

use language::wide;
use word_bytes::word_at;

// The most rules of a sheet.
pub const RULES: usize = 32;

// Keep, drop, forward.
pub const ACTIONS: u16 = 3;

// The place behind the rule at a place.
pub fn rule_end(sheet: &[u8], at: usize) -> usize
    requires { 2 * (at + 2) ≤ length sheet.now }
    ensures { result ≡ rule_end (words_of sheet.now) at }
{
    at + 2 + wide(word_at(sheet, at + 1))
}

// Whether a rule stands at a place, with all of its pattern.
fn rule_fits(sheet: &[u8], at: usize) -> bool
    requires { at ≤ length sheet.now / 2 }
    ensures { result ≡ rule_fits (words_of sheet.now) at }
{
    let end = sheet.len() / 2;
    if end < at + 2 {
        return false;
    }
    if word_at(sheet, at) >= ACTIONS {
        return false;
    }
    rule_end(sheet, at) <= end
}

// Whether so many rules stand behind the header, and nothing behind them.
fn laid(sheet: &[u8], n: usize) -> bool
    requires { 4 ≤ length sheet.now }
    ensures { result ≡ rules_laid n 2 (words_of sheet.now) }
{
    let mut at: usize = 2;
    for i in 0..n {
        if !rule_fits(sheet, at) {
            return false;
        }
        at = rule_end(sheet, at);
    }
    at == sheet.len() / 2
}

// Whether these bytes are a sheet of live rules: 24 for too many rules, 4 where they are none, and else 0.
pub fn sheet_number(sheet: &[u8]) -> u32
    ensures { result ≡ sheet_number (words_in sheet.now) }
{
    if sheet.len() % 2 != 0 {
        return 4;
    }
    if sheet.len() < 4 {
        return 4;
    }
    let n = wide(word_at(sheet, 1));
    if RULES < n {
        return 24;
    }
    if laid(sheet, n) {
        return 0;
    }
    4
}
