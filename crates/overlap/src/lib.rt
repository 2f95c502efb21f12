// The overlap desk, for a C program: whether two live rules can meet, and the table of a whole sheet of them.
#![tactic(auto)]

ghost use Rattle.std.specs.Prelude.{◌+◌, ◌*◌, ◌/◌, ◌≤◌, ◌<◌, ◌≡◌, true, map, length};
ghost use Rattle.std.proofs.lemmas.List.Edits.{sets};
ghost use Rattle.word_bytes.specs.Bytes.{words_of, words_in, bytes_of};
ghost use Rattle.live_rules.specs.Layout.{Rule, most_rules, rule_end, rule_at, rules_laid, rules_from};
ghost use Rattle.pairing.specs.Meeting.{meeting};
ghost use Rattle.pairing.specs.Lent.{Told};
ghost use Rattle.overlap.specs.Table.{word_from, pairs_of, row_words, table, table_number, table_leaves};
ghost use Rattle.overlap.specs.Lengths.{rows_length, pair_count, table_length};

use language::wide;
use live_rules::{rule_end, sheet_number};
use pairing::meet;
use word_bytes::{word_at, write_words_at};

// Before a row's report: two actions, and a number of two words.
const HEAD: usize = 4;

// A question's word 0; a number that is no word stands for more symbols than there are.
fn first_word(n: u32) -> u16
    ensures { result ≡ word_from n }
{
    u16::try_from(n).unwrap_or(u16::MAX)
}

// Whether two rules can meet, by their patterns' bytes: 100 they cannot, 101 it is not settled, 200 and the words of a report that both match, which
// the room then holds; or the refusal's number.
pub fn overlap_pair(word_0: u32, first: &[u8], second: &[u8], room: &mut [u8]) -> u32
    ensures { Told (meeting (length room.old / 2) (word_from word_0) (words_in first.now) (words_in second.now)) 0 room.old result room.new }
{
    let size = room.len() / 2;
    meet(first_word(word_0), first, second, room, 0, size)
}

// The pattern of the rule at a place.
fn pattern<'a>(sheet: &'a [u8], at: usize) -> &'a [u8]
    requires { rule_end (words_of sheet.now) at ≤ length sheet.now / 2 }
    ensures { words_in result.now ≡ (rule_at (words_of sheet.now) at).pattern }
{
    let end = rule_end(sheet, at);
    &sheet[2 * (at + 2)..2 * end]
}

// The row of the rules at two places, from the word `to` on.
fn row(word: u16, sheet: &[u8], i: usize, j: usize, size: usize, room: &mut [u8], to: usize)
    requires { (rule_end (words_of sheet.now) i ≤ length sheet.now / 2) × (rule_end (words_of sheet.now) j ≤ length sheet.now / 2) × (2 * (to + (size + 4)) ≤ length room.old) }
    ensures { room.new ≡ sets room.old (2 * to) (bytes_of (row_words size word (rule_at (words_of sheet.now) i, rule_at (words_of sheet.now) j))) }
{
    let n = meet(
        word,
        pattern(sheet, i),
        pattern(sheet, j),
        room,
        to + HEAD,
        size,
    );
    let mut head = [0u16; HEAD];
    head[0] = word_at(sheet, i);
    head[1] = word_at(sheet, j);
    head[2] = (n % 65536) as u16;
    head[3] = (n / 65536) as u16;
    write_words_at(&head, room, to);
}

// The rows of the rule at `i` with each of the n rules from `from` on. The place after them.
fn rows(
    word: u16,
    sheet: &[u8],
    i: usize,
    from: usize,
    n: usize,
    size: usize,
    room: &mut [u8],
    to: usize,
) -> usize
    requires { (rule_end (words_of sheet.now) i ≤ length sheet.now / 2) × (rules_laid n from (words_of sheet.now) ≡ true) × (2 * (to + rows_length size n) ≤ length room.old) }
    ensures { (result ≡ to + rows_length size n) × (room.new ≡ table size word (map (λ (s : Rule). (rule_at (words_of sheet.now) i, s)) (rules_from n from (words_of sheet.now))) to room.old) }
{
    let mut at = to;
    let mut j = from;
    for k in 0..n {
        row(word, sheet, i, j, size, room, at);
        j = rule_end(sheet, j);
        at += size + HEAD;
    }
    at
}

// The rows of all pairs of the sheet's n rules.
fn all_rows(word: u16, sheet: &[u8], n: usize, size: usize, room: &mut [u8])
    requires { (rules_laid n 2 (words_of sheet.now) ≡ true) × (2 * table_length size n ≤ length room.old) }
    ensures { room.new ≡ table size word (pairs_of (rules_from n 2 (words_of sheet.now))) 0 room.old }
{
    let mut at: usize = 0;
    let mut i: usize = 2;
    for k in (0..n).rev() {
        let next = rule_end(sheet, i);
        at = rows(word, sheet, i, next, k, size, room, at);
        i = next;
    }
}

// How many pairs n rules have. Numbers of 32 bits: of 64 bits the loop becomes a product of 128 on the way to some processors.
fn pair_count(n: u32) -> u32
    requires { n ≤ most_rules }
    ensures { (result ≡ pair_count n) × (result ≤ most_rules * most_rules) }
{
    let mut pairs: u32 = 0;
    for i in 0..n {
        pairs += i;
    }
    pairs
}

// How many words the rows of all pairs of n rules have.
fn table_length(n: usize, size: usize) -> usize
    requires { (n ≤ most_rules) × (size < 4294967296) }
    ensures { result ≡ table_length size n }
{
    pair_count(n as u32) as usize * (size + HEAD)
}

// The table of a sheet of live rules: the refusal's number, or 0. Each row has room for a report of `report` words.
pub fn overlap_sheet(sheet: &[u8], report: u32, room: &mut [u8]) -> u32
    ensures value { result ≡ table_number report (words_in sheet.now) (length room.old / 2) }
    ensures room_after { room.new ≡ table_leaves report (words_in sheet.now) room.old }
{
    let k = sheet_number(sheet);
    if k != 0 {
        return k;
    }
    let n = wide(word_at(sheet, 1));
    let size = report as usize;
    if room.len() / 2 < table_length(n, size) {
        return 1;
    }
    all_rows(word_at(sheet, 0), sheet, n, size, room);
    0
}
