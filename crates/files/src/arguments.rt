// The words that the program is started with.
ghost use Rattle.std.specs.Prelude.{◌≤◌, ◌≡◌, length};
ghost use Rattle.files.specs.declared.status.Status.TheVariants.{Failed};

use crate::status::{Status, failed};
use print::say;
use std::env::{Env, FillError};

// As many bytes as an argument may have: those of the longest path.
pub const LONGEST: usize = 4096;

// Argument `i` at the start of `buf`, and how many bytes it has: none where it is missing or longer than `buf`.
pub fn argument(rt: &HostRuntime, i: usize, buf: &mut [u8]) -> usize
    ensures { result ≤ length buf.new }
{
    rt.arg(i, buf).unwrap_or(0)
}

fn is_missing(rt: &HostRuntime, i: usize) -> bool {
    let mut none = [0u8; 0];
    matches!(rt.arg(i, &mut none), Err(FillError::NotPresent))
}

// How many arguments the program was started with, its own name among them.
pub fn count(rt: &HostRuntime) -> usize {
    for i in 0..usize::MAX {
        if is_missing(rt, i) {
            return i;
        }
    }
    usize::MAX
}

// Whether argument `i` is this word.
pub fn is(rt: &HostRuntime, i: usize, word: &[u8]) -> bool {
    let mut text = [0u8; LONGEST];
    let n = argument(rt, i, &mut text);
    &text[..n] == word
}

// Whether argument `i` is the last one.
pub fn is_last(rt: &HostRuntime, i: usize) -> bool {
    count(rt).checked_sub(1) == Some(i)
}

// Says argument `i` to standard error.
pub fn warn_of(rt: &HostRuntime, i: usize) {
    let mut text = [0u8; LONGEST];
    let n = argument(rt, i, &mut text);
    say(rt.stderr(), &text[..n]);
}

// Says argument `i`.
pub fn say_of(rt: &HostRuntime, i: usize) {
    let mut text = [0u8; LONGEST];
    let n = argument(rt, i, &mut text);
    say(rt.stdout(), &text[..n]);
}

// Says how a command is used.
pub fn wrong_use(rt: &HostRuntime, text: &str) -> Status
    ensures { result ≡ Failed }
{
    let _ = eprintln!(rt; "desk: {text}; desk --help says more");
    failed()
}
