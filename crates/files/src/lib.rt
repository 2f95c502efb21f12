// What the operating system gives the desk at its prompt: arguments, and words or a text from a file, or from standard input where its name is -.
// No contract can say what that is (docs/PROMISES.md); what is proved is that it fits and that reading it ends.
#![tactic(auto)]

ghost use Rattle.std.specs.Prelude.{◌≤◌, ◌≡◌, length, IfOk, IfSome, MatchResult};

pub mod arguments;
pub mod status;

use arguments::{LONGEST, argument, is};
use collecting::{ALL, collect};
use language::Refusal;
use print::say;
use prompt::parse;
use read_text::read_text;
use std::fs::File;
use std::io::{Read, Stderr, Write};
use std::{io, str};
use word_bytes::write_words;

// More bytes than a file may have: as many as there is room for, and one more.
pub const TOO_MANY: usize = 65536;

// The bytes of the shelves of a text's names.
const SHELVES: usize = 2 * ALL;

// Room for the bytes of a file, and behind those of a text for the names in it.
pub const SHEET: usize = TOO_MANY + SHELVES;

// What the system says of a file descriptor that is closed, and of bytes that are no text, as a name of a file has to be.
const CLOSED: i32 = 9;

const NO_TEXT: i32 = 84;

fn is_dash(path: &[u8]) -> bool {
    path == b"-".as_slice()
}

// Bytes from where they are read, as far as there is room for them, and how many they are. A folder can be opened and not read.
fn read_into<R: Read>(from: &mut R, buf: &mut [u8]) -> io::Result<usize>
    ensures { IfOk result (λ n. n ≤ length buf.new) }
{
    let mut done = 0;
    while done < buf.len() {
        let n = from.read(&mut buf[done..])?;
        if n == 0 {
            return Ok(done);
        }
        done += n;
    }
    Ok(done)
}

fn read_file(rt: &HostRuntime, path: &[u8], buf: &mut [u8]) -> io::Result<usize>
    ensures { IfOk result (λ n. n ≤ length buf.new) }
{
    match str::from_utf8(path) {
        Ok(path) => {
            let mut file = File::open(rt, path)?;
            read_into(&mut file, buf)
        }
        Err(_) => Err(io::Error::from_raw_os_error(NO_TEXT)),
    }
}

// Whether an argument before argument `i` asks for standard input.
fn is_used(rt: &HostRuntime, i: usize) -> bool {
    (1..i).any(|j| is(rt, j, b"-"))
}

// Standard input can be read once: who asks for it again is told that it is closed, and gets no empty file.
fn read_input(rt: &HostRuntime, i: usize, buf: &mut [u8]) -> io::Result<usize>
    ensures { IfOk result (λ n. n ≤ length buf.new) }
{
    if is_used(rt, i) {
        return Err(io::Error::from_raw_os_error(CLOSED));
    }
    let mut input = rt.stdin();
    read_into(&mut input, buf)
}

// The bytes of the file of this path, which argument `i` is.
fn read(rt: &HostRuntime, i: usize, path: &[u8], buf: &mut [u8]) -> io::Result<usize>
    ensures { IfOk result (λ n. n ≤ length buf.new) }
{
    if is_dash(path) {
        return read_input(rt, i, buf);
    }
    read_file(rt, path, buf)
}

fn name(err: Stderr, path: &[u8]) {
    say(err, b"desk: ");
    say(
        err,
        if is_dash(path) {
            b"standard input"
        } else {
            path
        },
    );
}

// Says which file argument `i` names.
pub fn name_of(rt: &HostRuntime, i: usize) {
    let mut path = [0u8; LONGEST];
    let n = argument(rt, i, &mut path);
    name(rt.stderr(), &path[..n]);
}

// Says where something stands in the file of argument `i` that is no word.
fn complain(rt: &HostRuntime, i: usize, line: usize, column: usize) {
    name_of(rt, i);
    let _ = eprintln!(rt;
        ", line {line}, column {column}: not a word. Words are numbers from 0 to 65535, with blanks between them; # begins a remark."
    );
}

// Where the reason ends in the text of a failure: the system's number for it stands behind, in brackets.
fn reason_end(text: &[u8]) -> usize
    ensures { result ≤ length text.now }
{
    for i in 1..text.len() {
        if text[i] == b'(' {
            return i - 1;
        }
    }
    text.len()
}

// Says why a file is not read, in the system's words.
fn fail(err: Stderr, path: &[u8], why: io::Error) {
    let mut text = [0u8; 128];
    let mut room = &mut text[..];
    let _ = write!(room, "{why}");
    say(err, b"desk: ");
    say(err, path);
    say(err, b": ");
    say(err, &text[..reason_end(&text)]);
    say(err, b"\n");
}

// The bytes of the file that argument `i` names, at the start of `buf`, and how many they are: none where they were not read, which is said.
fn fetch(rt: &HostRuntime, i: usize, buf: &mut [u8]) -> Option<usize>
    ensures { IfSome result (λ n. n ≤ length buf.new) }
{
    let mut path = [0u8; LONGEST];
    let n = argument(rt, i, &mut path);
    match read(rt, i, &path[..n], buf) {
        Ok(got) if TOO_MANY <= got => {
            name(rt.stderr(), &path[..n]);
            say(rt.stderr(), b": more than 65,535 bytes\n");
            None
        }
        Ok(got) => Some(got),
        Err(why) => {
            fail(rt.stderr(), &path[..n], why);
            None
        }
    }
}

// Words in decimal, from the file of argument `i`: how many. Where something else stands there, that is said.
fn in_decimal(
    rt: &HostRuntime,
    i: usize,
    bytes: &[u8],
    words: &mut [u16],
) -> Result<usize, Option<Refusal>>
    ensures { IfOk result (λ n. n ≤ length words.new) }
{
    let t = parse(bytes, words);
    if t.line != 0 {
        complain(rt, i, t.line, t.column);
        return Err(None);
    }
    Ok(t.words)
}

// The words of the question that a text is: how many.
fn in_a_text(bytes: &[u8], words: &mut [u16]) -> Result<usize, Option<Refusal>>
    ensures { IfOk result (λ n. n ≤ length words.new) }
{
    match read_text(bytes, words) {
        Ok(n) => Ok(n.min(words.len())),
        Err(r) => Err(Some(r)),
    }
}

// Whether a byte stands among words, outside remarks.
fn is_plain(b: u8) -> bool {
    matches!(b, b'0'..=b'9' | b' ' | b'\t' | b'\r' | b'\n')
}

// Whether a file is a text: the first byte that is no digit, blank or line end does not begin a remark, which only words have.
fn holds_text(bytes: &[u8]) -> bool {
    match bytes.iter().find(|b| !is_plain(**b)) {
        Some(b) => *b != b'#',
        None => false,
    }
}

// The places of the shelves as words: no file has more bytes than a word can count.
fn narrowed(shelves: &[usize], out: &mut [u16]) {
    for (word, place) in out.iter_mut().zip(shelves) {
        *word = u16::try_from(*place).unwrap_or(0);
    }
}

// The words of these places as bytes, at the start of `out`.
fn write_shelves(shelves: &[usize], out: &mut [u8]) {
    let mut words = [0u16; ALL];
    narrowed(shelves, &mut words);
    if SHELVES <= out.len() {
        write_words(&words, out);
    }
}

// The names of a text of so many bytes, on shelves behind it as `collecting` leaves them, two bytes for each place: how many bytes the text and its names
// are, or 0 where there is no room for them.
fn list_names(buf: &mut [u8], n: usize) -> usize
    ensures { result ≤ length buf.new }
{
    if buf.len() < SHELVES {
        return 0;
    }
    if buf.len() - SHELVES < n {
        return 0;
    }
    let mut shelves = [0usize; ALL];
    collect(&buf[0..n], &mut shelves);
    write_shelves(&shelves, &mut buf[n..]);
    n + SHELVES
}

// What was read of a file: how many bytes, how many of them and behind them are a text and its names, 0 where it is no text, and how many words they
// came to.
#[derive(Clone, Copy)]
pub struct Loaded {
    pub bytes: usize,
    pub named: usize,
    pub words: usize,
}

// Why a file came to no words: a text is refused, or the reason is said already. And how many bytes were read.
#[derive(Clone, Copy)]
pub struct Unread {
    pub refusal: Option<Refusal>,
    pub bytes: usize,
}

const NOTHING_READ: Unread = Unread {
    refusal: None,
    bytes: 0,
};

// The bytes of the file that argument `i` names, at the start of `buf`, and their words.
pub fn load(rt: &HostRuntime, i: usize, buf: &mut [u8], words: &mut [u16]) -> Result<Loaded, Unread>
    ensures { MatchResult result (λ t. (t.bytes ≤ length buf.new) × (t.words ≤ length words.new)) (λ u. u.bytes ≤ length buf.new) }
{
    let Some(n) = fetch(rt, i, buf) else {
        return Err(NOTHING_READ);
    };
    match in_decimal(rt, i, &buf[0..n], words) {
        Ok(words) => Ok(Loaded {
            bytes: n,
            named: 0,
            words,
        }),
        Err(refusal) => Err(Unread { refusal, bytes: n }),
    }
}

// A text of so many bytes as words, and its names behind it.
fn load_text(n: usize, buf: &mut [u8], words: &mut [u16]) -> Result<Loaded, Unread>
    requires { n ≤ length buf.old }
    ensures { MatchResult result (λ t. (t.bytes ≤ length buf.new) × (t.named ≤ length buf.new) × (t.words ≤ length words.new)) (λ u. u.bytes ≤ length buf.new) }
{
    match in_a_text(&buf[0..n], words) {
        Ok(words) => {
            let named = list_names(buf, n);
            Ok(Loaded {
                bytes: n,
                named,
                words,
            })
        }
        Err(refusal) => Err(Unread { refusal, bytes: n }),
    }
}

// The same of a question, which may be a text: its names then stand behind it.
pub fn load_question(
    rt: &HostRuntime,
    i: usize,
    buf: &mut [u8],
    words: &mut [u16],
) -> Result<Loaded, Unread>
    ensures { MatchResult result (λ t. (t.bytes ≤ length buf.new) × (t.named ≤ length buf.new) × (t.words ≤ length words.new)) (λ u. u.bytes ≤ length buf.new) }
{
    let Some(n) = fetch(rt, i, buf) else {
        return Err(NOTHING_READ);
    };
    if holds_text(&buf[0..n]) {
        return load_text(n, buf, words);
    }
    match in_decimal(rt, i, &buf[0..n], words) {
        Ok(words) => Ok(Loaded {
            bytes: n,
            named: 0,
            words,
        }),
        Err(refusal) => Err(Unread { refusal, bytes: n }),
    }
}
