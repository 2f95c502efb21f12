// Words in decimal, as a person writes them: blanks and line ends between them, and from # to the end of a line a remark.
#![tactic(auto)]

ghost use Rattle.std.specs.Prelude.{◌<◌, ◌≤◌, ◌≡◌, [], ◌∷◌, length};
ghost use Rattle.prompt.specs.Texts.{digit, gap, longer, after_word, outside, in_remark, next, is_wrong, begins, after, ended};
ghost use Rattle.prompt.specs.declared.Mode.TheVariants.{Number};
ghost use Rattle.prompt.specs.Parsed.{Put, Parsed};

// Where reading stands: between words, in a word that is this number so far, in a remark, or past something else.
#[derive(Clone, Copy)]
enum Mode {
    Between,
    Number(u16),
    Remark,
    Wrong,
}

// Where a byte stands, its line and column counted from 1; and the column where the last word began.
#[derive(Clone, Copy)]
struct Place {
    line: usize,
    column: usize,
    from: usize,
}

// How many words were read; and the line and column, from 1, where something begins that is no word, or 0 and 0.
#[derive(Clone, Copy)]
pub struct Text {
    pub words: usize,
    pub line: usize,
    pub column: usize,
}

fn is_digit(b: u8) -> bool
    ensures { result ≡ digit b }
{
    if b < b'0' {
        return false;
    }
    b <= b'9'
}

fn is_gap(b: u8) -> bool
    ensures { result ≡ gap b }
{
    match b {
        b' ' => true,
        b'\t' => true,
        b'\r' => true,
        b'\n' => true,
        _ => false,
    }
}

fn wide(word: u16) -> u32
    ensures { result ≡ word }
{
    word as u32
}

fn wide_byte(b: u8) -> u32
    ensures { result ≡ b }
{
    b as u32
}

// The number with one digit more.
fn with_digit(v: u16, b: u8) -> Mode
    requires { 48 ≤ b }
    ensures { result ≡ longer v b }
{
    let more = wide(v) * 10 + (wide_byte(b) - 48);
    if more < 65536 {
        return Mode::Number(more as u16);
    }
    Mode::Wrong
}

fn after_word(b: u8) -> Mode
    ensures { result ≡ after_word b }
{
    if is_gap(b) {
        return Mode::Between;
    }
    if b == b'#' {
        return Mode::Remark;
    }
    Mode::Wrong
}

fn outside_remarks(v: u16, b: u8) -> Mode
    ensures { result ≡ outside v b }
{
    if is_digit(b) {
        return with_digit(v, b);
    }
    after_word(b)
}

fn inside_remark(b: u8) -> Mode
    ensures { result ≡ in_remark b }
{
    if b == b'\n' {
        return Mode::Between;
    }
    Mode::Remark
}

fn go_on(mode: Mode, b: u8) -> Mode
    ensures { result ≡ next mode b }
{
    match mode {
        Mode::Between => outside_remarks(0, b),
        Mode::Number(v) => outside_remarks(v, b),
        Mode::Remark => inside_remark(b),
        Mode::Wrong => Mode::Wrong,
    }
}

fn is_wrong(mode: Mode) -> bool
    ensures { result ≡ is_wrong mode }
{
    match mode {
        Mode::Between => false,
        Mode::Number(_) => false,
        Mode::Remark => false,
        Mode::Wrong => true,
    }
}

// The column where the word begins that a byte here goes on with, or that it begins.
fn beginning(mode: Mode, here: Place) -> usize
    ensures { result ≡ begins mode here }
{
    match mode {
        Mode::Between => here.column,
        Mode::Number(_) => here.from,
        Mode::Remark => here.column,
        Mode::Wrong => here.column,
    }
}

// The place after this byte.
fn past(here: Place, from: usize, b: u8) -> Place
    requires line_bound { here.line < 18446744073709551615 }
    requires column_bound { here.column < 18446744073709551615 }
    ensures { result ≡ after here from b }
{
    if b == b'\n' {
        return Place {
            line: here.line + 1,
            column: 1,
            from: from,
        };
    }
    Place {
        line: here.line,
        column: here.column + 1,
        from: from,
    }
}

// A word put at `n`, where there is room: the place after it.
fn put(words: &mut [u16], n: usize, v: u16) -> usize
    requires { n ≤ length words.old }
    ensures { Put words.old n (v ∷ []) result words.new }
{
    if n < words.len() {
        words[n] = v;
        return n + 1;
    }
    n
}

fn put_at_end(words: &mut [u16], n: usize, v: u16, b: u8) -> usize
    requires { n ≤ length words.old }
    ensures { Put words.old n (ended (Number v) b) result words.new }
{
    if is_digit(b) {
        return n;
    }
    put(words, n, v)
}

// The word that ends before this byte, if one does.
fn keep(words: &mut [u16], n: usize, mode: Mode, b: u8) -> usize
    requires { n ≤ length words.old }
    ensures { Put words.old n (ended mode b) result words.new }
{
    match mode {
        Mode::Number(v) => put_at_end(words, n, v, b),
        Mode::Between => n,
        Mode::Remark => n,
        Mode::Wrong => n,
    }
}

// The words of a text, at the start of `words`, as many as there is room for. The end of the text ends its last word.
pub fn parse(text: &[u8], words: &mut [u16]) -> Text
    ensures { Parsed text.now words.old result words.new }
{
    let mut n = 0;
    let mut here = Place {
        line: 1,
        column: 1,
        from: 1,
    };
    let mut mode = Mode::Between;
    let mut at = 0;
    while at < text.len() {
        let b = text[at];
        let then = go_on(mode, b);
        let from = beginning(mode, here);
        if is_wrong(then) {
            return Text {
                words: n,
                line: here.line,
                column: from,
            };
        }
        n = keep(words, n, mode, b);
        here = past(here, from, b);
        mode = then;
        at += 1;
    }
    Text {
        words: keep(words, n, mode, b'\n'),
        line: 0,
        column: 0,
    }
}
