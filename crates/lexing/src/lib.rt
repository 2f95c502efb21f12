// The tokens of a text, one after the other, where they stand: a name is kept as the place where it begins.
#![tactic(auto)]

ghost use Rattle.std.specs.Prelude.{◌+◌, ◌≤◌, ◌<◌, ◌≡◌, length, drop};
ghost use Rattle.language.specs.Kinds.{pick};
ghost use Rattle.grammar.specs.Tokens.{name_byte, blank};
ghost use Rattle.lexing.specs.declared.Mark.TheVariants.{Bad, Symbol};
ghost use Rattle.lexing.specs.Bytes.{name_length, blanks, mark_of, sort_of, alone};
ghost use Rattle.lexing.specs.Pieces.{marked_of, piece_of, next_of};

// What a token is: the end of a line, no token; a name, ?name, *name, %name; = , ( ) + *.
#[derive(Clone, Copy)]
pub enum Mark {
    End,
    Bad,
    Symbol,
    One,
    Run,
    Function,
    Equals,
    Comma,
    Opens,
    Closes,
    Plus,
    Times,
}

// A token: what it is, where its name begins or it stands, and the place after it.
#[derive(Clone, Copy)]
pub struct Piece {
    pub mark: Mark,
    pub from: usize,
    pub to: usize,
}

// A letter or a digit.
pub fn is_name_byte(b: u8) -> bool
    ensures { result ≡ name_byte b }
{
    if b < 48 {
        return false;
    }
    if b <= 57 {
        return true;
    }
    if b < 65 {
        return false;
    }
    if b <= 90 {
        return true;
    }
    if b < 97 {
        return false;
    }
    b <= 122
}

// A space, a tab, a carriage return.
fn is_blank(b: u8) -> bool
    ensures { result ≡ blank b }
{
    match b {
        b' ' => true,
        b'\t' => true,
        b'\r' => true,
        _ => false,
    }
}

// A byte that is no character of the grammar's own: of a name, or of nothing.
fn letter(b: u8) -> Mark
    ensures { result ≡ pick (name_byte b) Symbol Bad }
{
    if is_name_byte(b) {
        return Mark::Symbol;
    }
    Mark::Bad
}

// What a byte begins that is no blank and no end of a line.
pub fn mark_of(b: u8) -> Mark
    ensures { result ≡ mark_of b }
{
    match b {
        b'?' => Mark::One,
        b'*' => Mark::Run,
        b'%' => Mark::Function,
        b'=' => Mark::Equals,
        b',' => Mark::Comma,
        b'(' => Mark::Opens,
        b')' => Mark::Closes,
        b'+' => Mark::Plus,
        _ => letter(b),
    }
}

pub fn sort(mark: Mark) -> u8
    ensures { result ≡ sort_of mark }
{
    match mark {
        Mark::End => 0,
        Mark::Bad => 0,
        Mark::Symbol => 1,
        Mark::One => 2,
        Mark::Run => 2,
        Mark::Function => 2,
        Mark::Equals => 3,
        Mark::Comma => 3,
        Mark::Opens => 3,
        Mark::Closes => 3,
        Mark::Plus => 3,
        Mark::Times => 3,
    }
}

fn without_name(mark: Mark) -> Mark
    ensures { result ≡ alone mark }
{
    match mark {
        Mark::End => Mark::Bad,
        Mark::Bad => Mark::Bad,
        Mark::Symbol => Mark::Bad,
        Mark::One => Mark::Bad,
        Mark::Run => Mark::Times,
        Mark::Function => Mark::Bad,
        Mark::Equals => Mark::Bad,
        Mark::Comma => Mark::Bad,
        Mark::Opens => Mark::Bad,
        Mark::Closes => Mark::Bad,
        Mark::Plus => Mark::Bad,
        Mark::Times => Mark::Bad,
    }
}

// The place after the letters and digits that stand from `at` on.
fn name_end(text: &[u8], at: usize) -> usize
    requires { at ≤ length text.now }
    ensures { result ≡ at + name_length (drop at text.now) }
{
    for i in at..text.len() {
        if !is_name_byte(text[i]) {
            return i;
        }
    }
    text.len()
}

// The place after the blanks that stand from `at` on.
fn skip(text: &[u8], at: usize) -> usize
    requires { at ≤ length text.now }
    ensures { result ≡ at + blanks (drop at text.now) }
{
    for i in at..text.len() {
        if !is_blank(text[i]) {
            return i;
        }
    }
    text.len()
}

// A mark whose name would begin at `at`.
fn marked(text: &[u8], mark: Mark, at: usize) -> Piece
    requires { at ≤ length text.now }
    ensures { result ≡ marked_of text.now mark at }
{
    let to = name_end(text, at);
    if to == at {
        return Piece {
            mark: without_name(mark),
            from: at,
            to: to,
        };
    }
    Piece {
        mark: mark,
        from: at,
        to: to,
    }
}

// The token that a mark at `at` begins.
fn begun(text: &[u8], mark: Mark, at: usize) -> Piece
    requires { at < length text.now }
    ensures { result ≡ piece_of text.now mark at }
{
    let s = sort(mark);
    if s == 0 {
        return Piece {
            mark: Mark::Bad,
            from: at,
            to: at,
        };
    }
    if s == 1 {
        return Piece {
            mark: mark,
            from: at,
            to: name_end(text, at),
        };
    }
    if s == 2 {
        return marked(text, mark, at + 1);
    }
    Piece {
        mark: mark,
        from: at,
        to: at + 1,
    }
}

// The first token of the line from `at` on.
pub fn next(text: &[u8], at: usize) -> Piece
    requires { at ≤ length text.now }
    ensures { result ≡ next_of text.now at }
{
    let i = skip(text, at);
    if i == text.len() {
        return Piece {
            mark: Mark::End,
            from: i,
            to: i,
        };
    }
    let b = text[i];
    if b == b'\n' {
        return Piece {
            mark: Mark::End,
            from: i,
            to: i,
        };
    }
    begun(text, mark_of(b), i)
}
