// Bytes, which need not be text, to standard output or standard error. The call takes the permission to write there, and what is said where
// nobody reads it any more is lost: the desk answers as if it were read, and its exit status says the same. So is what `print!` writes, whose
// result nobody asks for.
#![tactic(auto)]

use std::io::Print;

pub fn say<P: Print + Drop>(out: P, text: &[u8]) {
    let _ = out.write_all(text);
}
