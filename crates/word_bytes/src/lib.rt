// Words as bytes, the low byte first: read from the bytes of a caller, and written to them.
#![tactic(auto)]

ghost use Rattle.std.specs.Prelude.{◌+◌, ◌*◌, ◌/◌, ◌%◌, ◌≤◌, ◌<◌, ◌≡◌, length, take, get_or};
ghost use Rattle.std.proofs.lemmas.List.Edits.{sets};
ghost use Rattle.word_bytes.specs.Bytes.{word_of, words_of, bytes_of, words_in, fitting};

fn word(low: u8, high: u8) -> u16
    ensures { result ≡ word_of low high }
{
    u16::from_le_bytes([low, high])
}

// The low byte and the high byte of a word.
fn halves(w: u16) -> (u8, u8)
    ensures { (result.0 ≡ w % 256) × (result.1 ≡ w / 256) }
{
    let [low, high] = w.to_le_bytes();
    (low, high)
}

// The words of these bytes, at the start of `words`.
fn read_words(bytes: &[u8], words: &mut [u16])
    requires { length bytes.now / 2 ≤ length words.old }
    ensures { words.new ≡ sets words.old 0 (words_of bytes.now) }
{
    for i in 0..bytes.len() / 2 {
        words[i] = word(bytes[2 * i], bytes[2 * i + 1]);
    }
}

// The words that these bytes hold, at the start of `words`, and how many they are: none where the count of bytes is odd or they do not fit.
pub fn take_words(bytes: &[u8], words: &mut [u16]) -> usize
    ensures upper_bound { (result ≤ length words.new) × (result ≡ length (take result words.new)) }
    ensures words_after { (take result words.new ≡ fitting (length words.old) (words_in bytes.now)) × (words.new ≡ sets words.old 0 (fitting (length words.old) (words_in bytes.now))) }
{
    let n = bytes.len() / 2;
    if bytes.len() % 2 != 0 {
        return 0;
    }
    if words.len() < n {
        return 0;
    }
    read_words(bytes, words);
    n
}

// The bytes of these words, from the place of the word `at` on.
pub fn write_words_at(words: &[u16], bytes: &mut [u8], at: usize)
    requires { 2 * (at + length words.now) ≤ length bytes.old }
    ensures { bytes.new ≡ sets bytes.old (2 * at) (bytes_of words.now) }
{
    for i in 0..words.len() {
        let (low, high) = halves(words[i]);
        bytes[2 * (at + i)] = low;
        bytes[2 * (at + i) + 1] = high;
    }
}

// The bytes of these words, at the start of `bytes`.
pub fn write_words(words: &[u16], bytes: &mut [u8])
    requires { 2 * length words.now ≤ length bytes.old }
    ensures { bytes.new ≡ sets bytes.old 0 (bytes_of words.now) }
{
    write_words_at(words, bytes, 0);
}

// The word at a place.
pub fn word_at(bytes: &[u8], i: usize) -> u16
    requires { 2 * i + 1 < length bytes.now }
    ensures { result ≡ get_or (words_of bytes.now) i 0 }
{
    word(bytes[2 * i], bytes[2 * i + 1])
}
