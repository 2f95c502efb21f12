// Lines of decimal words, for the programs that run cases and compare.
#![tactic(auto)]

ghost use Rattle.cases.specs.Lines.{Ends, Parsed};

use prompt::parse;

// Where the line that holds place `at` ends.
pub fn line_end(text: &[u8], at: usize) -> usize
    ensures { Ends text.now at result }
{
    for i in at..text.len() {
        if text[i] == b'\n' {
            return i;
        }
    }
    text.len()
}

// The words of a line, as many as there is room for, and how many they are.
pub fn words_of(line: &[u8], words: &mut [u16]) -> usize
    ensures { Parsed line.now words.old words.new result }
{
    let text = parse(line, words);
    text.words
}
