// What `desk --help` and `desk --version` say.
use std::io::Stdout;

const HELP: [&str; 29] = [
    "",
    "desk solve FILE            the lines of a question",
    "desk try FILE FILLING      whether a filling meets a question",
    "desk example FILE LINE     a filling that meets a settled line; the first line is 0",
    "desk example --old-sheets FILE LINE",
    "                           the same; blanks that may be anything are then a0, and",
    "                           else the last symbol",
    "desk walk FILE             every step of the answer, in plain words",
    "desk trail FILE            the steps alone, as a trail: three words for each",
    "desk replay FILE TRAIL     the answer that a trail leads to, whoever wrote it",
    "desk day FILE..            a table of many questions: a row for each file",
    "desk overlap FILE          which live rules of a sheet can meet",
    "desk text FILE             a question as a text",
    "desk words FILE            a question as words in decimal",
    "",
    "A file holds words in decimal; # begins a remark, and - is standard input. A",
    "question may be a text instead, as docs/TEXT.md says. The folder examples has",
    "some questions.",
    "",
    "In an answer x0 is a blank for one part, p0 for a run of parts, X0 for a name;",
    "a0 is a symbol, a1~ one whose parts come in any order, () no part at all. In a",
    "pattern R . S is one after the other, R + S either, R* any number. A text is",
    "answered in its own names and signs. An open line may be met by some report or",
    "by none.",
    "",
    "The exit status is 0 where there are lines, a yes or an example, 1 where the",
    "answer is none or no, and 2 where the desk refuses, is used wrongly or cannot",
    "read a file; of a day it is 0 where every question is answered. Answers go to",
    "standard output, all else to standard error.",
];

pub fn version(out: Stdout) {
    let _ = println!(out; "desk 1.0: can any report meet all of this, and if so, which?");
}

pub fn help(out: Stdout) {
    version(out);
    for line in HELP {
        let _ = println!(out; "{line}");
    }
}
