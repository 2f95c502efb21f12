// The limits of the desk, each named once, with the numbers of `desk` in specs/Limits.antt. No other file of code has one of them as a number.

// words of a question, and of a conjunction that a step leaves
pub const QUESTION: usize = 4096;

// words of a lent slice, of the waiting conjunctions together, and of an answer
pub const ROOM: usize = 16384;

// words of a literal filled in
pub const LITERAL: usize = 8192;

// lines of an answer
pub const LINES: usize = 512;

// where the lines of an answer begin
pub const LINES_AT: usize = LINES + 3;

// steps of a run
pub const STEPS: usize = 10000;

// words of a filling
pub const FILLING: usize = 4096;

// symbols, and variables of each kind
pub const EACH: u16 = 128;

// an array that has a place for each number of a kind
pub const PLACES: usize = EACH as usize;

// conjunctions of a question
pub const ALTERNATIVES: u16 = 16;

// different pairs of expressions that a walk may reach
pub const PAIRS: usize = 4096;

// questions of a day's sheet
pub const SHEETS: usize = 64;

// the bytes of an answer
pub const ANSWER_BYTES: usize = 2 * ROOM;

// the last word of each kind that has numbers
pub const LAST_TERM: u16 = 1000 + EACH - 1;

pub const LAST_RUN: u16 = 2000 + EACH - 1;

pub const LAST_SYMBOL: u16 = 3000 + EACH - 1;

pub const LAST_FUNCTION: u16 = 4000 + EACH - 1;
