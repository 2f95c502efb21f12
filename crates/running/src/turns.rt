// The run of a question, turn by turn, on one of the three courses.
ghost use Rattle.std.specs.Prelude.{◌+◌, ◌≤◌, ◌<◌, ◌≡◌, length, Ok};
ghost use Rattle.language.specs.Limits.{desk};
ghost use Rattle.language.specs.Question.{read_question};
ghost use Rattle.frames.specs.Frames.{frame, framed_length};
ghost use Rattle.counts.specs.Tables.{afresh};
ghost use Rattle.steps.specs.Asking.{RuleAt};
ghost use Rattle.reader.specs.Checking.{checked};
ghost use Rattle.running.specs.Courses.{Roomy};
ghost use Rattle.running.specs.Turning.{Advances, FirstOf, Taken, TurnsWith, TurnsFirst, Awaits, Begun, GoesOn, Runs};

use crate::moves::{State, line};
use crate::next_steps::{choose, finish};
use answers::begin;
use around::Ran;
use counts::TABLE;
use courses::{Course, note, one_more};
use first_waiting::take_first;
use frames::{FRAME, read_number};
use header::signature_of;
use language::Refusal;
use language::limits::{QUESTION, ROOM};
use rules::places::NO_RULE;
use search::{Best, find};
use steps::take_step;
use waiting::lay_out;

// The step b is made in the place of k, unless a number stands against it; with it so many are made. As of all turns, the answer is the state in
// which the run goes on, or the refusal that it stops with.
fn advance(
    k: &[u16],
    b: Best,
    number: u16,
    work: &mut [u16],
    next: usize,
    out: &mut [u16],
    course: Course,
    made: usize,
    s: State,
) -> Result<State, Refusal>
    requires k_len_bound { (length k.now ≤ desk.question) × (b.at < length k.now) × (next ≤ length work.old) × (next ≤ desk.room) × Roomy course b s.steps out.old }
    requires rule_at { RuleAt s.signature k.now b }
    ensures { Advances k.now b number next course made s work.old out.old result work.new out.new }
{
    let tally = s.tally;
    let signature = s.signature;
    let at = take_step(k, b, signature, number, work, next)?;
    if note(k, b, s.steps, out, course) {
        return Ok(State {
            at,
            steps: made,
            tally,
            signature,
        });
    }
    Err(Refusal::TrailRoom)
}

// One turn, the first waiting conjunction being k, of that alternative, and the table having the counts of its variables.
fn turn_with(
    k: &[u16],
    table: &[u16; TABLE],
    number: u16,
    next: usize,
    work: &mut [u16],
    answer: &mut [u16],
    told: &[u8],
    out: &mut [u16],
    course: Course,
    s: State,
) -> Result<State, Refusal>
    requires k_len_bound { (length k.now ≤ desk.question) × (next ≤ desk.room) × (desk.room ≤ length work.old) × (s.tally.«open» ≤ s.tally.lines) × (s.tally.end ≤ desk.room) × (desk.room ≤ length answer.old) }
    requires first_of { FirstOf k.now number next course s work.old answer.old told.now out.old }
    requires table_value { table.now ≡ afresh k.now }
    ensures { TurnsWith k.now number next course s work.old answer.old told.now out.old result work.new answer.new out.new }
{
    let signature = s.signature;
    let b = find(k, table, signature);
    if b.rank == NO_RULE {
        return line(k, table, number, next, answer, s);
    }
    if NO_RULE < b.rank {
        return Err(Refusal::LongWalk);
    }
    let c = choose(k, table, b, told, course, s)?;
    let made = one_more(told, course, s.steps);
    advance(k, c, number, work, next, out, course, made, s)
}

// One turn, the first waiting conjunction having been taken out, so that results can be written over its place, with the table of its counts.
fn turn(
    k: &[u16],
    table: &[u16; TABLE],
    work: &mut [u16],
    answer: &mut [u16],
    told: &[u8],
    out: &mut [u16],
    course: Course,
    s: State,
) -> Result<State, Refusal>
    requires at_bound { (s.at + frame + framed_length work.old s.at ≤ desk.room) × (framed_length work.old s.at ≤ desk.question) × (desk.room ≤ length work.old) × (s.tally.«open» ≤ s.tally.lines) × (s.tally.end ≤ desk.room) × (desk.room ≤ length answer.old) }
    requires awaits { Awaits course told.now s work.old answer.old out.old }
    requires taken { Taken k.now table.now s work.old }
    ensures { TurnsFirst course told.now s work.old answer.old out.old result work.new answer.new out.new }
{
    let at = s.at;
    let number = read_number(work, at);
    let next = at + FRAME + k.len();
    turn_with(k, table, number, next, work, answer, told, out, course, s)
}

// Turn after turn, until nothing waits. The table is that of the conjunction that waits first at each of them.
fn go_on(
    work: &mut [u16],
    answer: &mut [u16],
    told: &[u8],
    out: &mut [u16],
    course: Course,
    begin: State,
) -> Result<Ran, Refusal>
    requires { Begun course told.now begin work.old answer.old out.old }
    ensures { GoesOn course told.now begin work.old answer.old out.old result work.new answer.new out.new }
{
    let mut k = [0; QUESTION];
    let mut table = [0; TABLE];
    let mut n: usize = 0;
    let mut s = begin;
    while s.at < ROOM {
        n = take_first(work, s.at, &mut k, n, &mut table);
        s = turn(&k[0..n], &table, work, answer, told, out, course, s)?;
    }
    finish(told, course, s)
}

// The run of a question that was read.
pub fn run(
    question: &[u16],
    work: &mut [u16],
    answer: &mut [u16],
    told: &[u8],
    out: &mut [u16],
    course: Course,
) -> Result<Ran, Refusal>
    requires { (Ok tt ≡ checked (read_question desk question.now)) × (desk.room ≤ length work.old) × (desk.room ≤ length answer.old) }
    ensures { Runs course told.now (read_question desk question.now) work.old answer.old out.old result work.new answer.new out.new }
{
    let at = lay_out(question, work);
    let tally = begin(answer);
    let signature = signature_of(question);
    let s = State {
        at,
        steps: 0,
        tally,
        signature,
    };
    go_on(work, answer, told, out, course, s)
}
