// The commands of the desk at its prompt: which one is asked for, and whether as much is said as it takes.
#![tactic(auto)]

ghost use Rattle.std.specs.Prelude.{◌<◌};

use day_table::day_files;
use example_command::example_file;
use files::arguments::{count, is, is_last, warn_of, wrong_use};
use files::status::{Status, found};
use overlap_table::overlap_file;
use print::say;
use replay_command::replay_file;
use solve_command::solve_file;
use text_commands::{text_file, words_file};
use try_command::try_file;
use walk_commands::{trail_file, walk_file};
use wording::help::{help, version};

// What a command does whose last word is argument `last`, or what it takes.
fn up_to<F: Fn() -> Status>(rt: &HostRuntime, last: usize, takes: &str, does: F) -> Status
    requires { F.IsAlwaysCallable does }
{
    if is_last(rt, last) {
        return does();
    }
    wrong_use(rt, takes)
}

fn example_asked(rt: &HostRuntime, i: usize) -> Status
    requires { i < 9 }
{
    if is(rt, i + 1, b"--old-sheets") {
        if is_last(rt, i + 3) {
            return example_file(rt, i + 2, i + 3, true);
        }
    } else if is_last(rt, i + 2) {
        return example_file(rt, i + 1, i + 2, false);
    }
    wrong_use(rt, "example takes a file and the number of a line")
}

fn day_asked(rt: &HostRuntime, i: usize) -> Status
    requires { i < 9 }
{
    if count(rt) <= i + 1 {
        return wrong_use(rt, "day takes files, with a question in each");
    }
    day_files(rt, i + 1)
}

// What asks for no question.
fn other_asked(rt: &HostRuntime, i: usize) -> Status {
    if is(rt, i, b"--help") {
        help(rt.stdout());
        return found();
    }
    if is(rt, i, b"--version") {
        version(rt.stdout());
        return found();
    }
    if count(rt) <= i {
        return wrong_use(rt, "no command is given");
    }
    say(rt.stderr(), b"desk: no command ");
    warn_of(rt, i);
    say(rt.stderr(), b"\n");
    wrong_use(
        rt,
        "the commands are solve, try, example, walk, trail, replay, day, overlap, text and words",
    )
}

// What asks for another form of a question, and all else.
fn form_asked(rt: &HostRuntime, i: usize) -> Status
    requires { i < 9 }
{
    if is(rt, i, b"text") {
        up_to(rt, i + 1, "text takes a file", || text_file(rt, i + 1))
    } else if is(rt, i, b"words") {
        up_to(rt, i + 1, "words takes a file", || words_file(rt, i + 1))
    } else {
        other_asked(rt, i)
    }
}

// What asks for the steps of an answer, and all else.
fn steps_asked(rt: &HostRuntime, i: usize) -> Status
    requires { i < 9 }
{
    if is(rt, i, b"walk") {
        up_to(rt, i + 1, "walk takes a file", || walk_file(rt, i + 1))
    } else if is(rt, i, b"trail") {
        up_to(rt, i + 1, "trail takes a file", || trail_file(rt, i + 1))
    } else if is(rt, i, b"replay") {
        up_to(
            rt,
            i + 2,
            "replay takes a file with a question and a file with a trail",
            || replay_file(rt, i + 1, i + 2),
        )
    } else {
        form_asked(rt, i)
    }
}

// Does what argument `i` and those behind it ask for.
fn run(rt: &HostRuntime, i: usize) -> Status
    requires { i < 9 }
{
    if is(rt, i, b"solve") {
        up_to(rt, i + 1, "solve takes a file", || solve_file(rt, i + 1))
    } else if is(rt, i, b"try") {
        up_to(
            rt,
            i + 2,
            "try takes a file with a question and a file with a filling",
            || try_file(rt, i + 1, i + 2),
        )
    } else if is(rt, i, b"example") {
        example_asked(rt, i)
    } else if is(rt, i, b"day") {
        day_asked(rt, i)
    } else if is(rt, i, b"overlap") {
        up_to(
            rt,
            i + 1,
            "overlap takes a file, with a sheet of live rules",
            || overlap_file(rt, i + 1),
        )
    } else {
        steps_asked(rt, i)
    }
}

// Does what the arguments ask for, and returns its status. By a first argument --status-on-3 scripts asked for the status when a program had none
// of its own: it is taken, and changes nothing.
pub fn obey(rt: &HostRuntime) -> Status {
    if is(rt, 1, b"--status-on-3") {
        return run(rt, 2);
    }
    run(rt, 1)
}
