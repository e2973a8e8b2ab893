// The desk: reads an image and then calls from standard input, and writes a line for the load and one for each call: refusal, result, running task.
// With `--explain` each line goes on with the same in words, and with who begins to wait; with `--since` with the readings that the call has changed. With
// `--lowest` core is granted by the lowest start, as in recordings made before E8 of document 02. Where the input cannot be read or the output cannot be
// written, it says so on standard error, with how many calls were answered.
//
// It answers for 'A session in full' of document 01. It keeps one set of tables, which `executive::khilzurgee_advance` changes where they lie.
#![tactic(auto)]

mod telling;

ghost use Rattle.std.specs.Prelude.{◌<◌, length};
ghost use Rattle.lines.specs.Lines.{room};

use lines::Line;
use pools::Rule;
use saying::Trouble;
use std::env::FillError;
use std::rt::Env;
use tables::Tables;
use telling::Wish;

// What ended a session before its input did, and how many calls were answered by then.
#[derive(Clone, Copy, Debug, PartialEq, Eq)]
struct Stopped {
    trouble: Trouble,
    answered: u64,
}

fn main(rt: HostRuntime) {
    let lowest = given(rt, b"--lowest");
    let explain = given(rt, b"--explain");
    let since = given(rt, b"--since");
    let known = 1 + usize::from(lowest) + usize::from(explain) + usize::from(since);
    if known < arg_count(rt) || (explain && since) {
        // standard error is the last place that could tell of a failure
        let _ = pipes::give(
            &rt,
            &mut rt.stderr(),
            b"usage: desk [--lowest] [--explain | --since]\n",
        );
        return;
    }
    let rule = if lowest {
        Rule::LowestStart
    } else {
        Rule::SmallestHole
    };
    let wish = if explain {
        Wish::Words
    } else if since {
        Wish::Readings
    } else {
        Wish::Numbers
    };
    if let Err(stopped) = open(rt, rule, wish) {
        stopped.trouble.say(rt, Some(stopped.answered));
    }
}

// The word is one of those that the program was started with.
fn given(rt: HostRuntime, word: &[u8]) -> bool {
    for i in 1..arg_count(rt) {
        let mut next = [0u8; 9];
        let n = rt.arg(i, &mut next).unwrap_or(0);
        if &next[..n] == word {
            return true;
        }
    }
    false
}

// How many words the program was started with, its own name among them.
fn arg_count(rt: HostRuntime) -> usize {
    for i in 0..usize::MAX {
        let mut next = [0u8; 9];
        if matches!(rt.arg(i, &mut next), Err(FillError::NotPresent)) {
            return i;
        }
    }
    usize::MAX
}

// Reads the image: 512 bytes, or what there is.
fn open(rt: HostRuntime, rule: Rule, wish: Wish) -> Result<(), Stopped> {
    let mut image = [0u8; 512];
    let n = pipes::take(&rt, &mut rt.stdin(), &mut image).map_err(|_| unread(0))?;
    session(rt, &image[..n], rule, wish)
}

// The load, for grants by a rule, and the calls where it is accepted.
fn session(rt: HostRuntime, image: &[u8], rule: Rule, wish: Wish) -> Result<(), Stopped> {
    let begun = executive::load(rule, image);
    write(rt, telling::opening(executive::line(begun), wish), 0)?;
    if begun.outcome.is_ok() {
        serve(rt, begun.tables, wish)?;
    }
    Ok(())
}

// The desk loop: it lends the tables to the executive, call by call, each of 16 bytes, or of what is left at the end. A proved loop has to end, and nothing
// says that the input does: it counts the calls that it has answered, up to a number that no session reaches.
fn serve(rt: HostRuntime, start: Tables, wish: Wish) -> Result<(), Stopped> {
    let mut tables = start;
    for answered in 0..u64::MAX {
        let mut call = [0u8; 16];
        let n = pipes::take(&rt, &mut rt.stdin(), &mut call).map_err(|_| unread(answered))?;
        if n == 0 {
            return Ok(());
        }
        let before = tables;
        let answer = executive::khilzurgee_advance(&mut tables, &call[..n]);
        write(
            rt,
            telling::told(&call[..n], before, tables, answer, wish),
            answered,
        )?;
        if n < 16 {
            return Ok(());
        }
    }
    Ok(())
}

fn unread(answered: u64) -> Stopped {
    Stopped {
        trouble: Trouble::Unread,
        answered,
    }
}

// Writes a line, after so many answered calls.
fn write(rt: HostRuntime, line: Line, answered: u64) -> Result<(), Stopped>
    requires { length line < room }
{
    saying::line(rt, line).map_err(|_| Stopped {
        trouble: Trouble::Unwritten,
        answered,
    })
}
