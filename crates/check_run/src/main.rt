// Whether a run is well-formed (02, #103), read from standard input in constant memory: `well-formed, N strips`, or `refused 7 at byte B`, where the entry
// starts that cannot be passed, or the run's length where its last strip has no end. The run is wide, and narrow with the argument --narrow. What is said
// of the blocks is a function of lists, proved in `report`; here they are read, and the line is written.
#![tactic(auto)]

mod report;

ghost use Rattle.std.specs.Prelude.{◌≡◌, ◌+◌, ◌*◌, ◌^◌, ◌<◌, ◌≤◌, length};
ghost use Rattle.check_run.specs.Report.{Read};

use report::Check;
use std::env::{Env, FillError};
use std::io::{IsTerminal, Read, Write};
use std::{io, str};
use strip::Layout;

// How many bytes lie between two words of progress: 64 MiB.
const STEP: u64 = 67108864;

// Whether there are so many arguments, the program's name not among them.
fn has_argument(system: &impl Env, i: usize) -> bool {
    let mut space = [0u8; 1];
    !matches!(system.arg(i, &mut space), Err(FillError::NotPresent))
}

// The layout that the arguments name, or none.
fn chosen(system: &impl Env) -> Option<Layout> {
    if !has_argument(system, 1) {
        return Some(Layout::Wide);
    }
    let mut space = [0u8; 16];
    let n = system.arg(1, &mut space).unwrap_or(0);
    if &space[..n] == b"--narrow".as_slice() && !has_argument(system, 2) {
        return Some(Layout::Narrow);
    }
    None
}

// Says how far the reading is, on a terminal, and from where on it says so again. It says so for a reader's sake alone: a write that fails is let go.
fn progress(passed: u64, tell: u64, terminal: bool, to: &impl Eprint) -> u64 {
    if terminal && passed >= tell {
        let _ = eprint!(to; "\rcheck_run: {passed} bytes");
        return passed.wrapping_add(STEP);
    }
    tell
}

// Reads a block and tests it. Whether the reading goes on: the input may end here, or an entry be refused.
fn block(check: &mut Check, input: &mut [u8; 65536], from: &mut impl Read) -> io::Result<bool>
    requires { (check.old.passed + 65544 < 2 ^ 64) × (check.old.strips ≤ check.old.passed) }
    ensures read { Read input.new check.old check.new }
    ensures bounds { (check.new.passed ≤ check.old.passed + 65544) × (check.new.strips ≤ check.new.passed) }
{
    let got = from.read(input);
    let n = got.unwrap_or(0);
    check.take(&input[..n]);
    got?;
    Ok(n > 0 && check.stream.shape.left > 0)
}

// Says why reading failed, in the system's words; std writes the error's number after them.
fn fail(error: io::Error, to: &impl Eprint) -> io::Result<()> {
    let mut space = [0u8; 256];
    let mut rest = &mut space[..];
    write!(rest, "{error}")?;
    let left = rest.len().min(256);
    let text = str::from_utf8(&space[..256 - left]).unwrap_or("");
    let words = match text.split_once(" (os error ") {
        Some((words, _)) => words,
        None => text,
    };
    eprintln!(to; "check_run: standard input: {words}")
}

fn main(rt: HostRuntime) -> io::Result<()> {
    let Some(layout) = chosen(&rt) else {
        return eprintln!(rt; "usage: check_run [--narrow] < RUN");
    };
    let terminal = rt.stderr().is_terminal();
    let mut from = rt.stdin();
    let mut input = [0; 65536];
    let mut check = Check::new(layout);
    let mut tell = STEP;
    // A proved loop ends, and nothing says that an input does: these are more blocks (2^46) than an input can have.
    for _ in 0..0x4000_0000_0000u64 {
        let goes_on = match block(&mut check, &mut input, &mut from) {
            Ok(goes_on) => goes_on,
            Err(error) => return fail(error, &rt),
        };
        tell = progress(check.passed, tell, terminal, &rt);
        if !goes_on {
            break;
        }
    }
    // Progress that was told is wiped away.
    if terminal && tell > STEP {
        eprint!(rt; "\r\x1b[K")?;
    }
    let mut line = [0; 64];
    let n = check.report(&mut line);
    Print::write_all(&rt, &line[..n])
}
