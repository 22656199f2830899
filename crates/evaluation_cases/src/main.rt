// Runs hand-made strips and writes what each does to one fixed state. The input has one case to a line, `N HEX NAME`: how many constant
// words are lent (in hex), the run's bytes (`-` for none), a name. The line of output has 01's number (0 where the run was evaluated), with 9 what
// the address asked for, each cell that is not as at the start, and the name: `0 R05=0000002a P3=1 C=0 NAME`,
// `9 slot=03 vec=00000011 comp=00000002 NAME`. What comes back is compared for refused runs too.
#![tactic(auto)]

ghost use Rattle.std.specs.Prelude.{◌≡◌, ◌≤◌, length};
ghost use Rattle.evaluation.specs.Machine.{told};

use ascii::read_full;
use evaluation::{Refusal, State};
use std::io;
use strip::Layout;

// Element i becomes i * step, without what lies above bit 31.
// Kept: works has the same: the programs share ascii alone.
fn fill(words: &mut [u32], step: u32) {
    let mut word = 0u32;
    for x in words.iter_mut() {
        *x = word;
        word = word.wrapping_add(step);
    }
}

// Register n holds n in each of its four bytes; predicates 1, 3, 5 and the flags S and O are true.
fn start() -> State {
    let mut regs = [0u32; 255];
    fill(&mut regs, 0x01010101);
    State {
        regs,
        preds: [false, true, false, true, false, true, false],
        flags: [false, true, false, true],
    }
}

// 01's number, 0 where the run was evaluated.
fn number_of(o: Result<(), Refusal>) -> u32
    ensures { result ≡ (told o).number }
{
    match o {
        Ok(_) => 0,
        Err(r) => u32::from(r),
    }
}

// ` slot=03 vec=00000011 comp=00000002` with 9.
fn fault(o: Result<(), Refusal>, to: &impl Print) -> io::Result<()> {
    if let Err(Refusal::NoConstant(slot, vec, comp)) = o {
        print!(to; " slot={slot:02x} vec={vec:08x} comp={comp:08x}")?;
    }
    Ok(())
}

// Each cell that differs: ` R05=0000002a`, ` P3=1`, ` C=0`.
fn changes(before: &State, after: &State, to: &impl Print) -> io::Result<()> {
    for (n, (old, new)) in before.regs.iter().zip(&after.regs).enumerate() {
        if old != new {
            print!(to; " R{n:02x}={new:08x}")?;
        }
    }
    for (n, (old, new)) in before.preds.iter().zip(&after.preds).enumerate() {
        if old != new {
            let bit = u8::from(*new);
            print!(to; " P{n}={bit}")?;
        }
    }
    for (n, (old, new)) in before.flags.iter().zip(&after.flags).enumerate() {
        if old != new {
            let name = ['Z', 'S', 'C', 'O'][n];
            let bit = u8::from(*new);
            print!(to; " {name}={bit}")?;
        }
    }
    Ok(())
}

// The number and the cells of a run.
fn answer(run: &[u8], constants: &[u32], to: &impl Print) -> io::Result<()> {
    let before = start();
    let r = evaluation::evaluate(run, Layout::Wide, before, constants);
    to.print(number_of(r.outcome))?;
    fault(r.outcome, to)?;
    changes(&before, &r.state, to)
}

// The value of a hex digit; 0 for any other byte.
fn digit(b: u8) -> u8
    ensures { result ≤ 15 }
{
    match b {
        b'0'..=b'9' => b - b'0',
        b'a'..=b'f' => b - b'a' + 10,
        _ => 0,
    }
}

// The number that hex digits spell, without what lies above bit 31.
fn number(hex: &[u8]) -> u32 {
    let mut n = 0u32;
    for b in hex {
        n = n << 4 | u32::from(digit(*b));
    }
    n
}

// Puts the bytes that pairs of hex digits spell at the start of a list, as far as it reaches, and answers how many there are.
fn decode(hex: &[u8], bytes: &mut [u8]) -> usize
    ensures { result ≤ length bytes.new }
{
    for (byte, pair) in bytes.iter_mut().zip(hex.chunks_exact(2)) {
        *byte = digit(pair[0]) * 16 + digit(pair[1]);
    }
    (hex.len() / 2).min(bytes.len())
}

// One case: a run has at most 1024 bytes.
fn case(hex: &[u8], lent: u32, constants: &[u32], to: &impl Print) -> io::Result<()> {
    let mut bytes = [0u8; 1024];
    let n = decode(hex, &mut bytes);
    let k = constants.len().min(lent as usize);
    answer(&bytes[..n], &constants[..k], to)
}

// A line of the input. One without a second field is no case and says nothing.
fn line(s: &[u8], constants: &[u32], to: &impl Print) -> io::Result<()> {
    let Some(a) = s.iter().position(|b| *b == b' ') else {
        return Ok(());
    };
    let rest = &s[a + 1..];
    let end = rest.iter().position(|b| *b == b' ').unwrap_or(rest.len());
    case(&rest[..end], number(&s[..a]), constants, to)?;
    to.write_all(&rest[end..])?;
    print!(to; "\n")
}

fn lines(s: &[u8], constants: &[u32], to: &impl Print) -> io::Result<()> {
    for one in s.split(|b| *b == b'\n') {
        line(one, constants, to)?;
    }
    Ok(())
}

// The 32 slots' words.
// Kept: as a literal in main the zeros are computed in each goal there, and the check ran for ten minutes and left four open.
fn slots() -> [u32; 524288] {
    [0; 524288]
}

// Room for the whole input.
// Kept: as `slots` is.
fn page() -> [u8; 262144] {
    [0; 262144]
}

fn main(rt: HostRuntime) -> io::Result<()> {
    // Word i is i * 9e3779b1.
    let mut constants = slots();
    fill(&mut constants, 0x9e3779b1);
    let mut input = page();
    let (n, _) = read_full(&mut rt.stdin(), &mut input);
    lines(&input[..n], &constants, &rt)
}
