// The two works of `samples/`, as accreditation examples: from several starts their records (the file `stdin`: count.bin, then conditions.bin) are
// interpreted one after another. Each step is a line. The count adds 1 to 64 bits in R1 and R0; the conditions add R1 to R0 and pack the flags
// into the low half of byte 1 of R2. The records are also translated in turn into one room, and each work's run there must end in the same
// state. The lines that must be written come from the meanings, by `oracle works`. A refusal is written with its number, and is the last line.
#![tactic(auto)]

mod room;
mod steps;

ghost use Rattle.std.specs.Prelude.{◌≡◌, ◌+◌, ◌*◌, ◌/◌, ◌%◌, ◌^◌, ◌≤◌, [], length};
ghost use Rattle.strip.specs.Entry.{wide};
ghost use Rattle.evaluation.specs.Machine.{answer_of, evaluation};

use evaluation::{Evaluated, State};
use room::{empty, in_turn};
use std::io;
use std::io::Read;
use steps::in_order;
use strip::Layout;

// Why the lines end early.
enum Stop {
    // By 01's number.
    Refused(u32),
    Io(io::Error),
}

impl From<io::Error> for Stop {
    fn from(e: io::Error) -> Stop {
        Stop::Io(e)
    }
}

// The works read no constant, and none is lent.
fn evaluated(run: &[u8], s: State) -> Evaluated
    ensures { answer_of result ≡ evaluation wide run.now s [] }
{
    evaluation::evaluate(run, Layout::Wide, s, &[])
}

// Register n holds n in each of its four bytes.
fn fill(regs: &mut [u32]) {
    let mut word = 0u32;
    for reg in regs.iter_mut() {
        *reg = word;
        word = word.wrapping_add(0x01010101);
    }
}

// Three registers and the others as filled; some predicates and all flags are true, so that a carry from before would be seen.
fn start(r0: u32, r1: u32, r2: u32) -> State {
    let mut regs = [0; 255];
    fill(&mut regs);
    regs[0] = r0;
    regs[1] = r1;
    regs[2] = r2;
    State {
        regs,
        preds: [false, true, false, true, false, true, false],
        flags: [true; 4],
    }
}

// The number of 64 bits in two registers.
fn pair(high: u32, low: u32) -> u64
    ensures { result ≡ high * 2 ^ 32 + low }
{
    u64::from(high) * 0x1_0000_0000 + u64::from(low)
}

fn low(n: u64) -> u32
    ensures { result ≡ n % 2 ^ 32 }
{
    (n % 0x1_0000_0000) as u32
}

fn high(n: u64) -> u32
    ensures { result ≡ n / 2 ^ 32 }
{
    (n / 0x1_0000_0000) as u32
}

// The registers from a place on and the predicates are the same.
fn same(a: &State, b: &State, from: usize) -> bool
    requires { from ≤ 255 }
{
    a.regs[from..] == b.regs[from..] && a.preds == b.preds
}

// ` Z1 S0 C1 O0`
fn flags(s: &State, to: &impl Print) -> io::Result<()> {
    for (n, on) in s.flags.iter().enumerate() {
        let name = ['Z', 'S', 'C', 'O'][n];
        let bit = u8::from(*on);
        print!(to; " {name}{bit}")?;
    }
    Ok(())
}

// The end of a line: whether every cell that it does not name is as before.
fn others(kept: bool, to: &impl Print) -> io::Result<()> {
    let what = if kept { "kept" } else { "changed" };
    println!(to; ", others {what}")
}

// `count 00000000ffffffff + 1 = 0000000100000000 Z1 S0 C1 O0, others kept`
fn count_line(before: &State, after: &State, to: &impl Print) -> io::Result<()> {
    let old = pair(before.regs[1], before.regs[0]);
    let new = pair(after.regs[1], after.regs[0]);
    print!(to; "count {old:016x} + 1 = {new:016x}")?;
    flags(after, to)?;
    others(same(before, after, 2), to)
}

// The work's run ends in the state that its records end in; else a line says so.
fn compare(run: &[u8], before: State, after: &State, to: &impl Print) -> io::Result<()> {
    let end = evaluated(run, before).state;
    if same(&end, after, 0) && end.flags == after.flags {
        return Ok(());
    }
    println!(to; "the run ends in another state")
}

// Both records of a work, from a state on.
fn interpreted(records: &[u8], s: State) -> Result<State, Stop>
    requires { 36 ≤ length records.now }
{
    let i = in_order(records, 2, s);
    match meaning::outcome_number(i.outcome) {
        0 => Ok(i.state),
        number => Err(Stop::Refused(number)),
    }
}

// So many steps of the count.
fn count(records: &[u8], run: &[u8], from: u64, steps: u64, to: &impl Print) -> Result<(), Stop>
    requires { 36 ≤ length records.now }
{
    let mut s = start(low(from), high(from), 0xabcd9fef);
    for _ in 0..steps {
        let after = interpreted(records, s)?;
        compare(run, s, &after, to)?;
        count_line(&s, &after, to)?;
        s = after;
    }
    Ok(())
}

// Before the carry into R1, before the wrap of all 64 bits, at a carry that turns the sign of R1, and at 0.
const FROM: [u64; 5] = [
    0x0000_0000_ffff_fffd,
    0xffff_ffff_ffff_fffd,
    0x7fff_ffff_ffff_fffe,
    0x1234_5678_ffff_fffe,
    0,
];

fn counts(records: &[u8], run: &[u8], to: &impl Print) -> Result<(), Stop>
    requires { 36 ≤ length records.now }
{
    for from in FROM {
        count(records, run, from, 5, to)?;
    }
    Ok(())
}

fn byte_one(word: u32) -> u32
    ensures { result ≡ word / 2 ^ 8 % 2 ^ 8 }
{
    word / 0x100 % 0x100
}

// `conditions 7fffffff + 00000001 = 80000000 Z0 S1 C0 O1, byte 9f -> 9a, R2 abcd9fef -> abcd9aef, others kept`
fn conditions_line(before: &State, after: &State, to: &impl Print) -> io::Result<()> {
    let (a, b, sum) = (before.regs[0], before.regs[1], after.regs[0]);
    let (old, new) = (before.regs[2], after.regs[2]);
    let (old_byte, new_byte) = (byte_one(old), byte_one(new));
    print!(to; "conditions {a:08x} + {b:08x} = {sum:08x}")?;
    flags(after, to)?;
    print!(to; ", byte {old_byte:02x} -> {new_byte:02x}, R2 {old:08x} -> {new:08x}")?;
    others(b == after.regs[1] && same(before, after, 3), to)
}

fn condition(records: &[u8], run: &[u8], s: State, to: &impl Print) -> Result<(), Stop>
    requires { 36 ≤ length records.now }
{
    let after = interpreted(records, s)?;
    compare(run, s, &after, to)?;
    conditions_line(&s, &after, to)?;
    Ok(())
}

// Sums that leave none, Z, S, C, ZC, SC, SO, CO, ZCO: no sum of two words leaves other flags.
const SUMS: [(u32, u32); 9] = [
    (1, 2),
    (0, 0),
    (0xffff_fff0, 1),
    (0xffff_ffff, 2),
    (0xffff_ffff, 1),
    (0xffff_ffff, 0xffff_ffff),
    (0x7fff_ffff, 1),
    (0x8000_0000, 0xffff_ffff),
    (0x8000_0000, 0x8000_0000),
];

// Byte 1 has a number from 0 to 15 in its high half, and zeros or ones in its low half.
fn with_number(number: u32, half: u32) -> u32 {
    0xabcd00ef | number << 12 | half << 8
}

// Each sum twice, over all numbers.
fn conditions(records: &[u8], run: &[u8], to: &impl Print) -> Result<(), Stop>
    requires { 36 ≤ length records.now }
{
    for i in 0..18u32 {
        let (a, b) = SUMS[i as usize / 2];
        condition(
            records,
            run,
            start(a, b, with_number(i % 16, i % 2 * 15)),
            to,
        )?;
    }
    Ok(())
}

// Both works: the first one's run, and after it the second one's.
fn works(records: &[u8; 72], to: &impl Print) -> Result<(), Stop> {
    let mut room = [0; 512];
    let first = in_turn(&records[..36], 2, empty(), &mut room);
    let both = in_turn(&records[36..], 2, first, &mut room);
    if both.number != 0 {
        return Err(Stop::Refused(both.number));
    }
    counts(&records[..36], &room[..first.used], to)?;
    conditions(&records[36..], &room[first.used..both.used], to)
}

// Each work is two records.
fn main(rt: HostRuntime) -> io::Result<()> {
    let mut input = [0; 72];
    if rt.stdin().read_exact(&mut input).is_err() {
        return println!(rt; "cut");
    }
    match works(&input, &rt) {
        Ok(()) => Ok(()),
        Err(Stop::Refused(number)) => println!(rt; "refused {number}"),
        Err(Stop::Io(e)) => Err(e),
    }
}
