// Replays the oracle's stored list without the Rust. The input has for each record: the record (18 bytes), the slot whose use mark it raises
// or 255 (1), that mark or 0 (4), the refusal number or 0 (1), the strip's length (2), the strip; numbers are little-endian. Each record is
// translated from marks of 0 into rooms that hold a pattern. A line is written for each record whose answer differs in the number, the
// length, a byte of the room or a mark; the last line has the counts.
#![tactic(auto)]

ghost use Rattle.std.specs.Prelude.{◌≤◌, length};
ghost use Rattle.replay.specs.Got.{IsWithin};

use ascii::read_full;
use std::io;
use std::io::Read;
use translation::Refusal;

// What was replayed so far.
#[derive(Clone, Copy)]
struct Tally {
    accepted: u64,
    refused: u64,
    differences: u64,
}

impl Tally {
    fn new() -> Tally {
        Tally {
            accepted: 0,
            refused: 0,
            differences: 0,
        }
    }

    fn replayed(&self) -> u64 {
        self.accepted.wrapping_add(self.refused)
    }

    fn count(&mut self, accepted: bool, same: bool) {
        self.accepted = self.accepted.wrapping_add(u64::from(accepted));
        self.refused = self.refused.wrapping_add(u64::from(!accepted));
        self.differences = self.differences.wrapping_add(u64::from(!same));
    }
}

// What a record has to give.
#[derive(Clone, Copy)]
struct Expected {
    number: u32,
    marks: [u32; 32],
}

fn expectation(head: &[u8; 26]) -> Expected {
    let mut marks = [0; 32];
    let slot = usize::from(head[18]);
    if slot < 32 {
        marks[slot] = u32::from_le_bytes([head[19], head[20], head[21], head[22]]);
    }
    Expected {
        number: u32::from(head[23]),
        marks,
    }
}

// What a room holds before, so that a byte that is written or moved is seen. It is made once: with one for each translation a replay took nearly three times as long.
fn pattern() -> [u8; 300] {
    let mut room = [0; 300];
    for (i, byte) in room.iter_mut().enumerate() {
        *byte = (i % 251) as u8;
    }
    room
}

// The refusal's number, 0 where there is none, and the strip's length.
fn told(o: Result<usize, Refusal>) -> (u32, usize) {
    match o {
        Ok(n) => (0, n),
        Err(r) => (u32::from(r), 0),
    }
}

// Whether a translation into a room of this size, which holds the pattern before, gives what is expected.
fn agrees(record: &[u8], e: Expected, strip: &[u8], size: usize, pattern: &[u8; 300]) -> bool
    requires { (size ≤ 300) × (length strip.now ≤ 300) }
{
    let mut room = *pattern;
    let mut expected = *pattern;
    expected[..strip.len()].copy_from_slice(strip);
    let t = translation::translate(record, [0; 32], &mut room[..size]);
    told(t.outcome) == (e.number, strip.len())
        && room[..size] == expected[..size]
        && t.cbuf_used == e.marks
}

// An accepted record: also with a room that is just long enough, and refused 6 with one byte less.
fn accepted_agrees(record: &[u8], e: Expected, strip: &[u8], pattern: &[u8; 300]) -> bool
    requires { length strip.now ≤ 256 }
{
    let n = strip.len();
    let no_room = Expected {
        number: 6,
        marks: [0; 32],
    };
    n > 0
        && agrees(record, e, strip, 300, pattern)
        && agrees(record, e, strip, n, pattern)
        && agrees(record, no_room, b"", n - 1, pattern)
}

// A refused one: also with no room at all, since 6 comes last.
fn refused_agrees(record: &[u8], e: Expected, strip: &[u8], pattern: &[u8; 300]) -> bool
    requires { length strip.now ≤ 256 }
{
    agrees(record, e, strip, 300, pattern) && agrees(record, e, strip, 0, pattern)
}

// The next record of the input: its strip's length; the input may be cut in it, or end before it.
enum Got {
    Record(usize),
    Cut,
    End,
}

fn read_record(from: &mut impl Read, head: &mut [u8; 26], strip: &mut [u8; 256]) -> Got
    ensures { IsWithin 256 result }
{
    let (n, _) = read_full(from, head);
    if n == 0 {
        return Got::End;
    }
    if n < head.len() {
        return Got::Cut;
    }
    let length = usize::from(u16::from_le_bytes([head[24], head[25]]));
    if strip.len() < length || read_full(from, &mut strip[..length]).0 < length {
        return Got::Cut;
    }
    Got::Record(length)
}

fn main(rt: HostRuntime) -> io::Result<()> {
    let mut from = rt.stdin();
    let mut head = [0; 26];
    let mut strip = [0; 256];
    let mut tally = Tally::new();
    let pattern = pattern();
    // A proved loop ends: these are more records than the list can have.
    for _ in 0..0x1_0000_0000u64 {
        let replayed = tally.replayed();
        match read_record(&mut from, &mut head, &mut strip) {
            Got::Record(n) => {
                let e = expectation(&head);
                let accepted = e.number == 0;
                let same = if accepted {
                    accepted_agrees(&head[..18], e, &strip[..n], &pattern)
                } else {
                    refused_agrees(&head[..18], e, &strip[..n], &pattern)
                };
                if !same {
                    println!(rt; "difference at {replayed}")?;
                }
                tally.count(accepted, same);
            }
            Got::Cut => {
                println!(rt; "cut at {replayed}")?;
                break;
            }
            Got::End => break,
        }
    }
    let replayed = tally.replayed();
    let Tally {
        accepted,
        refused,
        differences,
    } = tally;
    println!(rt;
        "records {replayed}, accepted {accepted}, refused {refused}, differences {differences}"
    )
}
