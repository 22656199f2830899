// The state of a test block by block in bytes, for a C caller to lend. `specs/State.antt` has the places.
ghost use Rattle.std.specs.Prelude.{◌+◌, ◌≤◌, ◌<◌, ◌≡◌, length};
ghost use Rattle.strip.specs.Entry.{number_bytes, number_at};
ghost use Rattle.strip.specs.Write.{Puts};
ghost use Rattle.strip.specs.State.{state_length, state_bytes, state_in, state_by, state_of};

use crate::format::Layout;
use crate::shape::Shape;
use crate::stream::{Stream, padded};

// A number in eight bytes from a place on.
fn put_eight(out: &mut [u8], at: usize, x: u64)
    requires { at + 8 ≤ length out.old }
    ensures { Puts out.old at (number_bytes 8 x) out.new }
{
    out[at..at + 8].copy_from_slice(&x.to_le_bytes());
}

// The lowest byte of a number.
fn put_low(out: &mut [u8], at: usize, x: usize)
    requires { at + 1 ≤ length out.old }
    ensures { Puts out.old at (number_bytes 1 x) out.new }
{
    out[at] = (x & 0xff) as u8;
}

// The number in eight bytes at a place.
fn eight_at(s: &[u8], b: usize) -> u64
    requires { b + 8 ≤ length s.now }
    ensures { result ≡ number_at 8 s.now b }
{
    u64::from_le_bytes([
        s[b],
        s[b + 1],
        s[b + 2],
        s[b + 3],
        s[b + 4],
        s[b + 5],
        s[b + 6],
        s[b + 7],
    ])
}

fn state_in(layout: Layout, s: &[u8]) -> Stream
    requires { length s.now ≡ state_length }
    ensures { result ≡ state_in layout s.now }
{
    Stream {
        layout,
        shape: Shape {
            left: usize::from(s[1]),
            inside: s[2] != 0,
            values: usize::from(s[3]),
            words: eight_at(s, 13),
            truths: eight_at(s, 21),
            slots: eight_at(s, 29),
            addresses: eight_at(s, 37),
        },
        kept: padded(&s[5..13]),
        count: usize::from(s[4]),
    }
}

fn state_by(len: u8, s: &[u8]) -> Stream
    requires { length s.now ≡ state_length }
    ensures { result ≡ state_by len s.now }
{
    match len {
        2 => state_in(Layout::Wide, s),
        1 => state_in(Layout::Narrow, s),
        _ => Stream::refused(),
    }
}

// The state that the bytes are. Those of another length, or with no layout, are a state that refused.
pub fn state_of(s: &[u8]) -> Stream
    ensures { result ≡ state_of s.now }
{
    if s.len() == 45 {
        return state_by(s[0], s);
    }
    Stream::refused()
}

// The state in bytes.
pub fn put_state(t: Stream, out: &mut [u8])
    requires { length out.old ≡ state_length }
    ensures { out.new ≡ state_bytes t }
{
    let Stream {
        layout,
        shape,
        kept,
        count,
    } = t;
    put_low(out, 0, layout.ref_length());
    put_low(out, 1, shape.left);
    put_low(out, 2, usize::from(shape.inside));
    put_low(out, 3, shape.values);
    put_low(out, 4, count);
    out[5..13].copy_from_slice(&kept);
    put_eight(out, 13, shape.words);
    put_eight(out, 21, shape.truths);
    put_eight(out, 29, shape.slots);
    put_eight(out, 37, shape.addresses);
}
