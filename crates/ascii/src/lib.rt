// What the programs share: text in ASCII at a place of a buffer, and reading until a buffer is full.
#![tactic(auto)]

ghost use Rattle.std.specs.Prelude.{◌+◌, ◌^◌, ◌<◌, ◌≤◌, ◌≡◌, length, take, OnOk};
ghost use Rattle.std.specs.Io.KnownBytes.{Consumes, IsAtEnd};
ghost use Rattle.std.proofs.lemmas.List.Edits.{sets};
ghost use Rattle.ascii.specs.Decimal.{hex_digit_ascii, spelled, decimal_of};

use std::io;
use std::io::Read;

// Bytes, from a place on.
pub fn copy(from: &[u8], out: &mut [u8], at: usize)
    requires { at + length from.now ≤ length out.old }
    ensures { out.new ≡ sets out.old at from.now }
{
    out[at..at + from.len()].copy_from_slice(from);
}

// The code of a hex digit.
pub fn glyph(d: u8) -> u8
    requires { d < 16 }
    ensures { result ≡ hex_digit_ascii d }
{
    if d < 10 { 48 + d } else { 87 + d }
}

// A number of at most so many digits in decimal from a place on, and the place after it.
// Kept: std's `write!` promises nothing of what it writes to a slice, and the line of check_run's theorem `said-is` is these digits.
fn spell(most: usize, n: u64, out: &mut [u8], at: usize) -> usize
    requires most { (0 < most) × (n < 10 ^ most) }
    requires room { at + most ≤ length out.old }
    ensures out_after { out.new ≡ sets out.old at (spelled most n) }
    ensures value { (result ≡ at + length (spelled most n)) × (result ≤ at + most) }
{
    if n < 10 {
        out[at] = glyph(n as u8);
        return at + 1;
    }
    let end = spell(most - 1, n / 10, out, at);
    out[end] = glyph((n % 10) as u8);
    end + 1
}

// A number in decimal from a place on, and the place after it.
pub fn decimal(n: u64, out: &mut [u8], at: usize) -> usize
    requires { at + 20 ≤ length out.old }
    ensures out_after { out.new ≡ sets out.old at (decimal_of n) }
    ensures value { (result ≡ at + length (decimal_of n)) × (result ≤ at + 20) }
{
    spell(20, n, out, at)
}

// Reads until the buffer is full, the input ends or a read fails: how many bytes stand at the buffer's start, and how the last read failed.
pub fn read_full<R: Read>(from: &mut R, buffer: &mut [u8]) -> (usize, io::Result<()>)
    ensures len { length buffer.new ≡ length buffer.old }
    ensures bound { result.0 ≤ length buffer.new }
    ensures bytes { Consumes (R.remaining from.old) (R.remaining from.new) (take result.0 buffer.new) }
    ensures whole { OnOk result.1 (result.0 < length buffer.new → IsAtEnd (R.remaining from.new)) }
{
    let mut done = 0;
    while done < buffer.len() {
        match from.read(&mut buffer[done..]) {
            Ok(0) => break,
            Ok(n) => done += n,
            Err(e) => return (done, Err(e)),
        }
    }
    (done, Ok(()))
}
