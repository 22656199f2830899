// The lines of a block of records, in a buffer that has room for them. `specs/Line.antt` says what they are. A line has at most 534 bytes:
// 20 digits, a space, 512 hex digits, the end. A block has at most 455 records.
// Kept: std's `write!` promises nothing of what it writes to a slice, and the theorems speak of these bytes.
ghost use Rattle.std.specs.Prelude.{ℕ, ◌+◌, ◌*◌, ◌^◌, ◌≤◌, ◌<◌, ◌≡◌, List, length, take};
ghost use Rattle.std.proofs.lemmas.List.Edits.{sets};
ghost use Rattle.translation.specs.Strip.{refusal_number, length_of};
ghost use Rattle.strip_printer.specs.Line.{hex_of, refused_text, text_of, line_of, goes_on};
ghost use Rattle.strip_printer.specs.Line.{answer_to, printer_after, added, Printed, Stands, no_text, step, lines};

use ascii::{copy, decimal, glyph};
use translation::Refusal;

// Where the printer stands: `at` bytes of text are in the buffer; the index of the next record, the use marks, and whether it goes on.
// Kept: a flag, since it is `going` of `Printed`, of which `goes` of specs/Line.antt speaks.
#[derive(Clone, Copy)]
pub struct Printer {
    pub at: usize,
    pub index: u64,
    pub cbuf_used: [u32; 32],
    pub going: bool,
}

// Two digits for each byte, from a place on.
fn hex(bytes: &[u8], out: &mut [u8], at: usize)
    requires { at + 2 * length bytes.now ≤ length out.old }
    ensures { out.new ≡ sets out.old at (hex_of bytes.now) }
{
    for (i, b) in bytes.iter().enumerate() {
        let to = at + 2 * i;
        out[to] = glyph(*b / 16);
        out[to + 1] = glyph(*b % 16);
    }
}

// The digit of a refusal's number.
fn digit(r: Refusal) -> u8
    ensures { result ≡ 48 + refusal_number r }
{
    b'0' + u32::from(r) as u8
}

// `refused N` from a place on, and the place after it.
fn refusal(r: Refusal, out: &mut [u8], at: usize) -> usize
    requires { at + 9 ≤ length out.old }
    ensures out_after { out.new ≡ sets out.old at (refused_text r) }
    ensures value { result ≡ at + 9 }
{
    copy(b"refused ", out, at);
    out[at + 8] = digit(r);
    at + 9
}

// The first n bytes of the room in hex from a place on, and the place after it.
fn strip(room: &[u8], n: usize, out: &mut [u8], at: usize) -> usize
    requires { (n ≤ length room.now) × (at + 2 * n ≤ length out.old) }
    ensures out_after { out.new ≡ sets out.old at (hex_of (take n room.now)) }
    ensures value { result ≡ at + 2 * n }
{
    hex(&room[..n], out, at);
    at + 2 * n
}

// The strip or `refused N` from a place on, and the place after it.
fn outcome_text(o: Result<usize, Refusal>, room: &[u8], out: &mut [u8], at: usize) -> usize
    requires { (length_of o ≤ length room.now) × (length_of o ≤ 256) × (at + 512 ≤ length out.old) }
    ensures out_after { out.new ≡ sets out.old at (text_of o room.now) }
    ensures value { (result ≡ at + length (text_of o room.now)) × (result ≤ at + 512) }
{
    match o {
        Ok(n) => strip(room, n, out, at),
        Err(r) => refusal(r, out, at),
    }
}

// Whether a line can follow.
fn goes_on(o: Result<usize, Refusal>) -> bool
    ensures { result ≡ goes_on o }
{
    match o {
        Ok(_) => true,
        Err(r) => 3 <= u32::from(r),
    }
}

// A line from a place on, and the place after it.
fn text(index: u64, o: Result<usize, Refusal>, room: &[u8], out: &mut [u8], at: usize) -> usize
    requires { (length_of o ≤ length room.now) × (length_of o ≤ 256) × (at + 534 ≤ length out.old) }
    ensures out_after { out.new ≡ sets out.old at (line_of index o room.now) }
    ensures value { (result ≡ at + length (line_of index o room.now)) × (result ≤ at + 534) }
{
    let space = decimal(index, out, at);
    out[space] = b' ';
    let end = outcome_text(o, room, out, space + 1);
    out[end] = b'\n';
    end + 1
}

// The line of a record.
fn line(bytes: &[u8], p: Printer, out: &mut [u8]) -> Printer
    requires { (p.at + 534 ≤ length out.old) × (p.index + 1 < 2 ^ 64) }
    ensures out_after { out.new ≡ added p (answer_to bytes.now p.cbuf_used) out.old }
    ensures value { (result ≡ printer_after p (answer_to bytes.now p.cbuf_used)) × (result.at ≤ p.at + 534) }
{
    let mut room = [0; 256];
    let t = translation::translate(bytes, p.cbuf_used, &mut room);
    let cbuf_used = t.cbuf_used;
    Printer {
        at: text(p.index, t.outcome, &room, out, p.at),
        index: p.index + 1,
        cbuf_used,
        going: goes_on(t.outcome),
    }
}

// After the last line there is none.
fn step(bytes: &[u8], p: Printer, out: &mut [u8]) -> Printer
    requires { (p.at + 534 ≤ length out.old) × (p.index + 1 < 2 ^ 64) }
    ensures by_index { (base : List ℕ) (d : Printed) → Stands base out.old p d → Stands base out.new result (step bytes.now d) }
    ensures at_bound { (result.at ≤ p.at + 534) × (result.index ≤ p.index + 1) }
{
    if p.going { line(bytes, p, out) } else { p }
}

// The lines of the records of a block; what is left of its end counts as one.
pub fn lines(input: &[u8], start: Printer, out: &mut [u8]) -> Printer
    requires input_len_bound { (length input.now ≤ 8190) × (length out.old ≡ 242970) }
    requires at_value { (start.at ≡ 0) × (start.index + 455 < 2 ^ 64) }
    ensures stands { Stands out.old out.new result (lines input.now (no_text start)) }
    ensures at_bound { (result.at ≤ 242970) × (result.index ≤ start.index + 455) }
{
    let mut p = start;
    for record in input.chunks(18) {
        p = step(record, p, out);
    }
    p
}
