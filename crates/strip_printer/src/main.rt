// The strip printer (01): records of 18 bytes from standard input; for each a line with its index from 0, a space, and the strip in lowercase
// hex, or `refused N`. It stops after a refusal 1 (a cut last record) or 2. The text of a block of records is a function of lists, proved
// in `line`; here it is read and written.
#![tactic(auto)]

mod line;

ghost use Rattle.std.specs.Prelude.{◌+◌, ◌^◌, ◌<◌, ◌≤◌, ◌≡◌, ◌&&◌, length};
ghost use Rattle.strip_printer.specs.Line.{Block};

use ascii::read_full;
use line::{Printer, lines};
use std::io::Read;

// Reads a block and writes its lines. It is the last one where the input ends in it or the output takes no more.
fn block(
    p: Printer,
    input: &mut [u8],
    out: &mut [u8],
    from: &mut impl Read,
    to: &impl Print,
) -> Printer
    requires input_len { (length input.old ≡ 8190) × (length out.old ≡ 242970) }
    requires at_value { (p.at ≡ 0) × (p.index + 455 < 2 ^ 64) }
    ensures block { Block input.new out.old out.new p result }
    ensures input_len_2 { (length input.new ≡ 8190) × (length out.new ≡ 242970) }
    ensures at_value_2 { (result.at ≡ 0) × (result.index ≤ p.index + 455) }
{
    let (n, _) = read_full(from, input);
    let q = lines(&input[..n], p, out);
    let written = to.write_all(&out[..q.at]).is_ok();
    let cbuf_used = q.cbuf_used;
    Printer {
        at: 0,
        index: q.index,
        cbuf_used,
        going: q.going && written && n == input.len(),
    }
}

fn main(rt: HostRuntime) {
    let mut from = rt.stdin();
    // 455 records, and as many of the longest lines.
    let mut input = [0; 8190];
    let mut out = [0; 242970];
    let mut p = Printer {
        at: 0,
        index: 0,
        cbuf_used: [0; 32],
        going: true,
    };
    // A proved loop ends, and nothing says that an input does: these are more blocks (2^52) than an input can have.
    for _ in 0..0x10_0000_0000_0000u64 {
        if !p.going {
            break;
        }
        p = block(p, &mut input, &mut out, &mut from, &rt);
    }
}
