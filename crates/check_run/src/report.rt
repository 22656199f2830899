// What was passed of a run so far, and the line that is said of it in the end. `specs/Report.antt` says what it is. It has at most 42 bytes.
ghost use Rattle.std.specs.Prelude.{◌≡◌, ◌+◌, ◌^◌, ◌<◌, ◌≤◌, ◌++◌, length};
ghost use Rattle.std.proofs.lemmas.List.Edits.{sets};
ghost use Rattle.ascii.specs.Decimal.{decimal_of};
ghost use Rattle.check_run.specs.Report.{started, taken, said};

use ascii::{copy, decimal};
use strip::{Layout, Stream};

// The state of the test, how many bytes were passed and how many strips ended.
#[derive(Clone, Copy)]
pub struct Check {
    pub stream: Stream,
    pub passed: u64,
    pub strips: u64,
}

impl Check {
    // No byte yet.
    pub fn new(layout: Layout) -> Check
        ensures { result ≡ started layout }
    {
        Check {
            stream: Stream::new(layout),
            passed: 0,
            strips: 0,
        }
    }

    // A block more.
    pub fn take(&mut self, block: &[u8])
        requires { (self.old.passed + (8 + length block.now) < 2 ^ 64) × (self.old.strips ≤ self.old.passed) }
        ensures value { self.new ≡ taken self.old block.now }
        ensures passed_bound { (self.new.passed ≤ self.old.passed + (8 + length block.now)) × (self.new.strips ≤ self.new.passed) }
    {
        let f = self.stream.feed(block);
        self.stream = f.stream;
        self.passed += f.bytes as u64;
        self.strips += f.strips as u64;
    }

    // The line at the start of a buffer, and its length.
    pub fn report(&self, out: &mut [u8]) -> usize
        requires { length out.old ≡ 64 }
        ensures out_after { out.new ≡ sets out.old 0 (said self.now) }
        ensures value { (result ≡ length (said self.now)) × (result ≤ 64) }
    {
        if self.stream.at_end() {
            return sentence(b"well-formed, ", self.strips, b" strips\n", out);
        }
        sentence(b"refused 7 at byte ", self.passed, b"\n", out)
    }
}

// A number between two texts at the start of a buffer, and their length.
// Kept: std's `write!` promises nothing of what it writes to a slice, and the theorem `said-is` speaks of these bytes.
fn sentence(front: &[u8], n: u64, back: &[u8], out: &mut [u8]) -> usize
    requires { (length out.old ≡ 64) × (length front.now ≤ 20) × (length back.now ≤ 20) }
    ensures out_after { out.new ≡ sets out.old 0 (front.now ++ decimal_of n ++ back.now) }
    ensures value { (result ≡ length (front.now ++ decimal_of n ++ back.now)) × (result ≤ 64) }
{
    copy(front, out, 0);
    let at = decimal(n, out, front.len());
    copy(back, out, at);
    at + back.len()
}
