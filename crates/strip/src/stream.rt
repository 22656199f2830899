// The shape test block by block (02, #103): a run may be longer than memory. The state keeps the bytes of an entry that the last block cut.
ghost use Rattle.std.specs.Prelude.{◌+◌, ◌≤◌, ◌<◌, min, ◌≡◌, true, ◌++◌, length, take};
ghost use Rattle.strip.specs.Entry.{ref_length};
ghost use Rattle.strip.specs.Pass.{Ready};
ghost use Rattle.strip.specs.Stream.{padded, start_of, refused_stream, waits, going, settled, walked_on, unfed, feed, at_end};

use crate::format::Layout;
use crate::shape::{Shape, Walked, walk};

// What the blocks so far say of the next bytes: of kept the first `count` are those of an entry that is cut. The longest entry has nine.
// Kept: bytes with a length beside them, not a slice or a Vec: a C caller lends the state as 45 bytes (`state_bytes`), and there is no heap.
#[derive(Clone, Copy)]
pub struct Stream {
    pub layout: Layout,
    pub shape: Shape,
    pub kept: [u8; 8],
    pub count: usize,
}

// The state after a block, how many bytes were passed with it, those of an entry that earlier blocks began among them, and how many strips ended.
#[derive(Clone, Copy)]
pub struct Fed {
    pub stream: Stream,
    pub bytes: usize,
    pub strips: usize,
}

// The first bytes of two lists, nine or as many as there are: whatever is kept, the next entry is whole in nine.
fn join(a: &[u8], b: &[u8], out: &mut [u8; 9]) -> usize
    requires { length a.now ≤ 8 }
    ensures count { result ≡ min 9 (length a.now + length b.now) }
    ensures front { take result out.new ≡ take result (a.now ++ b.now) }
{
    let n = 9.min(a.len() + b.len());
    out[..a.len()].copy_from_slice(a);
    out[a.len()..n].copy_from_slice(&b[..n - a.len()]);
    n
}

// The rest, then zeros.
pub fn padded(rest: &[u8]) -> [u8; 8]
    requires { length rest.now ≤ 8 }
    ensures { result ≡ padded rest.now }
{
    let mut kept = [0; 8];
    kept[..rest.len()].copy_from_slice(rest);
    kept
}

// Whether these bytes are the beginning of an entry.
fn waits(g: Shape, kept: &[u8], layout: Layout) -> bool
    requires { Ready g }
    ensures { result ≡ waits (ref_length layout) kept.now }
{
    let w = walk(g, kept, layout);
    w.bytes == 0 && w.shape.left != 0
}

// Nothing of a block is passed, and this is the state.
fn unfed(t: Stream) -> Fed
    ensures { result ≡ unfed t }
{
    Fed {
        stream: t,
        bytes: 0,
        strips: 0,
    }
}

// After a walk: what it passed, and the state, which keeps the rest.
fn settle(layout: Layout, w: Walked, rest: &[u8]) -> Fed
    requires { (w.shape.left ≡ 0 → ⊥) → length rest.now ≤ 8 }
    ensures { result ≡ settled layout w rest.now }
{
    let Walked {
        shape,
        bytes,
        strips,
    } = w;
    if shape.left == 0 {
        return Fed {
            stream: Stream::refused(),
            bytes,
            strips,
        };
    }
    Fed {
        stream: Stream {
            layout,
            shape,
            kept: padded(rest),
            count: rest.len(),
        },
        bytes,
        strips,
    }
}

// After a first walk, the walk over what comes then.
fn walk_on(layout: Layout, first: Walked, rest: &[u8]) -> Fed
    requires { Ready first.shape × (first.bytes ≤ 9) × (first.strips ≤ 9) }
    ensures { result ≡ walked_on layout first rest.now }
{
    let second = walk(first.shape, rest, layout);
    let w = Walked {
        shape: second.shape,
        bytes: first.bytes + second.bytes,
        strips: first.strips + second.strips,
    };
    settle(layout, w, &rest[second.bytes..])
}

impl Stream {
    // No byte yet.
    pub fn new(layout: Layout) -> Stream
        ensures { result ≡ start_of layout }
    {
        Stream {
            layout,
            shape: Shape::new(),
            kept: [0; 8],
            count: 0,
        }
    }

    pub fn refused() -> Stream
        ensures { result ≡ refused_stream }
    {
        Stream {
            layout: Layout::Wide,
            shape: Shape::refused(),
            kept: [0; 8],
            count: 0,
        }
    }

    // Whether nothing was refused and the state fits together: what is kept has to be an entry that is cut.
    fn going(self) -> bool
        ensures { result ≡ going self }
    {
        self.shape.ready()
            && self.count <= 8
            && waits(self.shape, &self.kept[..self.count], self.layout)
    }

    // A block more. A state that refused, or that does not fit together, is refused.
    pub fn feed(self, block: &[u8]) -> Fed
        ensures { result ≡ feed self block.now }
    {
        if self.going() {
            return self.going_on(block);
        }
        unfed(Stream::refused())
    }

    // The entry that was cut is completed from the block, and then the rest of the block is walked over where it lies.
    fn going_on(self, block: &[u8]) -> Fed
        requires { going self ≡ true }
        ensures { result ≡ feed self block.now }
    {
        let mut joint = [0; 9];
        let n = join(&self.kept[..self.count], block, &mut joint);
        let first = walk(self.shape, &joint[..n], self.layout);
        if first.shape.left == 0 || first.bytes == 0 {
            return settle(self.layout, first, &joint[..n]);
        }
        walk_on(self.layout, first, &block[first.bytes - self.count..])
    }

    // Whether the run may end here.
    pub fn at_end(self) -> bool
        ensures { result ≡ at_end self }
    {
        self.going() && self.count == 0 && self.shape.left == 64
    }
}
