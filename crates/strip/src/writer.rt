// The writer of entries, beside the reader: an entry's bytes go into a lent list, from a place on. Where it does not fit nothing is written.
// Kept: list, layout and place are three arguments and no struct, as `put_entry` and `write_entry` have promised them.
ghost use Rattle.std.specs.Prelude.{◌≡◌, ℕ, ◌+◌, ◌*◌, ◌≤◌, length};
ghost use Rattle.strip.specs.Entry.{ref_length, number_bytes, word_bytes, refs_bytes, encode};
ghost use Rattle.strip.specs.Write.{Puts, Writes};

use crate::format::Layout;
use crate::reader::Entry;

// A reference, little-endian: its low byte, and in the wide layout the other.
fn put_ref(out: &mut [u8], layout: Layout, at: usize, r: u16)
    requires { at + ref_length layout ≤ length out.old }
    ensures { Puts out.old at (number_bytes (ref_length layout) r) out.new }
{
    let [low, high] = r.to_le_bytes();
    out[at] = low;
    if layout == Layout::Wide {
        out[at + 1] = high;
    }
}

// References, one after another.
fn put_refs(out: &mut [u8], layout: Layout, at: usize, refs: &[u16])
    requires { at + length refs.now * ref_length layout ≤ length out.old }
    ensures { Puts out.old at (refs_bytes (ref_length layout) refs.now) out.new }
{
    let mut place = at;
    for r in refs {
        put_ref(out, layout, place, *r);
        place += layout.ref_length();
    }
}

// A word's four bytes, little-endian.
fn put_four_bytes(out: &mut [u8], at: usize, w: u32)
    requires { at + 4 ≤ length out.old }
    ensures { Puts out.old at (word_bytes w) out.new }
{
    out[at..at + 4].copy_from_slice(&w.to_le_bytes());
}

// An entry, from place at on, where there is room.
pub fn put_entry(out: &mut [u8], layout: Layout, at: usize, e: Entry)
    requires { at + length (encode (ref_length layout) e) ≤ length out.old }
    ensures { Puts out.old at (encode (ref_length layout) e) out.new }
{
    match e {
        Entry::Bare(k) => out[at] = k,
        Entry::Word(w) => {
            out[at] = 1;
            put_four_bytes(out, at + 1, w);
        }
        Entry::Cell(k, c) => {
            out[at] = k;
            out[at + 1] = c;
        }
        Entry::Store(k, c, a) => {
            out[at] = k;
            out[at + 1] = c;
            put_ref(out, layout, at + 2, a);
        }
        Entry::One(k, a) => {
            out[at] = k;
            put_refs(out, layout, at + 1, &[a]);
        }
        Entry::Two(k, a, b) => {
            out[at] = k;
            put_refs(out, layout, at + 1, &[a, b]);
        }
        Entry::Three(k, a, b, c) => {
            out[at] = k;
            put_refs(out, layout, at + 1, &[a, b, c]);
        }
        Entry::Four(k, a, b, c, d) => {
            out[at] = k;
            put_refs(out, layout, at + 1, &[a, b, c, d]);
        }
    }
}

// How many bytes an entry takes.
pub fn entry_length(layout: Layout, e: Entry) -> usize
    ensures { result ≡ length (encode (ref_length layout) e) }
{
    let n = layout.ref_length();
    match e {
        Entry::Bare(_) => 1,
        Entry::Word(_) => 5,
        Entry::Cell(_, _) => 2,
        Entry::Store(_, _, _) => 2 + n,
        Entry::One(_, _) => 1 + n,
        Entry::Two(_, _, _) => 1 + 2 * n,
        Entry::Three(_, _, _, _) => 1 + 3 * n,
        Entry::Four(_, _, _, _, _) => 1 + 4 * n,
    }
}

// An entry, from place at on, as far as there is room: the number of its bytes, which leads to the next place, or none.
pub fn write_entry(out: &mut [u8], layout: Layout, at: usize, e: Entry) -> Option<usize>
    ensures { Writes (ref_length layout) out.old at e out.new result }
{
    let n = entry_length(layout, e);
    if out.len().saturating_sub(at) < n {
        return None;
    }
    put_entry(out, layout, at, e);
    Some(n)
}
