// Writing a strip into a buffer of fixed size. Nothing is asked of a caller: places and numbers are counted modulo 256, and the buffer has 8 bytes
// beyond, which is the longest body, so an entry always finds room. No strip comes near it.
ghost use Rattle.std.specs.Prelude.{◌≡◌, ◌+◌, ◌*◌, length, take};
ghost use Rattle.translation.specs.Insn.{cslot, cword};
ghost use Rattle.translation.specs.Ops.{number_of_op};
ghost use Rattle.translation.specs.Emit.{start, value, Makes, Writes, Raises};

use crate::insn::Insn;
use crate::op::Op;
use std::marker::Model;
use strip::{Entry, Layout, entry_length, put_entry};

// A strip so far: its bytes and where the next goes, the next number, and the use mark raised: its slot and how many bytes of it (0: none).
#[derive(Drop)]
pub struct Writer {
    // Kept: an array and the place in it: there is no heap. `need` 0 says that no mark is raised, as in `Buffer` of specs/Emit.antt.
    buf: [u8; 264],
    at: u8,
    next: u8,
    slot: u8,
    need: u32,
}

impl Model for Writer {
    ghost use Rattle.translation.specs.Emit.{Buffer};

    ghost Value = { Buffer };

    ghost view = { λ w. record { list = w.buf; at = w.at; next = w.next; slot = w.slot; need = w.need } };
}

impl Writer {
    pub fn new() -> Writer
        ensures at_start { result ≡ start result.list }
        ensures room { length result.list ≡ 264 }
    {
        Writer {
            buf: [0; 264],
            at: 0,
            next: 0,
            slot: 0,
            need: 0,
        }
    }

    // The strip.
    pub fn bytes(&self) -> &[u8]
        ensures { result.now ≡ take self.now.at self.now.list }
    {
        &self.buf[..self.at as usize]
    }

    pub fn slot(&self) -> u8
        ensures { result ≡ self.now.slot }
    {
        self.slot
    }

    pub fn need(&self) -> u32
        ensures { result ≡ self.now.need }
    {
        self.need
    }

    // An entry's bytes, where the last one's end.
    fn put(&mut self, e: Entry)
        ensures { Writes self.old self.new e }
    {
        let at = self.at as usize;
        put_entry(&mut self.buf, Layout::Wide, at, e);
        self.at = ((at + entry_length(Layout::Wide, e)) % 256) as u8;
    }

    // An entry that makes a value, whose number comes back.
    fn make(&mut self, e: Entry) -> u8
        ensures { Makes self.old (value self.new result) e }
    {
        self.put(e);
        let n = self.next;
        self.next = n.wrapping_add(1);
        n
    }

    // A use mark: the word of an instruction's constant slot is used.
    pub fn mark(&mut self, i: Insn)
        ensures { Raises self.old self.new (cslot i) (cword i * 4 + 4) }
    {
        self.slot = i.cslot();
        self.need = i.cword() as u32 * 4 + 4;
    }

    // A word constant.
    pub fn u(&mut self, w: u32) -> u8
        ensures { Makes self.old (value self.new result) (Entry.Word w) }
    {
        self.make(Entry::Word(w))
    }

    // True, false.
    pub fn truth(&mut self, op: Op) -> u8
        ensures { Makes self.old (value self.new result) (Entry.Bare (number_of_op op)) }
    {
        self.make(Entry::Bare(op as u8))
    }

    // A load of a cell, a slot.
    pub fn cell(&mut self, op: Op, n: u8) -> u8
        ensures { Makes self.old (value self.new result) (Entry.Cell (number_of_op op) n) }
    {
        self.make(Entry::Cell(op as u8, n))
    }

    pub fn one(&mut self, op: Op, a: u8) -> u8
        ensures { Makes self.old (value self.new result) (Entry.One (number_of_op op) a) }
    {
        self.make(Entry::One(op as u8, a as u16))
    }

    pub fn two(&mut self, op: Op, a: u8, b: u8) -> u8
        ensures { Makes self.old (value self.new result) (Entry.Two (number_of_op op) a b) }
    {
        self.make(Entry::Two(op as u8, a as u16, b as u16))
    }

    pub fn three(&mut self, op: Op, a: u8, b: u8, c: u8) -> u8
        ensures { Makes self.old (value self.new result) (Entry.Three (number_of_op op) a b c) }
    {
        self.make(Entry::Three(op as u8, a as u16, b as u16, c as u16))
    }

    pub fn four(&mut self, op: Op, a: u8, b: u8, c: u8, d: u8) -> u8
        ensures { Makes self.old (value self.new result) (Entry.Four (number_of_op op) a b c d) }
    {
        self.make(Entry::Four(op as u8, a as u16, b as u16, c as u16, d as u16))
    }

    pub fn store(&mut self, op: Op, n: u8, a: u8)
        ensures { Writes self.old self.new (Entry.Store (number_of_op op) n a) }
    {
        self.put(Entry::Store(op as u8, n, a as u16));
    }

    pub fn note(&mut self, n: u8)
        ensures { Writes self.old self.new (Entry.Cell 110 n) }
    {
        self.put(Entry::Cell(Op::Unsupported as u8, n));
    }

    // An open, by its truth.
    pub fn open(&mut self, a: u8)
        ensures { Writes self.old self.new (Entry.One 100 a) }
    {
        self.put(Entry::One(Op::Open as u8, a as u16));
    }

    // A close, an end.
    pub fn bare(&mut self, op: Op)
        ensures { Writes self.old self.new (Entry.Bare (number_of_op op)) }
    {
        self.put(Entry::Bare(op as u8));
    }
}
