// The words of each entry. Between an entry and its words stands the definition's plan (specs/Writer.antt).
ghost use Rattle.std.specs.Prelude.{◌≡◌, ◌<◌, length};
ghost use Rattle.strip.specs.declared.format.Body.{Body};
ghost use Rattle.strip.specs.declared.format.Body.TheVariants as Body;
ghost use Rattle.strip.specs.Format.{format_of};
ghost use Rattle.strip.specs.Entry.{kind_of, body_of};
ghost use Rattle.spirv.specs.Writer.{cells_at};
ghost use Rattle.spirv.specs.Page.{entered, noted};

use crate::given::{Constant, Given};
use crate::opcodes::op_of;
use crate::page::Page;
use strip::Entry;

// Where the cells that a load or a store names begin in the table.
fn cells_at(k: u8) -> usize
    ensures { (result ≡ cells_at k) × (result < 268) }
{
    match k {
        4 | 7 => 5,
        5 | 8 => 260,
        _ => 267,
    }
}

impl Page {
    fn bare(&mut self, given: &mut Given, k: u8)
        requires { length given.old.constants < 64 }
        ensures listed { given.new ≡ noted given.old (Entry.Bare k) }
        ensures written { self.new ≡ entered given.new self.old (Entry.Bare k) }
    {
        match k {
            2 => self.value(given.id_of(Constant::True), false),
            3 => self.value(given.id_of(Constant::False), false),
            101 => self.close_block(),
            _ => {}
        }
    }

    fn word(&mut self, given: &mut Given, w: u32)
        requires { length given.old.constants < 64 }
        ensures listed { given.new ≡ noted given.old (Entry.Word w) }
        ensures written { self.new ≡ entered given.new self.old (Entry.Word w) }
    {
        self.value(given.id_of(Constant::Word(w)), false);
    }

    fn cell(&mut self, given: &Given, k: u8, c: u8)
        requires { (format_of k).body ≡ Body.Cell }
        ensures { self.new ≡ entered given.now self.old (Entry.Cell k c) }
    {
        let c = usize::from(c);
        match k {
            10 => self.value(given.lent(271 + c), false),
            110 => {}
            _ => {
                let ty = given.lent(if k == 4 { 0 } else { 2 });
                self.make(61, ty, &[given.lent(cells_at(k) + c)], false);
            }
        }
    }

    fn cell_store(&mut self, given: &Given, k: u8, c: u8, a: u16)
        requires { (format_of k).body ≡ Body.Store }
        ensures { self.new ≡ entered given.now self.old (Entry.Store k c a) }
    {
        let x = self.look(a);
        self.store(given.lent(cells_at(k) + usize::from(c)), x.id);
        self.meets(k == 7 && x.signed);
    }

    fn one(&mut self, given: &Given, k: u8, a: u16)
        requires { (format_of k).body ≡ Body.One }
        ensures { self.new ≡ entered given.now self.old (Entry.One k a) }
    {
        let x = self.look(a);
        match k {
            12 => self.make(61, given.lent(0), &[x.id], false),
            80 => self.make(168, given.lent(2), &[x.id], false),
            100 => self.open_block(x.id),
            23 | 24 => {
                let signed = k == 23;
                if x.signed == signed {
                    return self.value(x.id, signed);
                }
                self.make(124, given.word_type(signed), &[x.id], signed)
            }
            _ => self.apply(
                given.lent(4),
                op_of(k),
                given.word_type(x.signed),
                &[x.id],
                x.signed,
            ),
        }
    }

    fn two(&mut self, given: &Given, k: u8, a: u16, b: u16)
        requires { (format_of k).body ≡ Body.Two }
        ensures { self.new ≡ entered given.now self.old (Entry.Two k a b) }
    {
        let x = self.look(a);
        let y = self.look(b);
        let set = given.lent(4);
        let op = op_of(k);
        if k < 60 {
            return self.apply(set, op, given.word_type(x.signed), &[x.id, y.id], x.signed);
        }
        self.apply(set, op, given.lent(2), &[x.id, y.id], false)
    }

    fn three(&mut self, given: &Given, k: u8, a: u16, b: u16, c: u16)
        requires { (format_of k).body ≡ Body.Three }
        ensures { self.new ≡ entered given.now self.old (Entry.Three k a b c) }
    {
        let x = self.look(a);
        let y = self.look(b);
        let z = self.look(c);
        let operands = [x.id, y.id, z.id];
        match k {
            90 => {
                self.make(169, given.word_type(y.signed), &operands, y.signed);
                self.meets(y.signed != z.signed)
            }
            91 => self.make(203, given.word_type(x.signed), &operands, x.signed),
            _ => self.make(202, given.word_type(x.signed), &operands, x.signed),
        }
    }

    fn four(&mut self, given: &Given, k: u8, a: u16, b: u16, c: u16, d: u16)
        requires { (format_of k).body ≡ Body.Four }
        ensures { self.new ≡ entered given.now self.old (Entry.Four k a b c d) }
    {
        let x = self.look(a);
        let y = self.look(b);
        let operands = [x.id, y.id, self.look(c).id, self.look(d).id];
        if k == 11 {
            self.make(65, given.lent(3), &operands, false);
            return self.meets(!given.is_zero(y.id));
        }
        self.make(201, given.word_type(x.signed), &operands, x.signed);
        self.meets(x.signed != y.signed)
    }

    // An entry: its constant, if it is one, is listed, and its words are written.
    pub fn enter(&mut self, given: &mut Given, e: Entry)
        requires room { length given.old.constants < 64 }
        requires formed { (format_of (kind_of e)).body ≡ body_of e }
        ensures listed { given.new ≡ noted given.old e }
        ensures written { self.new ≡ entered given.new self.old e }
    {
        match e {
            Entry::Bare(k) => self.bare(given, k),
            Entry::Word(w) => self.word(given, w),
            Entry::Cell(k, c) => self.cell(given, k, c),
            Entry::Store(k, c, a) => self.cell_store(given, k, c, a),
            Entry::One(k, a) => self.one(given, k, a),
            Entry::Two(k, a, b) => self.two(given, k, a, b),
            Entry::Three(k, a, b, c) => self.three(given, k, a, b, c),
            Entry::Four(k, a, b, c, d) => self.four(given, k, a, b, c, d),
        }
    }
}
