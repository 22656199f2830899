// Words into a buffer, names into an array. Places count modulo the lengths, so no room is asked for; no strip comes near the ends.
ghost use Rattle.std.specs.Prelude.{◌≡◌, ◌+◌, ◌≤◌, ◌++◌, length};
ghost use Rattle.spirv.specs.Instr.{instr, words_of};
ghost use Rattle.spirv.specs.Writer.{name, planned, Made, Stores, Opens, Closes};
ghost use Rattle.spirv.specs.Page.{put_one, puts, blank, look_of, named, taken, wrote, clashed};

use crate::opcodes::Op;
use crate::plan::Name;

// The ids of the body are counted from here on: 2 ^ 40 + 2 ^ 31.
pub const FIRST_ID: u64 = 1101659111424;

// A buffer of words, and where the next one goes.
#[derive(Drop)]
pub struct Tape {
    // Kept: an array and the place in it: there is no heap.
    pub buf: [u32; 512],
    pub at: usize,
}

impl Tape {
    fn put(&mut self, w: u64)
        ensures { self.new ≡ put_one self.old w }
    {
        let i = self.at % 512;
        self.buf[i] = (w % 4294967296) as u32;
        self.at = i + 1;
    }

    fn put_all(&mut self, words: &[u64])
        ensures { self.new ≡ puts self.old words.now }
    {
        for w in words {
            self.put(*w);
        }
    }

    // An instruction: its opcode, and its operands in two parts.
    pub fn put_instr(&mut self, op: u32, first: &[u64], rest: &[u64])
        requires { length first.now + length rest.now ≤ 8 }
        ensures { self.new ≡ puts self.old (words_of (instr op (first.now ++ rest.now))) }
    {
        let words = 1 + first.len() + rest.len();
        self.put(words as u64 * 65536 + u64::from(op));
        self.put_all(first);
        self.put_all(rest);
    }
}

// All that is written with: the next id, the merge label, the number of values, their names, the words, and whether 17 was met.
#[derive(Drop)]
pub struct Page {
    pub next: u64,
    pub merge: u64,
    pub values: usize,
    pub names: [Name; 64],
    pub words: Tape,
    pub clash: bool,
}

impl Page {
    pub fn new() -> Page
        ensures { result ≡ blank }
    {
        // Kept: the first id comes after the zeros, since with it among them the compiler writes the arrays twice (400 ns a strip, so 375).
        let mut page = Page {
            next: 0,
            merge: 0,
            values: 0,
            names: [Name {
                id: 0,
                signed: false,
            }; 64],
            words: Tape {
                buf: [0; 512],
                at: 0,
            },
            clash: false,
        };
        page.next = FIRST_ID;
        page
    }

    // What value r is called.
    pub fn look(&self, r: u16) -> Name
        ensures { result ≡ look_of self.now.names r }
    {
        self.names[usize::from(r) % 64]
    }

    // 17 is met, or not.
    pub fn meets(&mut self, clash: bool)
        ensures { self.new ≡ clashed clash self.old }
    {
        if clash {
            self.clash = true;
        }
    }

    // A value more.
    pub fn value(&mut self, id: u64, signed: bool)
        ensures { self.new ≡ named self.old (name id signed) }
    {
        let v = self.values % 64;
        self.names[v] = Name { id, signed };
        self.values = v + 1;
    }

    // A value more, whose id is the next one.
    fn made(&mut self, signed: bool)
        ensures { self.new ≡ taken self.old signed }
    {
        let id = self.next;
        self.next = id.wrapping_add(1);
        self.value(id, signed);
    }

    // An instruction that makes a value: opcode, type, operands.
    pub fn make(&mut self, op: u32, ty: u64, operands: &[u64], signed: bool)
        requires { length operands.now ≤ 4 }
        ensures { self.new ≡ wrote self.old (Made op ty operands.now signed) }
    {
        self.words.put_instr(op, &[ty, self.next], operands);
        self.made(signed);
    }

    // An operation of SPIR-V or of GLSL.std.450, whose import has this id. Built in at both of its callers: a strip takes 373 ns, with a call 386.
    #[inline(always)]
    pub fn apply(&mut self, set: u64, op: Op, ty: u64, operands: &[u64], signed: bool)
        requires { length operands.now ≤ 4 }
        ensures { self.new ≡ wrote self.old (planned set op ty operands.now signed) }
    {
        match op {
            Op::Core(n) => self.make(n, ty, operands, signed),
            Op::Glsl(n) => {
                let first = [ty, self.next, set, u64::from(n)];
                self.words.put_instr(12, &first, operands);
                self.made(signed);
            }
        }
    }

    // The open: merge, branch, label. The block's label takes the next id, the merge's the one after it.
    pub fn open_block(&mut self, c: u64)
        ensures { self.new ≡ wrote self.old (Opens c) }
    {
        let block = self.next;
        let merge = block.wrapping_add(1);
        self.words.put_instr(247, &[merge, 0], &[]);
        self.words.put_instr(250, &[c, block, merge], &[]);
        self.words.put_instr(248, &[block], &[]);
        self.next = block.wrapping_add(2);
        self.merge = merge;
    }

    // The close: branch, label.
    pub fn close_block(&mut self)
        ensures { self.new ≡ wrote self.old Closes }
    {
        self.words.put_instr(249, &[self.merge], &[]);
        self.words.put_instr(248, &[self.merge], &[]);
    }

    // A store: pointer, value.
    pub fn store(&mut self, to: u64, value: u64)
        ensures { self.new ≡ wrote self.old (Stores to value) }
    {
        self.words.put_instr(62, &[to, value], &[]);
    }
}
