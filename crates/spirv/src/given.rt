// What the body is written with: the lent table, the first new id, and the constants so far.
ghost use Rattle.std.specs.Prelude.{◌≡◌, ◌+◌, ◌<◌, ◌≤◌, ◌&&◌, ◌==◌, [], ◌∷◌, map, length, if◌then◌else◌, IfSome};
ghost use Rattle.spirv.specs.Writer.{const, listed, place_of, with_new, given, lent, const_id};
ghost use Rattle.spirv.specs.Page.{constant};

use std::marker::Model;

// A constant: a word, or a truth.
#[derive(Clone, Copy, PartialEq)]
pub enum Constant {
    Word(u32),
    True,
    False,
}

// The list of constants: each once, in the order in which it first stands. A clause sees what they are.
#[derive(Drop)]
pub struct Constants {
    list: [Constant; 64],
    // Kept: an array and its count: there is no heap.
    count: usize,
}

impl Model for Constants {
    ghost use Rattle.std.specs.Prelude.{List, ◌≤◌, map, take};
    ghost use Rattle.spirv.specs.Writer.{Const};
    ghost use Rattle.spirv.specs.Page.{constant};

    ghost Value = { List Const };

    ghost view = { λ c. map constant (take c.count c.list) };

    ghost invariant = { λ c. c.count ≤ 64 };
}

impl Constants {
    pub fn new() -> Constants
        ensures { result ≡ [] }
    {
        Constants {
            list: [Constant::Word(0); 64],
            count: 0,
        }
    }

    pub fn as_slice(&self) -> &[Constant]
        ensures same { map constant result.now ≡ self.now }
        ensures most { length result.now ≤ 64 }
    {
        &self.list[..self.count]
    }

    // Where a constant stands, if it is listed.
    pub fn place_of(&self, k: Constant) -> Option<usize>
        ensures value { result ≡ (if listed self.now (constant k) then Some (place_of self.now (constant k)) else None) }
        ensures most { IfSome result (λ i. i < 64) }
    {
        self.as_slice().iter().position(|known| *known == k)
    }

    // Where a constant stands: at the end, if it is not yet listed.
    pub fn list(&mut self, k: Constant) -> usize
        requires { length self.old < 64 }
        ensures listed { self.new ≡ with_new self.old (constant k ∷ []) }
        ensures place { result ≡ place_of self.new (constant k) }
        ensures most { result ≤ 64 }
    {
        if let Some(place) = self.place_of(k) {
            return place;
        }
        let place = self.count;
        self.list[place] = k;
        self.count = place + 1;
        place
    }
}

// A clause sees the definition's record of the three.
#[derive(Drop)]
pub struct Given<'a> {
    table: &'a [u32],
    bound: u32,
    constants: Constants,
}

impl<'a> Model for Given<'a> {
    ghost use Rattle.spirv.specs.Writer.{given};
    ghost use Rattle.spirv.specs.Writer as Writer;

    ghost Value = { Writer.Given };

    ghost view = { λ g. given g.table.now g.bound g.constants };
}

impl<'a> Given<'a> {
    pub fn new(table: &'a [u32], bound: u32) -> Given<'a>
        ensures { result ≡ given table.now bound [] }
    {
        Given {
            table,
            bound,
            constants: Constants::new(),
        }
    }

    // The lent id at place j.
    pub fn lent(&self, j: usize) -> u64
        ensures { result ≡ lent self.now j }
    {
        match self.table.get(j) {
            Some(id) => u64::from(*id),
            None => 0,
        }
    }

    // The type of a word.
    pub fn word_type(&self, signed: bool) -> u64
        ensures { result ≡ (if signed then lent self.now 1 else lent self.now 0) }
    {
        self.lent(if signed { 1 } else { 0 })
    }

    // The constants, and the id of the first one.
    pub fn constants(&self) -> &[Constant]
        ensures same { map constant result.now ≡ self.now.constants }
        ensures most { length result.now ≤ 64 }
    {
        self.constants.as_slice()
    }

    pub fn first(&self) -> u64
        ensures { (result ≡ self.now.bound) × (result < 4294967296) }
    {
        u64::from(self.bound)
    }

    // The first id after the constants'.
    pub fn end(&self) -> u64
        ensures { result ≡ self.now.bound + length self.now.constants }
    {
        u64::from(self.bound) + self.constants.as_slice().len() as u64
    }

    // The id of a constant, which is listed if it is not yet.
    pub fn id_of(&mut self, k: Constant) -> u64
        requires { length self.old.constants < 64 }
        ensures listed { self.new ≡ given self.old.table self.old.bound (with_new self.old.constants (constant k ∷ [])) }
        ensures id { result ≡ const_id self.new (constant k) }
    {
        u64::from(self.bound) + self.constants.list(k) as u64
    }

    // Whether an id is that of the constant 0.
    pub fn is_zero(&self, id: u64) -> bool
        ensures { result ≡ listed self.now.constants (const 1 0) && (id == const_id self.now (const 1 0)) }
    {
        match self.constants.place_of(Constant::Word(0)) {
            Some(place) => id == u64::from(self.bound) + place as u64,
            None => false,
        }
    }
}
