// What the writer answers: the checks in 02's order, then the words.
ghost use Rattle.std.specs.Prelude.{◌≡◌, suc, ◌+◌, ◌≤◌, ◌||◌, map, length, take, ◌==◌, nat_le};
ghost use Rattle.std.proofs.lemmas.List.Edits.{sets};
ghost use Rattle.spirv.specs.Instr.{words_of, all_words};
ghost use Rattle.spirv.specs.Writer.{id_limit, const_instr, const_instrs};
ghost use Rattle.spirv.specs.Page.{constant, part, settled, puts};
ghost use Rattle.spirv.specs.Answer.{answer_of, answer, number_of};

use crate::given::{Constant, Given};
use crate::page::{FIRST_ID, Page, Tape};
use crate::pass::pass;
use crate::table::table_ok;

// How many words there are, how many of them are the list of constants, and the first free id.
#[derive(Clone, Copy)]
pub struct Words {
    pub words: usize,
    pub constants: usize,
    pub next: u32,
}

// Why nothing was written.
#[derive(Clone, Copy, Debug, PartialEq, Eq)]
pub enum Refusal {
    // The bytes are not one strip in order.
    BadShape,
    // The strip has no words of the right types: words of two signs where one is asked for, or an address whose zero is not the constant 0.
    BadSigns,
    // An id is above the limit, or the lent table is not in order.
    BadIds,
    // There are more words than the room has.
    NoRoom,
}

// 02's numbers.
impl From<Refusal> for u32 {
    ghost use Rattle.spirv.specs.Answer.{number_of};

    ghost from_gives = { λ r n. n ≡ number_of r };

    fn from(r: Refusal) -> u32 {
        match r {
            Refusal::BadShape => 7,
            Refusal::BadSigns => 17,
            Refusal::BadIds => 10,
            Refusal::NoRoom => 11,
        }
    }
}

// The words of a constant.
fn put_constant(words: &mut Tape, given: &Given, k: Constant, id: u64)
    ensures { words.new ≡ puts words.old (words_of (const_instr given.now id (constant k))) }
{
    match k {
        Constant::Word(w) => words.put_instr(43, &[given.lent(0), id, u64::from(w)], &[]),
        Constant::True => words.put_instr(41, &[given.lent(2), id], &[]),
        Constant::False => words.put_instr(42, &[given.lent(2), id], &[]),
    }
}

// The list of constants.
fn put_constants(words: &mut Tape, given: &Given)
    ensures { words.new ≡ puts words.old (all_words (const_instrs given.now given.now.bound given.now.constants)) }
{
    let mut id = given.first();
    for k in given.constants() {
        put_constant(words, given, *k, id);
        id += 1;
    }
}

// Whether the last new id, if there is one, is at most the limit.
fn ids_ok(next: u64, bound: u32) -> bool
    ensures { result ≡ (nat_le next (suc id_limit) || next == bound) }
{
    next <= 4194303 || next == u64::from(bound)
}

// A word of the body: ids that were counted from the first on follow the constants' now.
fn settled(w: u32, first: u32) -> u32
    ensures { result ≡ settled first w }
{
    if w < 2147483648 {
        w
    } else {
        (w - 2147483648).wrapping_add(first)
    }
}

// The words from place at on, n of them, to the start of out.
fn copy_constants(out: &mut [u32], buf: &[u32; 512], at: usize, n: usize)
    requires { (n ≤ length out.old) × (length buf.now ≡ 512) × (at + n ≤ 512) }
    ensures { out.new ≡ sets out.old 0 (part buf.now at n) }
{
    out[..n].copy_from_slice(&buf[at..at + n]);
}

// The first n words to place at of out.
fn copy_body(out: &mut [u32], at: usize, buf: &[u32; 512], n: usize, first: u32)
    requires { (at + n ≤ length out.old) × (length buf.now ≡ 512) × (n ≤ 512) }
    ensures { out.new ≡ sets out.old at (map (settled first) (take n buf.now)) }
{
    for i in 0..n {
        out[at + i] = settled(buf[i], first);
    }
}

// The words of a strip stand at the room's start; a refusal touches nothing. They are collected apart until all is accepted.
pub fn to_spirv(strip: &[u8], bound: u32, table: &[u32], out: &mut [u32]) -> Result<Words, Refusal>
    ensures { answer_of result out.new ≡ answer strip.now bound table.now out.old }
{
    let mut given = Given::new(table, bound);
    let mut page = Page::new();
    pass(strip, &mut given, &mut page)?;
    if page.clash {
        return Err(Refusal::BadSigns);
    }
    if !table_ok(table, bound) {
        return Err(Refusal::BadIds);
    }
    let first = given.end();
    let next = first + (page.next - FIRST_ID);
    if !ids_ok(next, bound) {
        return Err(Refusal::BadIds);
    }
    let body = page.words.at;
    put_constants(&mut page.words, &given);
    let end = page.words.at;
    if out.len() < end {
        return Err(Refusal::NoRoom);
    }
    let constants = end - body;
    copy_constants(out, &page.words.buf, body, constants);
    copy_body(
        out,
        constants,
        &page.words.buf,
        body,
        (first % 4294967296) as u32,
    );
    Ok(Words {
        words: end,
        constants,
        next: next as u32,
    })
}
