// From a record to its strip: the entry point.
ghost use Rattle.std.specs.Prelude.{◌≡◌, [], ◌+◌, ◌*◌, ◌<◌, ◌≤◌, length};
ghost use Rattle.translation.specs.Arms.{arm_of};
ghost use Rattle.translation.specs.Emit.{value, Does};
ghost use Rattle.translation.specs.Kinds.{number_of_kind};
ghost use Rattle.translation.specs.Marks.{raise};
ghost use Rattle.translation.specs.Strip.{guard, never_runs, refusal_number, system_value_mov, byte_three, word_at64, first_refusal_of, decision, answer_of, translation};
ghost use Rattle.translation.specs.Whole.{writes, refusal_in, Reads, decision_of};

use crate::insn::Insn;
use crate::kind::Kind;
use crate::op::Op;
use crate::writer::Writer;

// Why a record is refused. 01's numbers: 1 to 6 in this order; 4 and 5 only under a guard that may run.
#[derive(Clone, Copy, Debug, PartialEq, Eq)]
pub enum Refusal {
    // The record is not 18 bytes.
    BadLength,
    // The kind is not one of the thirty.
    UnknownKind,
    // The form is above 2.
    UnknownForm,
    // mov of a system value: opcode value 0xf0c8 << 48.
    SystemValueMov,
    // i2i of a half, from byte 3 on.
    ByteThree,
    // The room is shorter than the strip.
    NoRoom,
}

// 01's number of a refusal.
impl From<Refusal> for u32 {
    ghost from_gives = { λ r n. n ≡ refusal_number r };

    #[tactic(auto, unfolding(crate::specs::Strip::refusal_number))]
    fn from(r: Refusal) -> u32 {
        match r {
            Refusal::BadLength => 1,
            Refusal::UnknownKind => 2,
            Refusal::UnknownForm => 3,
            Refusal::SystemValueMov => 4,
            Refusal::ByteThree => 5,
            Refusal::NoRoom => 6,
        }
    }
}

// The strip's length, or the refusal. With the use marks: raised, or as they were where the record is refused.
#[derive(Clone, Copy)]
pub struct Translated {
    pub outcome: Result<usize, Refusal>,
    pub cbuf_used: [u32; 32],
}

impl Insn {
    fn guard(self) -> u8
        ensures { result ≡ guard self }
    {
        self.bits8(16, 3)
    }

    // The guard never holds: predicate 7, which reads true, negated.
    #[tactic(auto, unfolding(crate::specs::Strip::never_runs))]
    fn never_runs(self) -> bool
        ensures { result ≡ never_runs self }
    {
        self.guard() == 7 && self.bit(19)
    }
}

impl Writer {
    // The arm of each kind.
    fn op(&mut self, kind: Kind, i: Insn) -> u8
        ensures { Does self.old (value self.new result) (arm_of (number_of_kind kind) i) [] }
    {
        match kind {
            Kind::Mov => self.mov(i),
            Kind::Mov32i => self.mov32i(i),
            Kind::Sel => self.sel(i),
            Kind::Csetp => self.csetp(i),
            Kind::Isetp => self.icompare(true, i),
            Kind::Iset => self.icompare(false, i),
            Kind::Psetp => self.pcombine(true, i),
            Kind::Pset => self.pcombine(false, i),
            Kind::Iadd => self.iadd(i),
            Kind::Iadd32i => self.iadd32i(i),
            Kind::Iadd3 => self.iadd3(i),
            Kind::Iscadd => self.iscadd(i),
            Kind::Xmad => self.xmad(i),
            Kind::Imnmx => self.imnmx(i),
            Kind::Icmp => self.icmp(i),
            Kind::Lop => self.lop(i),
            Kind::Lop32i => self.lop32i(i),
            Kind::Lop3 => self.lop3_arm(i),
            Kind::Shl => self.shl(i),
            Kind::Shr => self.shr(i),
            Kind::Bfe => self.bfe(i),
            Kind::Bfi => self.bfi(i),
            Kind::Vmnmx => self.vmnmx(i),
            Kind::I2i => self.i2i(i),
            Kind::Flo => self.flo(i),
            Kind::Popc => self.popc(i),
            Kind::R2p => self.r2p(i),
            Kind::P2r => self.p2r(i),
            Kind::Shf => self.shf(i),
            Kind::Lea => self.lea(i),
        }
    }

    // The whole strip: guarded, and the end.
    fn guarded(&mut self, kind: Kind, i: Insn)
        ensures { self.new ≡ writes (number_of_kind kind) i self.old }
    {
        if i.never_runs() {
            self.bare(Op::End);
            return;
        }
        let g = i.guard();
        if g == 7 {
            self.op(kind, i);
        } else {
            let c = self.p(g, i.bit(19));
            self.open(c);
            self.op(kind, i);
            self.bare(Op::Close);
        }
        self.bare(Op::End);
    }
}

// A mark raised to so many bytes; a slot that is none raises nothing.
fn raise(marks: &mut [u32; 32], slot: u8, need: u32)
    ensures { marks.new ≡ raise marks.old slot need }
{
    let k = slot as usize;
    if k < 32 {
        marks[k] = marks[k].max(need);
    }
}

fn system_value_mov(k: Kind, i: Insn) -> bool
    ensures { result ≡ system_value_mov (number_of_kind k) i }
{
    match k {
        Kind::Mov => i.value == 0xf0c8_0000_0000_0000,
        _ => false,
    }
}

fn byte_three(k: Kind, i: Insn) -> bool
    ensures { result ≡ byte_three (number_of_kind k) i }
{
    match k {
        Kind::I2i => i.bits(10, 2) == 1 && i.bits(41, 2) == 3,
        _ => false,
    }
}

// The first refusal of 3 to 5 that holds. A word that never runs needs no support.
fn admit(kind: Kind, i: Insn) -> Result<(), Refusal>
    ensures { refusal_in result ≡ first_refusal_of (number_of_kind kind) i }
{
    if 2 < i.form {
        return Err(Refusal::UnknownForm);
    }
    if i.never_runs() {
        return Ok(());
    }
    if system_value_mov(kind, i) {
        return Err(Refusal::SystemValueMov);
    }
    if byte_three(kind, i) {
        return Err(Refusal::ByteThree);
    }
    Ok(())
}

fn word_at(s: &[u8], at: usize) -> u64
    requires { at + 8 ≤ length s.now }
    ensures { result ≡ word_at64 s.now at }
{
    u64::from_le_bytes([
        s[at],
        s[at + 1],
        s[at + 2],
        s[at + 3],
        s[at + 4],
        s[at + 5],
        s[at + 6],
        s[at + 7],
    ])
}

// The kind and the instruction of a record that 01 admits.
fn admitted(bytes: &[u8]) -> Result<(Kind, Insn), Refusal>
    ensures { Reads bytes.now result }
{
    if bytes.len() != 18 {
        return Err(Refusal::BadLength);
    }
    let kind = Kind::try_from(bytes[0])?;
    let i = Insn {
        form: bytes[1],
        value: word_at(bytes, 2),
        word: word_at(bytes, 10),
    };
    admit(kind, i)?;
    Ok((kind, i))
}

// The length of a record's strip, which goes to the front of out; its marks are raised.
fn put_strip(bytes: &[u8], marks: &mut [u32; 32], out: &mut [u8]) -> Result<usize, Refusal>
    ensures { record { outcome = result; marks = marks.new; out = out.new } ≡ decision bytes.now marks.old out.old }
{
    let (kind, i) = admitted(bytes)?;
    let mut w = Writer::new();
    w.guarded(kind, i);
    let strip = w.bytes();
    let n = strip.len();
    if out.len() < n {
        return Err(Refusal::NoRoom);
    }
    out[..n].copy_from_slice(strip);
    raise(marks, w.slot(), w.need());
    Ok(n)
}

// A record's strip at the front of out, and nothing else of it; or a refusal, which leaves the marks and out as they are.
pub fn translate(bytes: &[u8], cbuf_used: [u32; 32], out: &mut [u8]) -> Translated
    ensures { answer_of (decision_of result out.new) ≡ translation bytes.now cbuf_used out.old }
{
    let mut marks = cbuf_used;
    let outcome = put_strip(bytes, &mut marks, out);
    Translated {
        outcome: outcome,
        cbuf_used: marks,
    }
}
