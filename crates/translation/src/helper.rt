// The Rust's helpers (translate.rs): each writes the entries of its definition in specs/Helpers.antt.
ghost use Rattle.std.specs.Prelude.{◌≡◌, cond, true, false, [], ◌∷◌, ◌++◌, ◌<◌, ◌≤◌, is_some, option_to_list};
ghost use Rattle.translation.specs.Helpers.{add_with_flags, b2u, bool_op, carry_flag, cbuf_at, cbuf_imm, cc_case, cc_flags, cc_test, clamp_high, extract, field, greater_than, greater_than_equal, half16, half_select, ineg, inot, int_cmp, int_source, less_than, less_than_equal, logical_not_if, lop3, lop3_row, lop3_rows, p, predicate, r, saturate_add, saturate_by, saturate_int, set, set_cc, set_cc_if, set_sum_cc, setp, shift, shift_end, shift_fill, shifted, signed_overflow, src_b, video_operand};
ghost use Rattle.translation.specs.Arms.{minimum, maximum};
ghost use Rattle.translation.specs.Insn.{cslot, cword};
ghost use Rattle.translation.specs.Ops.{number_of_op};
ghost use Rattle.strip.specs.declared.reader.Entry.{Entry};
ghost use Rattle.translation.specs.Emit.{value, Makes, Does, Fetches, summed, carry_added, Carries};

use crate::insn::Insn;
use crate::mode::{highest, lowest, table_bit};
use crate::op::Op;
use crate::writer::Writer;

impl Writer {
    pub fn r(&mut self, k: u8) -> u8
        ensures { Does self.old (value self.new result) (r k) [] }
    {
        if k == 255 {
            self.u(0)
        } else {
            self.cell(Op::LoadReg, k)
        }
    }

    pub fn set(&mut self, k: u8, v: u8) -> u8
        ensures { Does self.old (value self.new result) (set k) (v ∷ []) }
    {
        if k == 255 {
            v
        } else {
            self.store(Op::StoreReg, k, v);
            v
        }
    }

    pub fn logical_not_if(&mut self, on: bool, v: u8) -> u8
        ensures { Does self.old (value self.new result) (logical_not_if on) (v ∷ []) }
    {
        if on { self.one(Op::LogicalNot, v) } else { v }
    }

    pub fn predicate(&mut self, k: u8) -> u8
        ensures { Does self.old (value self.new result) (predicate k) [] }
    {
        if k == 7 {
            self.truth(Op::True)
        } else {
            self.cell(Op::LoadPred, k)
        }
    }

    pub fn p(&mut self, k: u8, n: bool) -> u8
        ensures { Does self.old (value self.new result) (p k n) [] }
    {
        let v = self.predicate(k);
        self.logical_not_if(n, v)
    }

    pub fn setp(&mut self, k: u8, v: u8) -> u8
        ensures { Does self.old (value self.new result) (setp k) (v ∷ []) }
    {
        if k == 7 {
            v
        } else {
            self.store(Op::StorePred, k, v);
            v
        }
    }

    pub fn b2u(&mut self, t: u32, f: u32, c: u8) -> u8
        ensures { Does self.old (value self.new result) (b2u t f) (c ∷ []) }
    {
        let a = self.u(t);
        let b = self.u(f);
        self.three(Op::Select, c, a, b)
    }

    pub fn cbuf_at(&mut self, s: u8, off: u8) -> u8
        ensures { Does self.old (value self.new result) (cbuf_at s) (off ∷ []) }
    {
        let var = self.cell(Op::CbufVar, s);
        let c4 = self.u(4);
        let vec = self.two(Op::ShiftRightLogical, off, c4);
        let c2 = self.u(2);
        let w = self.two(Op::ShiftRightLogical, off, c2);
        let c3 = self.u(3);
        let comp = self.two(Op::BitwiseAnd, w, c3);
        let zero = self.u(0);
        let ptr = self.four(Op::AccessChain, var, zero, vec, comp);
        self.one(Op::LoadAt, ptr)
    }

    // the word of an instruction's constant slot: the Rust's offset is four times its number
    pub fn cbuf_imm(&mut self, i: Insn) -> u8
        ensures { Does self.old (value self.new result) (cbuf_imm (cslot i) (cword i)) [] }
    {
        self.mark(i);
        let off = self.u(i.cword() as u32 * 4);
        self.cbuf_at(i.cslot(), off)
    }

    pub fn src_b(&mut self, i: Insn) -> u8
        ensures { Does self.old (value self.new result) (src_b i) [] }
    {
        if i.form == 0 {
            return self.r(i.rb());
        }
        if i.form == 1 {
            return self.cbuf_imm(i);
        }
        self.u(i.simm20())
    }

    // The words b and c. Where a constant is named, `swap` says that it is c.
    pub fn src_bc(&mut self, i: Insn, swap: bool) -> (u8, u8)
        ensures { Fetches self.old self.new i swap result.0 result.1 }
    {
        if i.form == 1 && swap {
            let b = self.r(i.rc());
            let c = self.cbuf_imm(i);
            (b, c)
        } else {
            let b = self.src_b(i);
            let c = self.r(i.rc());
            (b, c)
        }
    }

    pub fn inot(&mut self, on: bool, v: u8) -> u8
        ensures { Does self.old (value self.new result) (inot on) (v ∷ []) }
    {
        if on { self.one(Op::BitwiseNot, v) } else { v }
    }

    pub fn ineg(&mut self, on: bool, v: u8) -> u8
        ensures { Does self.old (value self.new result) (ineg on) (v ∷ []) }
    {
        if on {
            let zero = self.u(0);
            self.two(Op::ISub, zero, v)
        } else {
            v
        }
    }

    pub fn carry_flag(&mut self) -> u8
        ensures { Does self.old (value self.new result) carry_flag [] }
    {
        let c = self.cell(Op::LoadFlag, 2);
        self.b2u(1, 0, c)
    }

    pub fn signed_overflow(&mut self, a: u8, b: u8, v: u8) -> u8
        ensures { Does self.old (value self.new result) signed_overflow (a ∷ b ∷ v ∷ []) }
    {
        let zero = self.u(0);
        let xa = self.two(Op::BitwiseXor, a, v);
        let xb = self.two(Op::BitwiseXor, b, v);
        let both = self.two(Op::BitwiseAnd, xa, xb);
        self.two(Op::SLessThan, both, zero)
    }

    pub fn set_cc(&mut self, v: u8, carry: Option<u8>, overflow: Option<u8>) -> u8
        ensures { Does self.old (value self.new result) (set_cc (is_some carry) (is_some overflow)) (v ∷ option_to_list carry ++ option_to_list overflow) }
    {
        let zero = self.u(0);
        let z = self.two(Op::IEqual, v, zero);
        let s = self.two(Op::SLessThan, v, zero);
        let f = self.truth(Op::False);
        self.store(Op::StoreFlag, 0, z);
        self.store(Op::StoreFlag, 1, s);
        self.store(Op::StoreFlag, 2, carry.unwrap_or(f));
        self.store(Op::StoreFlag, 3, overflow.unwrap_or(f));
        v
    }

    // where it is asked for, with neither
    pub fn set_cc_if(&mut self, on: bool, v: u8) -> u8
        ensures { Does self.old (value self.new result) (set_cc_if on) (v ∷ []) }
    {
        if on { self.set_cc(v, None, None) } else { v }
    }

    // the flags of a sum, where they are asked for
    pub fn set_sum_cc(&mut self, cc: bool, a: u8, b: u8, v: u8, c: u8) -> u8
        ensures { Does self.old (value self.new result) (set_sum_cc cc) (a ∷ b ∷ v ∷ c ∷ []) }
    {
        if cc {
            let o = self.signed_overflow(a, b, v);
            self.set_cc(v, Some(c), Some(o))
        } else {
            v
        }
    }

    // The carry in, where one is given, is added to a sum: the sum and its carry out.
    fn add_carry(&mut self, v: u8, carry: u8, carry_in: Option<u8>) -> (u8, u8)
        ensures { summed self.new result ≡ carry_added carry_in v carry self.old }
    {
        match carry_in {
            None => (v, carry),
            Some(cin) => {
                let v2 = self.two(Op::IAdd, v, cin);
                let c2 = self.two(Op::ULessThan, v2, v);
                let c = self.two(Op::LogicalOr, carry, c2);
                (v2, c)
            }
        }
    }

    // The sum alone where there is no carry in and no flag is asked for.
    pub fn add_with_flags(&mut self, a: u8, b: u8, carry_in: Option<u8>, cc: bool) -> u8
        ensures { Does self.old (value self.new result) (add_with_flags (is_some carry_in) cc) (a ∷ b ∷ option_to_list carry_in) }
    {
        let v = self.two(Op::IAdd, a, b);
        if carry_in.is_some() || cc {
            let c = self.two(Op::ULessThan, v, a);
            let (v2, c2) = self.add_carry(v, c, carry_in);
            self.set_sum_cc(cc, a, b, v2, c2)
        } else {
            v
        }
    }

    // the carry in of a sum: the flag with extend, one, or none; `add_with_flags` takes it
    pub fn sum_carry(&mut self, x: bool, one: bool) -> Option<u8>
        ensures { Carries self.old self.new x one result }
    {
        if x {
            return Some(self.carry_flag());
        }
        if one {
            return Some(self.u(1));
        }
        None
    }

    pub fn saturate_add(&mut self, on: bool, a: u8, b: u8, v: u8) -> u8
        ensures { Does self.old (value self.new result) (saturate_add on) (a ∷ b ∷ v ∷ []) }
    {
        if on {
            let overflow = self.signed_overflow(a, b, v);
            let zero = self.u(0);
            let n = self.two(Op::SLessThan, v, zero);
            let clamped = self.b2u(0x7fff_ffff, 0x8000_0000, n);
            self.three(Op::Select, overflow, clamped, v)
        } else {
            v
        }
    }

    pub fn bool_op(&mut self, o: u8, a: u8, b: u8) -> u8
        ensures { Does self.old (value self.new result) (bool_op o) (a ∷ b ∷ []) }
    {
        match o {
            0 => self.two(Op::LogicalAnd, a, b),
            1 => self.two(Op::LogicalOr, a, b),
            _ => self.two(Op::LogicalNotEqual, a, b),
        }
    }

    // An operation in its signed or its unsigned kind.
    // Kept: `less_than` to `maximum` over it are the names of the ported functions.
    fn by_sign(&mut self, signed: bool, s: Op, u: Op, a: u8, b: u8) -> u8
        ensures { Makes self.old (value self.new result) (Entry.Two (cond signed (number_of_op s) (number_of_op u)) a b) }
    {
        if signed {
            self.two(s, a, b)
        } else {
            self.two(u, a, b)
        }
    }

    pub fn less_than(&mut self, signed: bool, a: u8, b: u8) -> u8
        ensures { Does self.old (value self.new result) (less_than signed) (a ∷ b ∷ []) }
    {
        self.by_sign(signed, Op::SLessThan, Op::ULessThan, a, b)
    }

    pub fn less_than_equal(&mut self, signed: bool, a: u8, b: u8) -> u8
        ensures { Does self.old (value self.new result) (less_than_equal signed) (a ∷ b ∷ []) }
    {
        self.by_sign(signed, Op::SLessThanEqual, Op::ULessThanEqual, a, b)
    }

    pub fn greater_than(&mut self, signed: bool, a: u8, b: u8) -> u8
        ensures { Does self.old (value self.new result) (greater_than signed) (a ∷ b ∷ []) }
    {
        self.by_sign(signed, Op::SGreaterThan, Op::UGreaterThan, a, b)
    }

    pub fn greater_than_equal(&mut self, signed: bool, a: u8, b: u8) -> u8
        ensures { Does self.old (value self.new result) (greater_than_equal signed) (a ∷ b ∷ []) }
    {
        self.by_sign(signed, Op::SGreaterThanEqual, Op::UGreaterThanEqual, a, b)
    }

    pub fn minimum(&mut self, signed: bool, a: u8, b: u8) -> u8
        ensures { Does self.old (value self.new result) (minimum signed) (a ∷ b ∷ []) }
    {
        self.by_sign(signed, Op::SMin, Op::UMin, a, b)
    }

    pub fn maximum(&mut self, signed: bool, a: u8, b: u8) -> u8
        ensures { Does self.old (value self.new result) (maximum signed) (a ∷ b ∷ []) }
    {
        self.by_sign(signed, Op::SMax, Op::UMax, a, b)
    }

    pub fn int_cmp(&mut self, o: u8, signed: bool, a: u8, b: u8) -> u8
        ensures { Does self.old (value self.new result) (int_cmp o signed) (a ∷ b ∷ []) }
    {
        match o {
            0 => self.truth(Op::False),
            1 => self.less_than(signed, a, b),
            2 => self.two(Op::IEqual, a, b),
            3 => self.less_than_equal(signed, a, b),
            4 => self.greater_than(signed, a, b),
            5 => self.two(Op::INotEqual, a, b),
            6 => self.greater_than_equal(signed, a, b),
            _ => self.truth(Op::True),
        }
    }

    // the cases of `cc_test` that ask for single flags, of z, s, c and o
    pub fn cc_flags(&mut self, t: u8, z: u8, s: u8, c: u8, o: u8) -> u8
        ensures { Does self.old (value self.new result) (cc_flags t) (z ∷ s ∷ c ∷ o ∷ []) }
    {
        match t {
            7 => self.one(Op::LogicalNot, o),
            8 | 23 => o,
            17 => self.one(Op::LogicalNot, c),
            18 => self.one(Op::LogicalNot, s),
            19 => {
                let nc = self.one(Op::LogicalNot, c);
                self.two(Op::LogicalOr, nc, z)
            }
            20 => {
                let nz = self.one(Op::LogicalNot, z);
                self.two(Op::LogicalAnd, c, nz)
            }
            21 => s,
            22 => c,
            _ => {
                self.note(1);
                self.truth(Op::True)
            }
        }
    }

    // all of them, of z, s, c, o and lt: first those that compare
    pub fn cc_case(&mut self, t: u8, z: u8, s: u8, c: u8, o: u8, lt: u8) -> u8
        ensures { Does self.old (value self.new result) (cc_case t) (z ∷ s ∷ c ∷ o ∷ lt ∷ []) }
    {
        match t {
            0 | 16 => self.truth(Op::False),
            1 | 9 => lt,
            2 | 10 => z,
            3 | 11 => self.two(Op::LogicalOr, lt, z),
            4 | 12 => {
                let le = self.two(Op::LogicalOr, lt, z);
                self.one(Op::LogicalNot, le)
            }
            5 | 13 => self.one(Op::LogicalNot, z),
            6 | 14 => self.one(Op::LogicalNot, lt),
            _ => self.cc_flags(t, z, s, c, o),
        }
    }

    pub fn cc_test(&mut self, t: u8) -> u8
        ensures { Does self.old (value self.new result) (cc_test t) [] }
    {
        let z = self.cell(Op::LoadFlag, 0);
        let s = self.cell(Op::LoadFlag, 1);
        let c = self.cell(Op::LoadFlag, 2);
        let o = self.cell(Op::LoadFlag, 3);
        let lt = self.two(Op::LogicalNotEqual, s, o);
        self.cc_case(t, z, s, c, o, lt)
    }

    pub fn shifted(&mut self, left: bool, signed: bool, a: u8, n: u8) -> u8
        ensures { Does self.old (value self.new result) (shifted left signed) (a ∷ n ∷ []) }
    {
        if left {
            return self.two(Op::ShiftLeftLogical, a, n);
        }
        if signed {
            return self.two(Op::ShiftRightArithmetic, a, n);
        }
        self.two(Op::ShiftRightLogical, a, n)
    }

    // what is left of a shift by 32 or more
    pub fn shift_fill(&mut self, sign: bool, a: u8) -> u8
        ensures { Does self.old (value self.new result) (shift_fill sign) (a ∷ []) }
    {
        if sign {
            let ai = self.one(Op::CastI, a);
            let c31i = self.u(31);
            let s = self.two(Op::ShiftRightArithmetic, ai, c31i);
            self.one(Op::CastU, s)
        } else {
            self.u(0)
        }
    }

    pub fn shift_end(&mut self, sign: bool, wrap: bool, a: u8, b: u8, v: u8) -> u8
        ensures { Does self.old (value self.new result) (shift_end sign wrap) (a ∷ b ∷ v ∷ []) }
    {
        if wrap {
            v
        } else {
            let c32 = self.u(32);
            let big = self.two(Op::UGreaterThanEqual, b, c32);
            let fill = self.shift_fill(sign, a);
            self.three(Op::Select, big, fill, v)
        }
    }

    pub fn shift(&mut self, left: bool, signed: bool, wrap: bool, a: u8, b: u8) -> u8
        ensures { Does self.old (value self.new result) (shift left signed wrap) (a ∷ b ∷ []) }
    {
        let c31 = self.u(31);
        let amount = self.two(Op::BitwiseAnd, b, c31);
        let v = self.shifted(left, signed, a, amount);
        self.shift_end(signed && !left, wrap, a, b, v)
    }

    // one row of the table of `lop3`
    pub fn lop3_row(&mut self, on: bool, acc: u8, x: u8, y: u8, z: u8) -> u8
        ensures { Does self.old (value self.new result) (lop3_row on) (acc ∷ x ∷ y ∷ z ∷ []) }
    {
        if on {
            let xy = self.two(Op::BitwiseAnd, x, y);
            let xyz = self.two(Op::BitwiseAnd, xy, z);
            self.two(Op::BitwiseOr, acc, xyz)
        } else {
            acc
        }
    }

    // rows k and k + 1, which differ in the bit of c alone
    pub fn lop3_rows(&mut self, lut: u8, k: u8, acc: u8, x: u8, y: u8, c: u8, nc: u8) -> u8
        requires { k < 8 }
        ensures { Does self.old (value self.new result) (lop3_rows lut k) (acc ∷ x ∷ y ∷ c ∷ nc ∷ []) }
    {
        let acc = self.lop3_row(table_bit(lut as u32, k), acc, x, y, nc);
        self.lop3_row(table_bit(lut as u32, k + 1), acc, x, y, c)
    }

    // Kept: four calls, whose operands differ from one to the next: a loop would take them out of tables of the two negations.
    pub fn lop3(&mut self, lut: u8, a: u8, b: u8, c: u8) -> u8
        ensures { Does self.old (value self.new result) (lop3 lut) (a ∷ b ∷ c ∷ []) }
    {
        let acc = self.u(0);
        let na = self.one(Op::BitwiseNot, a);
        let nb = self.one(Op::BitwiseNot, b);
        let nc = self.one(Op::BitwiseNot, c);
        let acc2 = self.lop3_rows(lut, 0, acc, na, nb, c, nc);
        let acc3 = self.lop3_rows(lut, 2, acc2, na, b, c, nc);
        let acc4 = self.lop3_rows(lut, 4, acc3, a, nb, c, nc);
        self.lop3_rows(lut, 6, acc4, a, b, c, nc)
    }

    pub fn extract(&mut self, signed: bool, v: u8, off: u8, len: u8) -> u8
        ensures { Does self.old (value self.new result) (extract signed) (v ∷ off ∷ len ∷ []) }
    {
        if signed {
            let vi = self.one(Op::CastI, v);
            let x = self.three(Op::BitFieldSExtract, vi, off, len);
            self.one(Op::CastU, x)
        } else {
            self.three(Op::BitFieldUExtract, v, off, len)
        }
    }

    // len bits from place pos on: `half16`, `video_operand` and `int_source` end like this
    pub fn field(&mut self, pos: u32, len: u32, signed: bool, v: u8) -> u8
        ensures { Does self.old (value self.new result) (field pos len signed) (v ∷ []) }
    {
        let off = self.u(pos);
        let l = self.u(len);
        self.extract(signed, v, off, l)
    }

    pub fn half16(&mut self, high: bool, signed: bool, v: u8) -> u8
        ensures { Does self.old (value self.new result) (half16 high signed) (v ∷ []) }
    {
        if high {
            self.field(16, 16, signed, v)
        } else {
            self.field(0, 16, signed, v)
        }
    }

    pub fn half_select(&mut self, sel: u8, v: u8) -> u8
        ensures { Does self.old (value self.new result) (half_select sel) (v ∷ []) }
    {
        match sel {
            1 => self.half16(false, false, v),
            2 => self.half16(true, false, v),
            _ => v,
        }
    }

    pub fn video_operand(&mut self, sel: u8, signed: bool, v: u8) -> u8
        ensures { Does self.old (value self.new result) (video_operand sel signed) (v ∷ []) }
    {
        if sel < 4 {
            return self.field(sel as u32 * 8, 8, signed, v);
        }
        if sel < 6 {
            return self.field((sel as u32 - 4) * 16, 16, signed, v);
        }
        v
    }

    pub fn int_source(&mut self, size: u8, signed: bool, byte: u8, v: u8) -> u8
        ensures { Does self.old (value self.new result) (int_source size signed byte) (v ∷ []) }
    {
        match size {
            0 => self.field(byte as u32 * 8, 8, signed, v),
            1 => self.field(byte as u32 * 8, 16, signed, v),
            _ => v,
        }
    }

    pub fn clamp_high(&mut self, on: bool, x: u8, hi: u8) -> u8
        ensures { Does self.old (value self.new result) (clamp_high on) (x ∷ hi ∷ []) }
    {
        if on {
            let hi = self.one(Op::CastI, hi);
            self.two(Op::SMin, x, hi)
        } else {
            x
        }
    }

    pub fn saturate_by(&mut self, from: bool, to: bool, size: u8, v: u8, hi: u8) -> u8
        ensures { Does self.old (value self.new result) (saturate_by from to size) (v ∷ hi ∷ []) }
    {
        if from {
            let lo = self.u(lowest(to, size));
            let vi = self.one(Op::CastI, v);
            let lo2 = self.one(Op::CastI, lo);
            let x = self.two(Op::SMax, vi, lo2);
            let x2 = self.clamp_high(to || size < 2, x, hi);
            self.one(Op::CastU, x2)
        } else {
            self.two(Op::UMin, v, hi)
        }
    }

    pub fn saturate_int(&mut self, from: bool, to: bool, size: u8, v: u8) -> u8
        ensures { Does self.old (value self.new result) (saturate_int from to size) (v ∷ []) }
    {
        let hi = self.u(highest(to, size));
        self.saturate_by(from, to, size, v, hi)
    }
}
