// The thirty arms of `op` (translate.rs), and their parts: each writes the entries of its definition in specs/Arms.antt.
ghost use Rattle.std.specs.Prelude.{[], ◌∷◌, ◌<◌, ◌≤◌};
ghost use Rattle.translation.specs.Arms.{absolute, bfe, bfi, bfi_words, csetp, field_at_b, find_msb, flo, flo_shift, i2i, iadd, iadd3, iadd32i, iadd3_fetch, iadd3_words, iadd3_shift, iadd_words, icmp, icmp_words, icompare, imnmx, iscadd, lea, lea_b, lea_join, lea_word, load_cell, lop, lop32i, lop3_arm, lop_predicate, lop_test, lop_word, min_or_max, mov, mov32i, note_unless, p2r, p2r_turn, p2r_turns, pcombine, popc, prepared, r2p, r2p_turn, r2p_turns, reverse_if, saturate_if, sel, set_either, set_truth, set_word, setp_both, shf, shf_amount, shf_words, shf_select, shf_word, shl, shr, store_cell, use_field, vmnmx, vmnmx_b, vmnmx_first, vmnmx_insert, vmnmx_merge, vmnmx_mixed, vmnmx_words, vmnmx_saturate, vmnmx_word, xmad, xmad_alter, xmad_fetch, xmad_merge, xmad_words, xmad_product, xmad_shift};
ghost use Rattle.translation.specs.Helpers.{p, r, set};
ghost use Rattle.translation.specs.Insn.{bit, bits, ra, rc, rd};
ghost use Rattle.translation.specs.Emit.{value, Does};

use crate::insn::Insn;
use crate::mode::vmnmx_signed;
use crate::op::Op;
use crate::writer::Writer;

impl Writer {
    // what many arms fetch and store by the instruction's fields: its registers, its predicate
    pub fn r_a(&mut self, i: Insn) -> u8
        ensures { Does self.old (value self.new result) (r (ra i)) [] }
    {
        self.r(i.ra())
    }

    pub fn r_c(&mut self, i: Insn) -> u8
        ensures { Does self.old (value self.new result) (r (rc i)) [] }
    {
        self.r(i.rc())
    }

    pub fn predicate_at_39(&mut self, i: Insn) -> u8
        ensures { Does self.old (value self.new result) (p (bits i 39 3) (bit i 42)) [] }
    {
        self.p(i.bits8(39, 3), i.bit(42))
    }

    pub fn set_d(&mut self, i: Insn, v: u8) -> u8
        ensures { Does self.old (value self.new result) (set (rd i)) (v ∷ []) }
    {
        self.set(i.rd(), v)
    }

    pub fn mov(&mut self, i: Insn) -> u8
        ensures { Does self.old (value self.new result) (mov i) [] }
    {
        let v = self.src_b(i);
        self.set_d(i, v)
    }

    pub fn mov32i(&mut self, i: Insn) -> u8
        ensures { Does self.old (value self.new result) (mov32i i) [] }
    {
        let v = self.u(i.imm32());
        self.set_d(i, v)
    }

    pub fn sel(&mut self, i: Insn) -> u8
        ensures { Does self.old (value self.new result) (sel i) [] }
    {
        let c = self.predicate_at_39(i);
        let a = self.r_a(i);
        let b = self.src_b(i);
        let v = self.three(Op::Select, c, a, b);
        self.set_d(i, v)
    }

    // of a test and a predicate: both combined, then the test's negation and the predicate; stored in this order
    pub fn setp_both(&mut self, i: Insn, c: u8, pv: u8) -> u8
        ensures { Does self.old (value self.new result) (setp_both i) (c ∷ pv ∷ []) }
    {
        let op = i.bits8(45, 2);
        let x = self.bool_op(op, c, pv);
        let nc = self.one(Op::LogicalNot, c);
        let y = self.bool_op(op, nc, pv);
        self.setp(i.bits8(3, 3), x);
        self.setp(i.bits8(0, 3), y)
    }

    pub fn set_truth(&mut self, i: Insn, c: u8) -> u8
        ensures { Does self.old (value self.new result) (set_truth i) (c ∷ []) }
    {
        let v = self.b2u(i.truth_word(), 0, c);
        let v = self.set_cc_if(i.bit(47), v);
        self.set_d(i, v)
    }

    pub fn csetp(&mut self, i: Insn) -> u8
        ensures { Does self.old (value self.new result) (csetp i) [] }
    {
        let c = self.cc_test(i.bits8(8, 5));
        let pv = self.predicate_at_39(i);
        self.setp_both(i, c, pv)
    }

    pub fn set_word(&mut self, i: Insn, c: u8, pv: u8) -> u8
        ensures { Does self.old (value self.new result) (set_word i) (c ∷ pv ∷ []) }
    {
        let x = self.bool_op(i.bits8(45, 2), c, pv);
        self.set_truth(i, x)
    }

    // to two predicates (isetp, psetp) or to a register (iset, pset)
    pub fn set_either(&mut self, pair: bool, i: Insn, a: u8, b: u8) -> u8
        ensures { Does self.old (value self.new result) (set_either pair i) (a ∷ b ∷ []) }
    {
        if pair {
            self.setp_both(i, a, b)
        } else {
            self.set_word(i, a, b)
        }
    }

    // isetp, iset
    pub fn icompare(&mut self, pair: bool, i: Insn) -> u8
        ensures { Does self.old (value self.new result) (icompare pair i) [] }
    {
        let a = self.r_a(i);
        let b = self.src_b(i);
        let pv = self.predicate_at_39(i);
        let c = self.int_cmp(i.bits8(49, 3), i.bit(48), a, b);
        self.set_either(pair, i, c, pv)
    }

    // psetp, pset
    pub fn pcombine(&mut self, pair: bool, i: Insn) -> u8
        ensures { Does self.old (value self.new result) (pcombine pair i) [] }
    {
        let a = self.p(i.bits8(12, 3), i.bit(15));
        let b = self.p(i.bits8(29, 3), i.bit(32));
        let c = self.predicate_at_39(i);
        let ab = self.bool_op(i.bits8(24, 2), a, b);
        self.set_either(pair, i, ab, c)
    }

    // an operand: complemented with extend or where one sign bit is set, negated where both are
    pub fn prepared(&mut self, complement: bool, on: bool, v: u8) -> u8
        ensures { Does self.old (value self.new result) (prepared complement on) (v ∷ []) }
    {
        if complement {
            self.inot(on, v)
        } else {
            self.ineg(on, v)
        }
    }

    // Kept: as many arguments as `iadd_words` of specs/Arms.antt has.
    pub fn iadd_words(
        &mut self,
        d: u8,
        na: bool,
        nb: bool,
        x: bool,
        cc: bool,
        sat: bool,
        a: u8,
        b: u8,
    ) -> u8
        ensures { Does self.old (value self.new result) (iadd_words d na nb x cc sat) (a ∷ b ∷ []) }
    {
        let complement = x || na != nb;
        let a = self.prepared(complement, na, a);
        let b = self.prepared(complement, nb, b);
        let carry = self.sum_carry(x, na != nb);
        let v = self.add_with_flags(a, b, carry, cc);
        let v = self.saturate_add(sat, a, b, v);
        self.set(d, v)
    }

    pub fn iadd(&mut self, i: Insn) -> u8
        ensures { Does self.old (value self.new result) (iadd i) [] }
    {
        let a = self.r_a(i);
        let b = self.src_b(i);
        self.iadd_words(
            i.rd(),
            i.bit(49),
            i.bit(48),
            i.bit(43),
            i.bit(47),
            i.bit(50),
            a,
            b,
        )
    }

    pub fn iadd32i(&mut self, i: Insn) -> u8
        ensures { Does self.old (value self.new result) (iadd32i i) [] }
    {
        let a = self.r_a(i);
        let b = self.u(i.imm32());
        self.iadd_words(
            i.rd(),
            i.bit(56),
            false,
            i.bit(53),
            i.bit(52),
            i.bit(54),
            a,
            b,
        )
    }

    pub fn iadd3_shift(&mut self, s: u8, v: u8, n: u8) -> u8
        ensures { Does self.old (value self.new result) (iadd3_shift s) (v ∷ n ∷ []) }
    {
        match s {
            1 => self.two(Op::ShiftRightLogical, v, n),
            2 => self.two(Op::ShiftLeftLogical, v, n),
            _ => v,
        }
    }

    pub fn iadd3_words(&mut self, i: Insn, a: u8, b: u8, c: u8) -> u8
        ensures { Does self.old (value self.new result) (iadd3_words i) (a ∷ b ∷ c ∷ []) }
    {
        let a = self.ineg(i.bit(51), a);
        let b = self.ineg(i.bit(50), b);
        let c = self.ineg(i.bit(49), c);
        let ab = self.two(Op::IAdd, a, b);
        let sixteen = self.u(16);
        let ab = self.iadd3_shift(i.iadd3_count(), ab, sixteen);
        let cc = i.bit(47);
        let carry = self.sum_carry(i.bit(48), false);
        let v = self.add_with_flags(ab, c, carry, cc);
        self.set_d(i, v)
    }

    // the register form takes halves of its operands
    pub fn iadd3_fetch(&mut self, i: Insn, a: u8) -> u8
        ensures { Does self.old (value self.new result) (iadd3_fetch i) (a ∷ []) }
    {
        if i.form == 0 {
            let b = self.r(i.rb());
            let c = self.r_c(i);
            let a = self.half_select(i.bits8(35, 2), a);
            let b2 = self.half_select(i.bits8(33, 2), b);
            let c2 = self.half_select(i.bits8(31, 2), c);
            self.iadd3_words(i, a, b2, c2)
        } else {
            let b = self.src_b(i);
            let c = self.r_c(i);
            self.iadd3_words(i, a, b, c)
        }
    }

    pub fn iadd3(&mut self, i: Insn) -> u8
        ensures { Does self.old (value self.new result) (iadd3 i) [] }
    {
        let a = self.r_a(i);
        self.iadd3_fetch(i, a)
    }

    pub fn iscadd(&mut self, i: Insn) -> u8
        ensures { Does self.old (value self.new result) (iscadd i) [] }
    {
        let a = self.r_a(i);
        let a = self.ineg(i.bit(49), a);
        let b = self.src_b(i);
        let b = self.ineg(i.bit(48), b);
        let sh = self.u(i.bits(39, 5) as u32);
        let a = self.two(Op::ShiftLeftLogical, a, sh);
        let v = self.two(Op::IAdd, a, b);
        self.set_d(i, v)
    }

    pub fn xmad_shift(&mut self, on: bool, v: u8) -> u8
        ensures { Does self.old (value self.new result) (xmad_shift on) (v ∷ []) }
    {
        if on {
            let s = self.u(16);
            self.two(Op::ShiftLeftLogical, v, s)
        } else {
            v
        }
    }

    // c as the mode alters it, of c, b and sixteen
    pub fn xmad_alter(&mut self, mode: u8, c: u8, b: u8, n: u8) -> u8
        ensures { Does self.old (value self.new result) (xmad_alter mode) (c ∷ b ∷ n ∷ []) }
    {
        match mode {
            1 => {
                let m = self.u(0xffff);
                self.two(Op::BitwiseAnd, c, m)
            }
            2 => self.two(Op::ShiftRightLogical, c, n),
            4 => {
                let bs = self.two(Op::ShiftLeftLogical, b, n);
                self.two(Op::IAdd, c, bs)
            }
            3 => {
                self.note(5);
                c
            }
            _ => c,
        }
    }

    // of v, b and sixteen
    pub fn xmad_merge(&mut self, on: bool, v: u8, b: u8, n: u8) -> u8
        ensures { Does self.old (value self.new result) (xmad_merge on) (v ∷ b ∷ n ∷ []) }
    {
        if on {
            let m = self.u(0xffff);
            let lo = self.two(Op::BitwiseAnd, v, m);
            let bs = self.two(Op::ShiftLeftLogical, b, n);
            self.two(Op::BitwiseOr, lo, bs)
        } else {
            v
        }
    }

    pub fn xmad_product(&mut self, i: Insn, a: u8, b: u8) -> u8
        ensures { Does self.old (value self.new result) (xmad_product i) (a ∷ b ∷ []) }
    {
        let a16 = self.half16(i.bit(53), i.bit(48), a);
        let b16 = self.half16(i.xmad_high(), i.xmad_signed(), b);
        let v = self.two(Op::IMul, a16, b16);
        self.xmad_shift(i.xmad_psl(), v)
    }

    pub fn xmad_words(&mut self, i: Insn, a: u8, b: u8, c: u8) -> u8
        ensures { Does self.old (value self.new result) (xmad_words i) (a ∷ b ∷ c ∷ []) }
    {
        let prod = self.xmad_product(i, a, b);
        let sixteen = self.u(16);
        let c = self.xmad_alter(i.xmad_mode(), c, b, sixteen);
        let v = self.two(Op::IAdd, prod, c);
        let v = self.xmad_merge(i.xmad_mrg(), v, b, sixteen);
        self.set_d(i, v)
    }

    pub fn xmad_fetch(&mut self, i: Insn, a: u8) -> u8
        ensures { Does self.old (value self.new result) (xmad_fetch i) (a ∷ []) }
    {
        if i.form == 2 {
            let b = self.u(i.bits(20, 16) as u32);
            let c = self.r_c(i);
            self.xmad_words(i, a, b, c)
        } else {
            let (b, c) = self.src_bc(i, i.xmad_swaps());
            self.xmad_words(i, a, b, c)
        }
    }

    pub fn xmad(&mut self, i: Insn) -> u8
        ensures { Does self.old (value self.new result) (xmad i) [] }
    {
        let a = self.r_a(i);
        self.xmad_fetch(i, a)
    }

    pub fn imnmx(&mut self, i: Insn) -> u8
        ensures { Does self.old (value self.new result) (imnmx i) [] }
    {
        let bit48 = i.bit(48);
        let a = self.r_a(i);
        let b = self.src_b(i);
        let c = self.predicate_at_39(i);
        let lo = self.minimum(bit48, a, b);
        let hi = self.maximum(bit48, a, b);
        let v = self.three(Op::Select, c, lo, hi);
        self.set_d(i, v)
    }

    pub fn icmp_words(&mut self, i: Insn, a: u8, b: u8, c: u8) -> u8
        ensures { Does self.old (value self.new result) (icmp_words i) (a ∷ b ∷ c ∷ []) }
    {
        let zero = self.u(0);
        let t = self.int_cmp(i.bits8(49, 3), i.bit(48), c, zero);
        let v = self.three(Op::Select, t, a, b);
        self.set_d(i, v)
    }

    pub fn icmp(&mut self, i: Insn) -> u8
        ensures { Does self.old (value self.new result) (icmp i) [] }
    {
        let a = self.r_a(i);
        let (b, c) = self.src_bc(i, i.icmp_swaps());
        self.icmp_words(i, a, b, c)
    }

    pub fn lop_word(&mut self, o: u8, a: u8, b: u8) -> u8
        ensures { Does self.old (value self.new result) (lop_word o) (a ∷ b ∷ []) }
    {
        match o {
            0 => self.two(Op::BitwiseAnd, a, b),
            1 => self.two(Op::BitwiseOr, a, b),
            2 => self.two(Op::BitwiseXor, a, b),
            _ => b,
        }
    }

    // the predicate of lop, of the result and zero
    pub fn lop_test(&mut self, t: u8, v: u8, z: u8) -> u8
        ensures { Does self.old (value self.new result) (lop_test t) (v ∷ z ∷ []) }
    {
        match t {
            2 => self.two(Op::IEqual, v, z),
            3 => self.two(Op::INotEqual, v, z),
            1 => self.truth(Op::True),
            _ => self.truth(Op::False),
        }
    }

    pub fn lop_predicate(&mut self, i: Insn, v: u8) -> u8
        ensures { Does self.old (value self.new result) (lop_predicate i) (v ∷ []) }
    {
        let k = i.bits8(48, 3);
        if k == 7 {
            v
        } else {
            let zero = self.u(0);
            let t = self.lop_test(i.bits8(44, 2), v, zero);
            self.setp(k, t);
            v
        }
    }

    pub fn lop(&mut self, i: Insn) -> u8
        ensures { Does self.old (value self.new result) (lop i) [] }
    {
        let b = self.src_b(i);
        let a = self.r_a(i);
        let a = self.inot(i.bit(39), a);
        let b = self.inot(i.bit(40), b);
        let v = self.lop_word(i.bits8(41, 2), a, b);
        let v = self.set_cc_if(i.bit(47), v);
        let v = self.lop_predicate(i, v);
        self.set_d(i, v)
    }

    pub fn lop32i(&mut self, i: Insn) -> u8
        ensures { Does self.old (value self.new result) (lop32i i) [] }
    {
        let b = self.u(i.imm32());
        let a = self.r_a(i);
        let a = self.inot(i.bit(55), a);
        let b = self.inot(i.bit(56), b);
        let v = self.lop_word(i.bits8(53, 2), a, b);
        let v = self.set_cc_if(i.bit(52), v);
        self.set_d(i, v)
    }

    pub fn lop3_arm(&mut self, i: Insn) -> u8
        ensures { Does self.old (value self.new result) (lop3_arm i) [] }
    {
        let a = self.r_a(i);
        let b = self.src_b(i);
        let c = self.r_c(i);
        let v = self.lop3(i.lop3_table(), a, b, c);
        self.set_d(i, v)
    }

    pub fn shl(&mut self, i: Insn) -> u8
        ensures { Does self.old (value self.new result) (shl i) [] }
    {
        let a = self.r_a(i);
        let b = self.src_b(i);
        let v = self.shift(true, false, i.bit(39), a, b);
        self.set_d(i, v)
    }

    pub fn reverse_if(&mut self, on: bool, v: u8) -> u8
        ensures { Does self.old (value self.new result) (reverse_if on) (v ∷ []) }
    {
        if on { self.one(Op::BitReverse, v) } else { v }
    }

    pub fn shr(&mut self, i: Insn) -> u8
        ensures { Does self.old (value self.new result) (shr i) [] }
    {
        let a = self.r_a(i);
        let b = self.src_b(i);
        let a = self.reverse_if(i.bit(40), a);
        let v = self.shift(false, i.bit(48), i.bit(39), a, b);
        self.set_d(i, v)
    }

    // The field of a, or c with a put into it: the Rust's `extract` and `bit_field_insert`.
    pub fn use_field(&mut self, insert: bool, signed: bool, c: u8, a: u8, pos: u8, len: u8) -> u8
        ensures { Does self.old (value self.new result) (use_field insert signed) (c ∷ a ∷ pos ∷ len ∷ []) }
    {
        if insert {
            self.four(Op::BitFieldInsert, c, a, pos, len)
        } else {
            self.extract(signed, a, pos, len)
        }
    }

    // position and length out of b, then the field of a (bfe) or a put into that of c (bfi)
    pub fn field_at_b(&mut self, insert: bool, signed: bool, c: u8, a: u8, b: u8) -> u8
        ensures { Does self.old (value self.new result) (field_at_b insert signed) (c ∷ a ∷ b ∷ []) }
    {
        let ff = self.u(255);
        let pos = self.two(Op::BitwiseAnd, b, ff);
        let eight = self.u(8);
        let len = self.two(Op::ShiftRightLogical, b, eight);
        let len = self.two(Op::BitwiseAnd, len, ff);
        let c32 = self.u(32);
        let pos = self.two(Op::UMin, pos, c32);
        let room = self.two(Op::ISub, c32, pos);
        let len = self.two(Op::UMin, len, room);
        self.use_field(insert, signed, c, a, pos, len)
    }

    pub fn bfe(&mut self, i: Insn) -> u8
        ensures { Does self.old (value self.new result) (bfe i) [] }
    {
        let a = self.r_a(i);
        let b = self.src_b(i);
        let a = self.reverse_if(i.bit(40), a);
        let v = self.field_at_b(false, i.bit(48), a, a, b);
        self.set_d(i, v)
    }

    pub fn bfi_words(&mut self, i: Insn, a: u8, b: u8, c: u8) -> u8
        ensures { Does self.old (value self.new result) (bfi_words i) (a ∷ b ∷ c ∷ []) }
    {
        let v = self.field_at_b(true, false, c, a, b);
        self.set_d(i, v)
    }

    pub fn bfi(&mut self, i: Insn) -> u8
        ensures { Does self.old (value self.new result) (bfi i) [] }
    {
        let a = self.r_a(i);
        let (b, c) = self.src_bc(i, i.bfi_swaps());
        self.bfi_words(i, a, b, c)
    }

    pub fn vmnmx_b(&mut self, i: Insn) -> u8
        ensures { Does self.old (value self.new result) (vmnmx_b i) [] }
    {
        if i.bit(50) {
            let b = self.r(i.rb());
            self.video_operand(i.bits8(28, 3), i.bit(49), b)
        } else {
            self.u(i.vmnmx_imm())
        }
    }

    // both operands of mixed signs: of the signed one, the other one and zero, with v of them in the Rust's order
    pub fn vmnmx_mixed(&mut self, max: bool, v: u8, s: u8, o: u8, zero: u8) -> u8
        ensures { Does self.old (value self.new result) (vmnmx_mixed max) (v ∷ s ∷ o ∷ zero ∷ []) }
    {
        if max {
            let n = self.two(Op::SLessThan, s, zero);
            self.three(Op::Select, n, o, v)
        } else {
            let n = self.two(Op::SLessThan, s, zero);
            self.three(Op::Select, n, s, v)
        }
    }

    pub fn vmnmx_first(&mut self, max: bool, a: u8, b: u8) -> u8
        ensures { Does self.old (value self.new result) (vmnmx_first max) (a ∷ b ∷ []) }
    {
        if max {
            self.two(Op::UMax, a, b)
        } else {
            self.two(Op::SMin, a, b)
        }
    }

    pub fn min_or_max(&mut self, max: bool, signed: bool, a: u8, b: u8) -> u8
        ensures { Does self.old (value self.new result) (min_or_max max signed) (a ∷ b ∷ []) }
    {
        if max {
            self.maximum(signed, a, b)
        } else {
            self.minimum(signed, a, b)
        }
    }

    // of a, b and zero
    pub fn vmnmx_word(&mut self, sa: bool, sb: bool, max: bool, a: u8, b: u8, zero: u8) -> u8
        ensures { Does self.old (value self.new result) (vmnmx_word sa sb max) (a ∷ b ∷ zero ∷ []) }
    {
        if sa == sb {
            return self.min_or_max(max, sa, a, b);
        }
        if sa {
            let v = self.vmnmx_first(max, a, b);
            return self.vmnmx_mixed(max, v, a, b, zero);
        }
        let v = self.vmnmx_first(max, a, b);
        self.vmnmx_mixed(max, v, b, a, zero)
    }

    // saturation, of the result and zero
    pub fn vmnmx_saturate(&mut self, on: bool, dformat: bool, signed: bool, v: u8, zero: u8) -> u8
        ensures { Does self.old (value self.new result) (vmnmx_saturate on dformat signed) (v ∷ zero ∷ []) }
    {
        if on && dformat && !signed {
            let m = self.u(0x7fff_ffff);
            return self.two(Op::UMin, v, m);
        }
        if on && !dformat && signed {
            return self.two(Op::SMax, v, zero);
        }
        v
    }

    pub fn vmnmx_insert(&mut self, pos: u32, len: u32, v: u8, c: u8) -> u8
        ensures { Does self.old (value self.new result) (vmnmx_insert pos len) (v ∷ c ∷ []) }
    {
        let off = self.u(pos);
        let l = self.u(len);
        self.four(Op::BitFieldInsert, c, v, off, l)
    }

    // of the result and c
    pub fn vmnmx_merge(&mut self, mode: u8, dformat: bool, v: u8, c: u8) -> u8
        ensures { Does self.old (value self.new result) (vmnmx_merge mode dformat) (v ∷ c ∷ []) }
    {
        match mode {
            0 => self.vmnmx_insert(16, 16, v, c),
            1 => self.vmnmx_insert(0, 16, v, c),
            2 => self.vmnmx_insert(0, 8, v, c),
            3 => self.vmnmx_insert(16, 8, v, c),
            4 => self.two(Op::IAdd, v, c),
            5 => self.minimum(dformat, v, c),
            6 => self.maximum(dformat, v, c),
            _ => v,
        }
    }

    pub fn vmnmx_words(&mut self, i: Insn, a: u8, b: u8, c: u8) -> u8
        ensures { Does self.old (value self.new result) (vmnmx_words i) (a ∷ b ∷ c ∷ []) }
    {
        let bit48 = i.bit(48);
        let bit49 = i.bit(49);
        let bit56 = i.bit(56);
        let bit54 = i.bit(54);
        let zero = self.u(0);
        let v = self.vmnmx_word(bit48, bit49, bit56, a, b, zero);
        let v = self.vmnmx_saturate(i.bit(55), bit54, vmnmx_signed(bit48, bit49, bit56), v, zero);
        let v = self.vmnmx_merge(i.bits8(51, 3), bit54, v, c);
        self.set_d(i, v)
    }

    pub fn vmnmx(&mut self, i: Insn) -> u8
        ensures { Does self.old (value self.new result) (vmnmx i) [] }
    {
        let a = self.r_a(i);
        let a = self.video_operand(i.bits8(36, 3), i.bit(48), a);
        let b = self.vmnmx_b(i);
        let c = self.r_c(i);
        self.vmnmx_words(i, a, b, c)
    }

    pub fn absolute(&mut self, on: bool, v: u8) -> u8
        ensures { Does self.old (value self.new result) (absolute on) (v ∷ []) }
    {
        if on {
            let vi = self.one(Op::CastI, v);
            let a = self.one(Op::SAbs, vi);
            self.one(Op::CastU, a)
        } else {
            v
        }
    }

    pub fn saturate_if(&mut self, on: bool, from: bool, to: bool, size: u8, v: u8) -> u8
        ensures { Does self.old (value self.new result) (saturate_if on from to size) (v ∷ []) }
    {
        if on {
            self.saturate_int(from, to, size, v)
        } else {
            v
        }
    }

    pub fn i2i(&mut self, i: Insn) -> u8
        ensures { Does self.old (value self.new result) (i2i i) [] }
    {
        let bit13 = i.bit(13);
        let bit12 = i.bit(12);
        let size = i.bits8(8, 2);
        let b = self.src_b(i);
        let v = self.int_source(i.bits8(10, 2), bit13, i.bits8(41, 2), b);
        let v = self.absolute(i.bit(49) && bit13, v);
        let v = self.ineg(i.bit(45), v);
        let v = self.saturate_if(i.bit(50), bit13, bit12, size, v);
        let v = self.int_source(size, bit12, 0, v);
        self.set_d(i, v)
    }

    pub fn find_msb(&mut self, signed: bool, v: u8) -> u8
        ensures { Does self.old (value self.new result) (find_msb signed) (v ∷ []) }
    {
        if signed {
            self.one(Op::FindSMsb, v)
        } else {
            self.one(Op::FindUMsb, v)
        }
    }

    pub fn flo_shift(&mut self, on: bool, v: u8) -> u8
        ensures { Does self.old (value self.new result) (flo_shift on) (v ∷ []) }
    {
        if on {
            let c31 = self.u(31);
            let s = self.two(Op::ISub, c31, v);
            let none = self.u(0xffff_ffff);
            let e = self.two(Op::IEqual, v, none);
            self.three(Op::Select, e, none, s)
        } else {
            v
        }
    }

    pub fn flo(&mut self, i: Insn) -> u8
        ensures { Does self.old (value self.new result) (flo i) [] }
    {
        let b = self.src_b(i);
        let b = self.inot(i.bit(40), b);
        let v = self.find_msb(i.bit(48), b);
        let v = self.flo_shift(i.bit(41), v);
        self.set_d(i, v)
    }

    pub fn popc(&mut self, i: Insn) -> u8
        ensures { Does self.old (value self.new result) (popc i) [] }
    {
        let b = self.src_b(i);
        let b = self.inot(i.bit(40), b);
        let v = self.one(Op::BitCount, b);
        self.set_d(i, v)
    }

    pub fn note_unless(&mut self, on: bool, n: u8, v: u8) -> u8
        ensures { Does self.old (value self.new result) (note_unless on n) (v ∷ []) }
    {
        if on {
            v
        } else {
            self.note(n);
            v
        }
    }

    pub fn store_cell(&mut self, flag: bool, k: u8, v: u8) -> u8
        ensures { Does self.old (value self.new result) (store_cell flag k) (v ∷ []) }
    {
        if flag {
            self.store(Op::StoreFlag, k, v);
            v
        } else {
            self.store(Op::StorePred, k, v);
            v
        }
    }

    pub fn r2p_turn(&mut self, i: Insn, k: u8, a: u8) -> u8
        requires { k < 8 }
        ensures { Does self.old (value self.new result) (r2p_turn i k) (a ∷ []) }
    {
        if i.asked(k) {
            let m = self.u(i.cell_bit(k));
            let v = self.two(Op::BitwiseAnd, a, m);
            let zero = self.u(0);
            let t = self.two(Op::INotEqual, v, zero);
            self.store_cell(i.bit(40), k, t);
            a
        } else {
            a
        }
    }

    pub fn r2p_turns(&mut self, i: Insn, a: u8) -> u8
        ensures { Does self.old (value self.new result) (r2p_turns i) (a ∷ []) }
    {
        let mut a = a;
        for k in 0..7 {
            a = self.r2p_turn(i, k, a);
        }
        a
    }

    pub fn r2p(&mut self, i: Insn) -> u8
        ensures { Does self.old (value self.new result) (r2p i) [] }
    {
        let a = self.r_a(i);
        let a = self.note_unless(i.form == 2, 2, a);
        self.r2p_turns(i, a)
    }

    pub fn load_cell(&mut self, flag: bool, k: u8) -> u8
        ensures { Does self.old (value self.new result) (load_cell flag k) [] }
    {
        if flag {
            self.cell(Op::LoadFlag, k)
        } else {
            self.predicate(k)
        }
    }

    pub fn p2r_turn(&mut self, i: Insn, k: u8, v: u8) -> u8
        requires { k < 8 }
        ensures { Does self.old (value self.new result) (p2r_turn i k) (v ∷ []) }
    {
        if i.asked(k) {
            let t = self.load_cell(i.bit(40), k);
            let b = self.b2u(i.cell_bit(k), 0, t);
            self.two(Op::BitwiseOr, v, b)
        } else {
            v
        }
    }

    pub fn p2r_turns(&mut self, i: Insn, v: u8) -> u8
        ensures { Does self.old (value self.new result) (p2r_turns i) (v ∷ []) }
    {
        let mut v = v;
        for k in 0..7 {
            v = self.p2r_turn(i, k, v);
        }
        v
    }

    pub fn p2r(&mut self, i: Insn) -> u8
        ensures { Does self.old (value self.new result) (p2r i) [] }
    {
        let a = self.r_a(i);
        let a = self.note_unless(i.form == 2, 3, a);
        let keep = self.u(i.p2r_keep());
        let v = self.two(Op::BitwiseAnd, a, keep);
        let v = self.p2r_turns(i, v);
        self.set_d(i, v)
    }

    pub fn shf_amount(&mut self, wrap: bool, n: u8, c31: u8, c32: u8) -> u8
        ensures { Does self.old (value self.new result) (shf_amount wrap) (n ∷ c31 ∷ c32 ∷ []) }
    {
        if wrap {
            self.two(Op::BitwiseAnd, n, c31)
        } else {
            self.two(Op::UMin, n, c32)
        }
    }

    // of the word that leads, the other one, the amount and 32
    pub fn shf_select(&mut self, x: u8, y: u8, v: u8, amount: u8, c32: u8) -> u8
        ensures { Does self.old (value self.new result) shf_select (x ∷ y ∷ v ∷ amount ∷ c32 ∷ []) }
    {
        let zero = self.u(0);
        let is0 = self.two(Op::IEqual, amount, zero);
        let is32 = self.two(Op::IEqual, amount, c32);
        let v = self.three(Op::Select, is0, x, v);
        self.three(Op::Select, is32, y, v)
    }

    // of low, high, the amount and 32
    pub fn shf_word(&mut self, left: bool, low: u8, high: u8, amount: u8, c32: u8) -> u8
        ensures { Does self.old (value self.new result) (shf_word left) (low ∷ high ∷ amount ∷ c32 ∷ []) }
    {
        if left {
            let inv = self.two(Op::ISub, c32, amount);
            let a = self.two(Op::ShiftLeftLogical, high, amount);
            let b = self.two(Op::ShiftRightLogical, low, inv);
            let v = self.two(Op::BitwiseOr, a, b);
            self.shf_select(high, low, v, amount, c32)
        } else {
            let inv = self.two(Op::ISub, c32, amount);
            let a = self.two(Op::ShiftRightLogical, low, amount);
            let b = self.two(Op::ShiftLeftLogical, high, inv);
            let v = self.two(Op::BitwiseOr, a, b);
            self.shf_select(low, high, v, amount, c32)
        }
    }

    pub fn shf_words(&mut self, i: Insn, low: u8, n: u8, high: u8) -> u8
        ensures { Does self.old (value self.new result) (shf_words i) (low ∷ n ∷ high ∷ []) }
    {
        let c31 = self.u(31);
        let c32 = self.u(32);
        let amount = self.shf_amount(i.bit(50), n, c31, c32);
        let v = self.shf_word(i.shf_left(), low, high, amount, c32);
        let v = self.note_unless(i.shf_plain(), 4, v);
        self.set_d(i, v)
    }

    pub fn shf(&mut self, i: Insn) -> u8
        ensures { Does self.old (value self.new result) (shf i) [] }
    {
        let low = self.r_a(i);
        let n = self.src_b(i);
        let high = self.r_c(i);
        self.shf_words(i, low, n, high)
    }

    pub fn lea_b(&mut self, i: Insn) -> u8
        ensures { Does self.old (value self.new result) (lea_b i) [] }
    {
        if i.lea_reg() {
            return self.r(i.rb());
        }
        if i.lea_cbuf() {
            return self.cbuf_imm(i);
        }
        self.src_b(i)
    }

    // of c, x and y: c alone where nothing is shifted
    pub fn lea_join(&mut self, unshifted: bool, c: u8, x: u8, y: u8) -> u8
        ensures { Does self.old (value self.new result) (lea_join unshifted) (c ∷ x ∷ y ∷ []) }
    {
        if unshifted {
            c
        } else {
            self.two(Op::BitwiseOr, x, y)
        }
    }

    pub fn lea_word(&mut self, i: Insn, a: u8) -> u8
        ensures { Does self.old (value self.new result) (lea_word i) (a ∷ []) }
    {
        if i.lea_high() {
            let sh = i.lea_shift();
            let c = self.r_c(i);
            let s = self.u(sh as u32);
            let inv = self.u(32 - sh as u32);
            let x = self.two(Op::ShiftLeftLogical, c, s);
            let y = self.two(Op::ShiftRightLogical, a, inv);
            self.lea_join(sh == 0, c, x, y)
        } else {
            let s = self.u(i.lea_shift() as u32);
            self.two(Op::ShiftLeftLogical, a, s)
        }
    }

    pub fn lea(&mut self, i: Insn) -> u8
        ensures { Does self.old (value self.new result) (lea i) [] }
    {
        let a = self.r_a(i);
        let b = self.lea_b(i);
        let a = self.ineg(i.lea_negates(), a);
        let x = self.lea_word(i, a);
        let v = self.two(Op::IAdd, x, b);
        self.set_d(i, v)
    }
}
