// What the form, the opcode's value and the mode bits of an instruction say.
ghost use Rattle.std.specs.Prelude.{◌≡◌, cond, ◌&&◌, ◌||◌, ◌<◌, ◌≤◌, eqb};
ghost use Rattle.translation.specs.Helpers.{table_bit, highest, lowest};
ghost use Rattle.translation.specs.Arms.{truth_word, iadd3_count, xmad_in_c, xmad_swaps, icmp_swaps, bfi_swaps, xmad_high, xmad_signed, xmad_psl, xmad_mrg, xmad_mode, lop3_table, vmnmx_imm, vmnmx_signed, predicate_mask, asked, cell_bit, p2r_keep, shf_left, shf_plain, lea_reg, lea_cbuf, lea_high, lea_shift, lea_negates};

use crate::insn::Insn;

#[tactic(auto, unfolding(crate::specs::Helpers::table_bit))]
pub fn table_bit(mask: u32, k: u8) -> bool
    requires { k < 32 }
    ensures { result ≡ table_bit mask k }
{
    (mask >> k) % 2 == 1
}

#[tactic(auto, unfolding(crate::specs::Arms::vmnmx_signed))]
pub fn vmnmx_signed(sa: bool, sb: bool, max: bool) -> bool
    ensures { result ≡ vmnmx_signed sa sb max }
{
    if sa == sb { sa } else { !max }
}

#[tactic(auto, unfolding(crate::specs::Helpers::highest))]
pub fn highest(signed: bool, size: u8) -> u32
    ensures { result ≡ highest signed size }
{
    match size {
        0 => if signed { 0x7f } else { 0xff },
        1 => if signed { 0x7fff } else { 0xffff },
        _ => if signed { 0x7fff_ffff } else { 0xffff_ffff },
    }
}

#[tactic(auto, unfolding(crate::specs::Helpers::lowest))]
pub fn lowest(signed: bool, size: u8) -> u32
    ensures { result ≡ lowest signed size }
{
    match size {
        0 => if signed { 0xffff_ff80 } else { 0 },
        1 => if signed { 0xffff_8000 } else { 0 },
        _ => if signed { 0x8000_0000 } else { 0 },
    }
}

impl Insn {
    #[tactic(auto, unfolding(crate::specs::Arms::truth_word))]
    pub fn truth_word(self) -> u32
        ensures { result ≡ truth_word self }
    {
        if self.bit(44) {
            0x3f80_0000
        } else {
            0xffff_ffff
        }
    }

    #[tactic(auto, unfolding(crate::specs::Arms::iadd3_count))]
    pub fn iadd3_count(self) -> u8
        ensures { result ≡ iadd3_count self }
    {
        if self.form == 0 { self.bits8(37, 2) } else { 0 }
    }

    #[tactic(auto, unfolding(crate::specs::Arms::xmad_swaps))]
    pub fn xmad_swaps(self) -> bool
        ensures { result ≡ xmad_swaps self }
    {
        self.value == 0x5100_0000_0000_0000
    }

    #[tactic(auto, unfolding(crate::specs::Arms::xmad_in_c))]
    fn xmad_in_c(self) -> bool
        ensures { result ≡ xmad_in_c self }
    {
        self.form == 1 && self.xmad_swaps()
    }

    #[tactic(auto, unfolding(crate::specs::Arms::icmp_swaps))]
    pub fn icmp_swaps(self) -> bool
        ensures { result ≡ icmp_swaps self }
    {
        self.value == 0x5340_0000_0000_0000
    }

    #[tactic(auto, unfolding(crate::specs::Arms::bfi_swaps))]
    pub fn bfi_swaps(self) -> bool
        ensures { result ≡ bfi_swaps self }
    {
        self.value == 0x53f0_0000_0000_0000
    }

    #[tactic(auto, unfolding(crate::specs::Arms::xmad_high))]
    pub fn xmad_high(self) -> bool
        ensures { result ≡ xmad_high self }
    {
        if self.form == 1 {
            self.bit(52)
        } else {
            self.form == 0 && self.bit(35)
        }
    }

    #[tactic(auto, unfolding(crate::specs::Arms::xmad_signed))]
    pub fn xmad_signed(self) -> bool
        ensures { result ≡ xmad_signed self }
    {
        self.bit(49) && self.form != 2
    }

    #[tactic(auto, unfolding(crate::specs::Arms::xmad_psl))]
    pub fn xmad_psl(self) -> bool
        ensures { result ≡ xmad_psl self }
    {
        if self.form == 1 {
            !self.xmad_in_c() && self.bit(55)
        } else {
            self.bit(36)
        }
    }

    #[tactic(auto, unfolding(crate::specs::Arms::xmad_mrg))]
    pub fn xmad_mrg(self) -> bool
        ensures { result ≡ xmad_mrg self }
    {
        if self.form == 1 {
            !self.xmad_in_c() && self.bit(56)
        } else {
            self.bit(37)
        }
    }

    #[tactic(auto, unfolding(crate::specs::Arms::xmad_mode))]
    pub fn xmad_mode(self) -> u8
        ensures { result ≡ xmad_mode self }
    {
        if self.form == 1 {
            self.bits8(50, 2)
        } else {
            self.bits8(50, 3)
        }
    }

    #[tactic(auto, unfolding(crate::specs::Arms::lop3_table))]
    pub fn lop3_table(self) -> u8
        ensures { result ≡ lop3_table self }
    {
        if self.form == 0 {
            self.bits8(28, 8)
        } else {
            self.bits8(48, 8)
        }
    }

    #[tactic(auto, unfolding(crate::specs::Arms::vmnmx_imm))]
    pub fn vmnmx_imm(self) -> u32
        ensures { result ≡ vmnmx_imm self }
    {
        if self.bit(49) && self.bit(35) {
            self.bits(20, 16) as u32 + 0xffff_0000
        } else {
            self.bits(20, 16) as u32
        }
    }

    #[tactic(auto, unfolding(crate::specs::Arms::predicate_mask))]
    pub fn predicate_mask(self) -> u32
        ensures { result ≡ predicate_mask self }
    {
        if self.form == 2 { self.simm20() } else { 127 }
    }

    #[tactic(auto, unfolding(crate::specs::Arms::asked))]
    pub(crate) fn asked(self, k: u8) -> bool
        requires { k < 8 }
        ensures { result ≡ asked self k }
    {
        table_bit(self.predicate_mask(), k) && (k < 4 || !self.bit(40))
    }

    #[tactic(auto, unfolding(crate::specs::Arms::cell_bit))]
    pub(crate) fn cell_bit(self, k: u8) -> u32
        requires { k < 8 }
        ensures { result ≡ cell_bit self k }
    {
        1 << (self.bits(41, 2) as u32 * 8 + k as u32)
    }

    #[tactic(auto, unfolding(crate::specs::Arms::p2r_keep))]
    pub fn p2r_keep(self) -> u32
        ensures { result ≡ p2r_keep self }
    {
        !((self.predicate_mask() % 256) << (self.bits(41, 2) as u32 * 8))
    }

    #[tactic(auto, unfolding(crate::specs::Arms::shf_left))]
    pub fn shf_left(self) -> bool
        ensures { result ≡ shf_left self }
    {
        self.value == 0x5bf8_0000_0000_0000 || self.value == 0x36f8_0000_0000_0000
    }

    #[tactic(auto, unfolding(crate::specs::Arms::shf_plain))]
    pub fn shf_plain(self) -> bool
        ensures { result ≡ shf_plain self }
    {
        self.bits(37, 2) == 0 && self.bits(48, 2) == 0
    }

    #[tactic(auto, unfolding(crate::specs::Arms::lea_reg))]
    pub fn lea_reg(self) -> bool
        ensures { result ≡ lea_reg self }
    {
        self.value == 0x5bd8_0000_0000_0000
    }

    #[tactic(auto, unfolding(crate::specs::Arms::lea_cbuf))]
    pub fn lea_cbuf(self) -> bool
        ensures { result ≡ lea_cbuf self }
    {
        self.value == 0x1800_0000_0000_0000
    }

    #[tactic(auto, unfolding(crate::specs::Arms::lea_high))]
    pub fn lea_high(self) -> bool
        ensures { result ≡ lea_high self }
    {
        self.lea_reg() || self.lea_cbuf()
    }

    #[tactic(auto, unfolding(crate::specs::Arms::lea_shift))]
    pub fn lea_shift(self) -> u8
        ensures { (result ≡ lea_shift self) × (result < 32) }
    {
        if self.lea_reg() {
            return self.bits(28, 5) as u8;
        }
        if self.lea_cbuf() {
            self.bits(51, 5) as u8
        } else {
            self.bits(39, 5) as u8
        }
    }

    #[tactic(auto, unfolding(crate::specs::Arms::lea_negates))]
    pub fn lea_negates(self) -> bool
        ensures { result ≡ lea_negates self }
    {
        self.bit(45) && !self.lea_high()
    }
}
