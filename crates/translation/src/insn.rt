// The fields of an instruction (decode.rs).
ghost use Rattle.std.specs.Prelude.{◌≡◌, ◌%◌, ◌^◌, ◌<◌};
ghost use Rattle.translation.specs.Insn.{bits, bit, rd, ra, rb, rc, imm32, simm20, cslot, cword};

// The form (0 register, 1 constant buffer, 2 immediate), the value of the opcode, and the word.
// Kept: a form is a number and no enum: the theorems speak of an Insn of any form, and refusal 3 of one above 2.
#[derive(Clone, Copy)]
pub struct Insn {
    pub form: u8,
    pub value: u64,
    pub word: u64,
}

impl Insn {
    // n bits from place lo on. Both are counted modulo 64, so that nothing is asked of a caller; at every call they are literals below it.
    pub fn bits(self, lo: u8, n: u8) -> u64
        ensures { (result ≡ bits self (lo % 64) (n % 64)) × (result < 2 ^ (n % 64)) }
    {
        (self.word >> (lo % 64)) % (1 << (n % 64))
    }

    // At most eight bits, as a byte.
    pub fn bits8(self, lo: u8, n: u8) -> u8
        ensures { result ≡ bits self (lo % 64) (n % 9) }
    {
        self.bits(lo, n % 9) as u8
    }

    pub fn bit(self, k: u8) -> bool
        ensures { result ≡ bit self (k % 64) }
    {
        self.bits(k, 1) == 1
    }

    pub fn rd(self) -> u8
        ensures { result ≡ rd self }
    {
        self.bits8(0, 8)
    }

    pub fn ra(self) -> u8
        ensures { result ≡ ra self }
    {
        self.bits8(8, 8)
    }

    pub fn rb(self) -> u8
        ensures { result ≡ rb self }
    {
        self.bits8(20, 8)
    }

    pub fn rc(self) -> u8
        ensures { result ≡ rc self }
    {
        self.bits8(39, 8)
    }

    pub fn imm32(self) -> u32
        ensures { result ≡ imm32 self }
    {
        self.bits(20, 32) as u32
    }

    pub fn simm20(self) -> u32
        ensures { result ≡ simm20 self }
    {
        if self.bit(56) {
            self.bits(20, 19) as u32 + 0xfff8_0000
        } else {
            self.bits(20, 19) as u32
        }
    }

    // The constant slot of an instruction, and the word in it.
    pub fn cslot(self) -> u8
        ensures { result ≡ cslot self }
    {
        self.bits8(34, 5)
    }

    pub fn cword(self) -> u16
        ensures { (result ≡ cword self) × (result < 16384) }
    {
        self.bits(20, 14) as u16
    }
}
