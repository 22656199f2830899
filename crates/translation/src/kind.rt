// The kinds of records: 01 numbers them from 1 to 30.
ghost use Rattle.translation.specs.Kinds.{Numbered};

use crate::answer::Refusal;

#[derive(Clone, Copy, Debug, PartialEq, Eq)]
pub enum Kind {
    Mov,
    Mov32i,
    Sel,
    Csetp,
    Isetp,
    Iset,
    Psetp,
    Pset,
    Iadd,
    Iadd32i,
    Iadd3,
    Iscadd,
    Xmad,
    Imnmx,
    Icmp,
    Lop,
    Lop32i,
    Lop3,
    Shl,
    Shr,
    Bfe,
    Bfi,
    Vmnmx,
    I2i,
    Flo,
    Popc,
    R2p,
    P2r,
    Shf,
    Lea,
}

impl TryFrom<u8> for Kind {
    type Error = Refusal;

    ghost try_from_gives = { Numbered };

    #[tactic(auto, unfolding(crate::specs::Strip::known))]
    fn try_from(number: u8) -> Result<Kind, Refusal> {
        match number {
            0 | 31..=255 => Err(Refusal::UnknownKind),
            1 => Ok(Kind::Mov),
            2 => Ok(Kind::Mov32i),
            3 => Ok(Kind::Sel),
            4 => Ok(Kind::Csetp),
            5 => Ok(Kind::Isetp),
            6 => Ok(Kind::Iset),
            7 => Ok(Kind::Psetp),
            8 => Ok(Kind::Pset),
            9 => Ok(Kind::Iadd),
            10 => Ok(Kind::Iadd32i),
            11 => Ok(Kind::Iadd3),
            12 => Ok(Kind::Iscadd),
            13 => Ok(Kind::Xmad),
            14 => Ok(Kind::Imnmx),
            15 => Ok(Kind::Icmp),
            16 => Ok(Kind::Lop),
            17 => Ok(Kind::Lop32i),
            18 => Ok(Kind::Lop3),
            19 => Ok(Kind::Shl),
            20 => Ok(Kind::Shr),
            21 => Ok(Kind::Bfe),
            22 => Ok(Kind::Bfi),
            23 => Ok(Kind::Vmnmx),
            24 => Ok(Kind::I2i),
            25 => Ok(Kind::Flo),
            26 => Ok(Kind::Popc),
            27 => Ok(Kind::R2p),
            28 => Ok(Kind::P2r),
            29 => Ok(Kind::Shf),
            30 => Ok(Kind::Lea),
        }
    }
}
