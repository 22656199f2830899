// Cells, and what a reach hands back.
ghost use Rattle.std.specs.Prelude.{◌≡◌};
ghost use Rattle.reach.specs.Reach.{refusal_number};

// Which registers, predicates, flags and constant slots are listed.
#[derive(Clone, Copy)]
pub struct Cells {
    pub regs: [bool; 255],
    pub preds: [bool; 7],
    pub flags: [bool; 4],
    pub slots: [bool; 32],
}

// Why a run is refused.
#[derive(Clone, Copy, Debug, PartialEq, Eq)]
pub enum Refusal {
    // The run is not well-formed.
    BadShape,
}

// 01's number of a refusal.
impl From<Refusal> for u32 {
    ghost from_gives = { λ r n. n ≡ refusal_number r };

    fn from(r: Refusal) -> u32 {
        match r {
            Refusal::BadShape => 7,
        }
    }
}

// The cells that the rule lists, or the asked ones where the run is refused.
#[derive(Clone, Copy)]
pub struct Reached {
    pub cells: Cells,
    pub outcome: Result<(), Refusal>,
}
