// A record on a state: it is translated and its strip evaluated, and what comes back is what the record means.
ghost use Rattle.std.specs.Prelude.{◌≡◌};
ghost use Rattle.strip.specs.Entry.{wide};
ghost use Rattle.evaluation.specs.Machine.{evaluation};
ghost use Rattle.meaning.specs.Interpret.{interpretation};
ghost use Rattle.meaning.specs.Told.{refused_told, told, answer_of};

use evaluation::State;
use strip::Layout;

// Why a record is not interpreted. 01's numbers: 1 to 5 of the record, and 9 where the word that it reads is not lent.
#[derive(Clone, Copy, Debug, PartialEq, Eq)]
pub enum Refusal {
    // The record is refused.
    Record(translation::Refusal),
    // Its strip is.
    Run(evaluation::Refusal),
}

// 01's number of a refusal.
impl From<Refusal> for u32 {
    ghost from_gives = { λ r n. n ≡ (refused_told r).number };

    #[tactic(auto, unfolding(crate::specs::Told::refused_told))]
    fn from(r: Refusal) -> u32 {
        match r {
            Refusal::Record(r) => r.into(),
            Refusal::Run(r) => r.into(),
        }
    }
}

// The state of the meaning, or the given one where the record is refused.
#[derive(Clone, Copy)]
pub struct Interpreted {
    pub state: State,
    pub outcome: Result<(), Refusal>,
}

// 01's number, 0 where nothing is refused.
#[tactic(auto, unfolding(crate::specs::Told::told))]
pub fn outcome_number(o: Result<(), Refusal>) -> u32
    ensures { result ≡ (told o).number }
{
    match o {
        Ok(_) => 0,
        Err(r) => r.into(),
    }
}

// A strip from a state.
fn evaluate(run: &[u8], state: State, constants: &[u32]) -> Interpreted
    ensures { answer_of result ≡ evaluation wide run.now state constants.now }
{
    let e = evaluation::evaluate(run, Layout::Wide, state, constants);
    match e.outcome {
        Ok(_) => Interpreted {
            state: e.state,
            outcome: Ok(()),
        },
        Err(r) => Interpreted {
            state: e.state,
            outcome: Err(Refusal::Run(r)),
        },
    }
}

// Word w of constant slot s is element s * 16384 + w of the lent list.
pub fn interpret(bytes: &[u8], state: State, constants: &[u32]) -> Interpreted
    ensures { answer_of result ≡ interpretation bytes.now state constants.now }
{
    let mut room = [0u8; 256];
    let t = translation::translate(bytes, [0u32; 32], &mut room);
    match t.outcome {
        Ok(n) => evaluate(&room[0..n], state, constants),
        Err(r) => Interpreted {
            state,
            outcome: Err(Refusal::Record(r)),
        },
    }
}
