// Evaluation with C linkage, on states in two lists. A library of its own: a second caller of the reader would make it slower (docs/DECISIONS.md).
#![tactic(auto)]

ghost use Rattle.std.specs.Prelude.{◌≡◌, ◌∷◌, [], length};
ghost use Rattle.strip.specs.Entry.{layout_numbered};
ghost use Rattle.evaluation_host.specs.States.{state_in, truth_bytes, returns, evaluate_answer};

use evaluation::{Refusal, State};
use strip::Layout;
use truth_bytes::{read_truths, write_truths};

// The state that two lists hold.
fn state_in(registers: &[u32], truths: &[u8]) -> State
    requires { (length registers.now ≡ 255) × (length truths.now ≡ 11) }
    ensures { result ≡ state_in registers.now truths.now }
{
    let mut regs = [0u32; 255];
    let mut preds = [false; 7];
    let mut flags = [false; 4];
    regs.copy_from_slice(registers);
    read_truths(truths, 0, &mut preds);
    read_truths(truths, 7, &mut flags);
    State {
        regs: regs,
        preds: preds,
        flags: flags,
    }
}

// A state into two lists.
fn state_out(state: State, registers: &mut [u32], truths: &mut [u8])
    requires { (length registers.old ≡ 255) × (length truths.old ≡ 11) }
    ensures { (registers.new ≡ state.regs) × (truths.new ≡ truth_bytes state) }
{
    let regs = state.regs;
    let preds = state.preds;
    let flags = state.flags;
    registers.copy_from_slice(&regs);
    write_truths(&preds, truths, 0);
    write_truths(&flags, truths, 7);
}

// A run in the layout of this number, from a state, in place: 255 registers, and 11 bytes for the 7 predicates and the flags Z, S, C, O (nonzero is true, answered as 1).
// 0 where the run was evaluated; 7, 8 or 9 where it was refused, and 7 for a wrong length or no layout; a refusal leaves registers and truths as they were.
// Slot, vec and comp are written with 9 alone: what the address asked for. One match tells whether it was refused: a second one costs a copy of the state.
#[unsafe(no_mangle)]
pub extern "C" fn mehkura_evaluate(
    run: &[u8],
    layout: u32,
    registers: &mut [u32],
    truths: &mut [u8],
    constants: &[u32],
    slot: &mut u32,
    vec: &mut u32,
    comp: &mut u32,
) -> u32
    ensures { returns result registers.new truths.new (slot.new ∷ vec.new ∷ comp.new ∷ []) ≡ evaluate_answer (layout_numbered layout) run.now registers.old truths.old constants.now (slot.old ∷ vec.old ∷ comp.old ∷ []) }
{
    if registers.len() != 255 {
        return 7;
    }
    if truths.len() != 11 {
        return 7;
    }
    let Ok(l) = Layout::try_from(layout) else {
        return 7;
    };
    let r = evaluation::evaluate(run, l, state_in(registers, truths), constants);
    let o = r.outcome;
    let state = r.state;
    match o {
        Ok(()) => {
            state_out(state, registers, truths);
            0
        }
        // Kept: a match in the match. What `Err(Refusal::BadShape)` in one pattern tells of the refusal did not close the proof.
        Err(f) => match f {
            Refusal::BadShape => 7,
            Refusal::UndefinedValue => 8,
            Refusal::NoConstant(s, v, c) => {
                *slot = u32::from(s);
                *vec = v;
                *comp = c;
                9
            }
        },
    }
}
