// Translation of a record to its strip.
#![tactic(auto)]

mod answer;
mod arm;
mod helper;
mod insn;
mod kind;
mod mode;
mod op;
mod writer;

pub use answer::{Refusal, Translated, translate};
pub use insn::Insn;
