// The SPIR-V words of one strip (02, #105). What they are is in specs/Writer.antt, what they mean in specs/Reading.antt.
#![tactic(auto)]

mod answer;
mod body;
mod given;
mod opcodes;
mod page;
mod pass;
mod plan;
mod table;

pub use answer::{Refusal, Words, to_spirv};
pub use opcodes::Op;
pub use plan::Name;
