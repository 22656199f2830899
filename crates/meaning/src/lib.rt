// What the thirty instructions mean (specs), the theorems that strips mean it (proofs), and one function from a record to its meaning.
#![tactic(auto)]

mod interpreter;

pub use interpreter::{Interpreted, Refusal, interpret, outcome_number};
