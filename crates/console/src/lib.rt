// Standard input and output of the programs: numbers and framed bytes, refusals, the tokens of a
// script.
#![tactic(auto)]

pub mod frames;
pub mod output;
pub mod tokens;
