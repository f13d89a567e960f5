// What the programs share: the numbers of answers, the lines, the opening of a map file, and the reading of the input.
#![tactic(auto)]

pub mod answer;
pub mod input;
pub mod lines;
pub mod opening;
