// What the command program reads and writes: its input by blocks, a line's arguments, lines of output, and what is wrong with a line.
#![tactic(auto)]

pub mod arguments;
pub mod faults;
pub mod input;
pub mod output;
