// Text: the words of a line, numbers and bytes as words, and both put into a buffer. Pure functions on lent bytes.
#![tactic(auto)]

pub mod buffer;
pub mod hexadecimal;
pub mod line_words;
pub mod numbers;
pub mod numerals;
