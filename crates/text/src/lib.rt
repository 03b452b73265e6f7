// The program's text: an entry's line, and all that the program prints, step by step.
#![tactic(auto)]

mod line;
mod program;
mod turns;
mod words;

pub use line::write_line;
pub use program::{LONGEST_INPUT, LONGEST_TEXT, Served, begin, finish, serve};

// The room that a line of text needs.
pub const LONGEST_LINE: usize = 72;
