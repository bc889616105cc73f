// The lines of the console: reading them, and printing the fields of the lines that answer them.

#![tactic(auto)]

mod fields;
pub mod limits;
pub mod parse;
pub mod parts;
pub mod print;
pub mod why;
