//! Decimal words out of text and into it: lines, tokens, numbers, and the line and column of what is wrong.
#![tactic(auto)]

mod cuts;
pub mod faults;
pub mod lines;
pub mod lists;
pub mod numbers;
pub mod places;
pub mod tokens;
pub mod writing;

pub use faults::{Fault, Problem};
pub use lines::{LineReader, first_line};
pub use lists::{WordsError, words};
pub use places::Place;
pub use tokens::{Reader, Token};
pub use writing::{push_number, push_numbers};
