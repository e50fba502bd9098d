//! Cases of arithmetic: a line asks for an operation on elements of a kind, and is answered with a line.
#![tactic(auto)]

pub mod answers;
pub mod explaining;
mod operations;
mod questions;
mod results;
mod rows;
pub mod troubles;

pub use answers::answer;
pub use explaining::Explained;
pub use troubles::Trouble;
