//! Kinds of element: what they share, refusals and their numbers, words, recombination, and the kind W.
#![tactic(auto)]

pub mod bitwise;
pub mod refusals;
pub mod sums;
pub mod traits;
pub mod words;

pub use bitwise::W;
pub use refusals::Refusal;
pub use sums::recombine;
pub use traits::{Kind, Ring};
pub use words::{read, read_list, show, show_each};
