//! The kinds that are put together, by name: how each is printed and read, and work that is done in the one that is named.
#![tactic(auto)]

pub mod naming;
pub mod working;

pub use naming::{Name, UnknownName};
pub use working::Work;
