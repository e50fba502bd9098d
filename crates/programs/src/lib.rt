//! What the programs share: they serve what they read, explain what is wrong with it, and show the words of elements.
#![tactic(auto)]

pub mod explaining;
pub mod serving;
pub mod showing;

pub use explaining::{Explained, Placed};
pub use serving::serve;
pub use showing::shown;
