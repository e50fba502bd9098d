//! What the office does with the shares that it is sent: reads them, adds them, and reports the key.
#![tactic(auto)]

pub mod answers;
pub mod explaining;
mod headers;
mod recombining;
mod report;
mod requests;
pub mod troubles;

pub use answers::answer;
pub use explaining::Explained;
pub use names::Name;
pub use troubles::Trouble;
