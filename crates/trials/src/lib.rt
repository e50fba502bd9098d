//! Examples of what the crates promise, run as tests.
#![tactic(auto)]

#[cfg(test)]
mod elements;
#[cfg(test)]
mod offices;
#[cfg(test)]
mod products;
#[cfg(test)]
mod texts;
