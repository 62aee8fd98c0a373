//! What no row of the programs `tests_..` can say: real files and texts, and files and writers that behave otherwise than
//! those in memory.
#![tactic(auto)]

#[cfg(test)]
mod fakes;
#[cfg(test)]
mod kept;
#[cfg(test)]
mod real;
