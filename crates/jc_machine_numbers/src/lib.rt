//! What instructions that read and write the operand stack alone do, as numbers and places.
#![tactic(auto)]

mod arithmetic;
mod bits;
mod conditions;
mod description;
mod effects;
mod moves;
mod narrowing;
mod operand;

pub use conditions::test;
pub use description::{Effect, Test};
pub use effects::effect;
pub use narrowing::Narrowing;
pub use operand::{Category, Operand};
