//! What one instruction does to its frame and to what all threads share.
#![tactic(auto)]

mod arrays;
mod calls;
mod effects;
mod first;
mod frames;
mod instruction;
mod jumps;
mod locals;
mod next;
mod objects;
mod output;
mod shared;
mod statics;
mod values;

pub use calls::{arguments_fit, enter_callee};
pub use instruction::perform;
pub use next::Next;
pub use shared::Shared;
