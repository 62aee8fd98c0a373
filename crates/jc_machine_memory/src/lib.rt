//! What the machine keeps in memory that is taken once: values, frames and the heap.
#![tactic(auto)]

mod cell;
mod element;
mod frame;
mod heap;
mod value;

pub use element::Element;
pub use frame::{Frame, MOST_CELLS};
pub use heap::{Heap, HeapObject};
pub use value::Value;
