//! The constant pool of a class file (JVM Specification 4.4): read, looked up by place and written
//! back, and the texts of its modified UTF-8.
#![tactic(auto)]

mod add;
mod add_linked;
mod add_member;
mod constant;
mod entry;
mod index;
mod item;
mod judged_text;
mod laws;
mod linked;
mod lookup;
mod members;
mod planned;
mod pool;
mod text;
mod write;

pub use add::PoolFull;
pub use constant::ConstText;
pub use laws::{added_entries, added_linked_entries, one_reading, one_text};
pub use lookup::{BadIndex, HandleText, MemberText};
pub use planned::{Planned, PlannedInts};
pub use pool::Pool;
pub use text::text_of;
