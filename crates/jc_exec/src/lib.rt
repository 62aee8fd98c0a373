//! Execution data in JaCoCo's format of version 1007: which probes of which classes were hit.
//!
//! Data is read into a store, whole or in pieces. The store holds the union of all that was read, and is written as data.
#![tactic(auto)]

mod bits;
mod block;
mod feed;
mod gathering;
mod hits;
mod ids;
mod laws;
mod merge;
mod packed_feed;
mod packed_records;
mod packed_sessions;
mod packed_store;
mod packed_write;
mod records;
mod refusal;
mod session;
mod store;
mod table;
mod waiting;
mod write;

pub use bits::Bits;
pub use feed::ExecFeed;
pub use hits::ClassHits;
pub use laws::{
    groups_merge_alike, one_answer_to_each_text, one_list_of_each_text, one_union_of_each_list,
    sessions_by_dump, union_block_by_block, what_is_written_is_read,
};
pub use merge::check_fits;
pub use packed_feed::PackedFeed;
pub use packed_store::PackedStore;
pub use refusal::ExecRefusal;
pub use session::Session;
pub use store::ExecStore;
