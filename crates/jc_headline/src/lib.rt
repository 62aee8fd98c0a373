//! The work of the command `cover`, and what it means: [`instrumented_classes_do_what_their_originals_do`] is the promise of this
//! repository, the headline.
#![tactic(auto)]

mod laws;

pub use laws::{
    cover_ends_by_itself, cover_has_one_work, each_cover_ends_as_its_work, each_done_cover_is_fit,
    each_fit_cover_is_done, few_slots_and_other_ids_are_enough,
    instrumented_classes_do_what_their_originals_do, what_was_read_back_runs,
};
