//! The methods of a class: instructions, verification types, bodies, and plans of probes.
#![tactic(auto)]

mod analysed;
mod body;
mod clones;
mod descriptor_types;
mod emitted;
mod entry;
mod form;
mod insn;
mod insn_use;
mod kind;
pub mod opcode;
mod plan;
mod probe_members;
mod same;
mod slots;
mod starts;
mod targets;
mod value_type;
mod widened;

pub use analysed::Analysed;
pub use body::{Body, FrameAt, Handler, LineAt, Use, VarAt, What};
pub use descriptor_types::{
    a_descriptor_is_read_as_its_type, a_method_begins_with_all_its_locals,
    more_names_change_nothing,
};
pub use emitted::Emitted;
pub use entry::{entry_state, is_static, put_tops};
pub use form::{Form, form_of};
pub use insn::{Arm, Flow, Insn, inverse, is_conditional_branch};
pub use kind::{Kind, State};
pub use plan::{Edge, Plan};
pub use probe_members::{
    BOOTSTRAP_TYPE, BOOTSTRAPS_NAME, CONSTANT_TYPE, DATA_NAME, FETCH_NAME, FETCH_TYPE,
    FIRST_CONSTANT, Fetch, INIT_NAME, INIT_TYPE, MOST_PROBES, MOST_SHORT, PROBE_ARRAY,
    RUNTIME_CLASS, fetch_of,
};
pub use slots::{a_replaced_slot_is_a_mapped_one, mapped_locals_are_within};
pub use starts::insn_numbers;
pub use value_type::{MethodTypes, ValueType, field_type, method_types};
pub use widened::{is_listed, the_wide_form_has_each_image};
