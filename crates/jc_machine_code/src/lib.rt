//! What each instruction of a program is to the machine, once the places in the constant pool are looked up.
#![tactic(auto)]

mod calls;
mod code;
mod constants;
mod elements;
mod fields;
mod given;
mod index;
mod laws;
mod locals;
mod locked;
mod methods;
mod operation;
mod places;
mod prepare;
mod prepared;
mod rows;
mod simple;
mod site;
mod switches;
mod throwables;
mod types;

pub use calls::{special_call, virtual_call};
pub use constants::{constant_operation, long_operation};
pub use fields::{field_operation, is_print_stream};
pub use laws::{
    each_call_is_of_a_method_that_may_be_entered, each_switch_goes_where_the_instruction_leads,
    static_fields_begin_with_what_is_prepared,
};
pub use locals::local_operation;
pub use methods::{is_enterable, is_init_name, most_frame_slots};
pub use operation::{ComputationalType, ElementTypes, Operation, PrimitiveType, Printed};
pub use prepared::{
    Catches, FirstValue, PreparedClass, PreparedMethod, PreparedOperation, PreparedProgram,
    PreparedRow,
};
pub use simple::{array_operation, simple_operation};
pub use switches::{lookup_target, switch_target, table_target};
pub use throwables::{build_operation, extends, make_operation};
