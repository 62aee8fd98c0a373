//! A method of a class, as it is read.
ghost use Rattle.std.specs.Prelude.{◌≡◌, ◌≤◌, Some, length};
ghost use Rattle.jc_pool.specs.Lookup.{class_name_of};

use jc_class::{ClassFile, Member};

/// A method of a class file, by its number from 0, and the name of the class.
#[derive(Clone, Copy)]
pub struct Method<'a> {
    pub class: &'a ClassFile,
    pub owner: &'a [u8],
    pub number: u16,
    pub member: &'a Member,
    pub ghost named: { class_name_of class.now.pool class.now.this_class ≡ Some owner.now },
    pub ghost short: { length owner.now ≤ 65535 },
}
