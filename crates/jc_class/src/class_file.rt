//! A class file as its items (JVM Specification 4.1, 4.5 to 4.7).
use jc_bytes::{Bytes, List};
use jc_pool::Pool;

/// A class file (JVM Specification 4.1). Numbers that name something are places in the pool.
#[derive(Debug, Drop)]
pub struct ClassFile {
    /// The minor version.
    pub minor: u16,
    /// The major version.
    pub major: u16,
    /// The constant pool.
    pub pool: Pool,
    /// The access flags.
    pub flags: u16,
    /// The class itself.
    pub this_class: u16,
    /// The superclass, or 0 where there is none.
    pub super_class: u16,
    /// The interfaces, in their order.
    pub interfaces: List<u16>,
    /// The fields, in their order.
    pub fields: List<Member>,
    /// The methods, in their order.
    pub methods: List<Member>,
    /// The attributes of the class, in their order.
    pub attributes: List<Attribute>,
}

/// A field or a method (JVM Specification 4.5, 4.6).
#[derive(Debug, Drop)]
pub struct Member {
    /// The access flags.
    pub flags: u16,
    /// The name.
    pub name: u16,
    /// The descriptor.
    pub desc: u16,
    /// The attributes, in their order.
    pub attributes: List<Attribute>,
}

/// An attribute (JVM Specification 4.7).
#[derive(Debug, Drop)]
pub struct Attribute {
    /// The name.
    pub name: u16,
    /// What stands behind its length.
    pub body: Bytes,
}
