//! What a StackMapTable holds, as it stands in the class file.
use jc_bytes::List;

/// A verification type (JVM Specification 4.7.4). Places in the code are offsets.
#[derive(Clone, Copy, Debug, PartialEq, Eq)]
pub enum TypeItem {
    Top,
    Int,
    Float,
    Double,
    Long,
    Null,
    UninitThis,
    /// An object of the class at this place in the pool.
    Object { place: u16 },
    /// An object that the `new` at this offset made, before its constructor was called.
    Uninit { offset: u16 },
}

/// What stands behind the tag of a verification type (JVM Specification 4.7.4).
#[derive(Clone, Copy, Debug, PartialEq, Eq)]
pub enum TypeForm {
    /// Nothing: the tag says the type.
    Plain(TypeItem),
    /// The place of a class in the pool.
    WithClass,
    /// The offset of a `new`.
    WithOffset,
    /// No type has the tag.
    NoType,
}

/// What stands behind the tag of a frame, with what the tag says (JVM Specification 4.7.4).
#[derive(Clone, Copy, Debug, PartialEq, Eq)]
pub enum FrameForm {
    /// Nothing: the tag says the delta.
    Same(u8),
    /// A type: the tag says the delta.
    OneItem(u8),
    /// A delta and a type.
    OneItemFar,
    /// A delta: the tag says how many values go.
    Chop(u8),
    /// A delta.
    SameFar,
    /// A delta and so many types, as the tag says.
    Append(u8),
    /// A delta, types of local variables and types on the stack.
    Full,
    /// No frame has the tag.
    NoFrame,
}

/// A frame, whatever way it is spelled (JVM Specification 4.7.4).
#[derive(Debug, Drop)]
pub enum FrameItem {
    /// The values in local variables of the frame before, and an empty stack.
    Same {
        delta: u16,
    },
    /// The values in local variables of the frame before, and one value on the stack.
    OneItem {
        delta: u16,
        item: TypeItem,
    },
    /// Without so many of the last values in local variables, and an empty stack.
    Chop {
        delta: u16,
        count: u8,
    },
    /// With more values in local variables, and an empty stack.
    Append {
        delta: u16,
        added: List<TypeItem>,
    },
    /// All values in local variables and on the stack.
    Full {
        delta: u16,
        locals: List<TypeItem>,
        stack: List<TypeItem>,
    },
}
