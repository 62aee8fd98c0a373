//! The opcodes that do nothing but take operands from the stack and leave results.
ghost use Rattle.std.specs.Prelude.{◌≡◌};
ghost use Rattle.std.specs.List.{flat_map};
ghost use Rattle.jc_kinds_after.specs.Shapes.{forms_of};
ghost use Rattle.jc_kinds_after.specs.Table.{forms_at};

/// What an instruction takes from the stack and leaves there. A pair is a value of two slots.
#[derive(Clone, Copy, Debug, PartialEq, Eq)]
pub enum Shape {
    /// No further form.
    No,
    /// Takes nothing and leaves nothing.
    Nothing,
    /// Pushes null.
    PushNull,
    /// Pushes an int.
    PushInt,
    /// Pushes a long.
    PushLong,
    /// Pushes a float.
    PushFloat,
    /// Pushes a double.
    PushDouble,
    /// An array and an index become an int.
    ElementInt,
    /// An array and an index become a long.
    ElementLong,
    /// An array and an index become a float.
    ElementFloat,
    /// An array and an index become a double.
    ElementDouble,
    /// Takes an array, an index and an int.
    PutInt,
    /// Takes an array, an index and a long.
    PutLong,
    /// Takes an array, an index and a float.
    PutFloat,
    /// Takes an array, an index and a double.
    PutDouble,
    /// Takes an array, an index and a reference.
    PutReference,
    /// Takes a value of one slot.
    Pop,
    /// Takes two values of one slot.
    PopTwo,
    /// Takes a value of two slots.
    PopPair,
    /// A value twice.
    Dup,
    /// A value also under one.
    DupUnderOne,
    /// A value also under two.
    DupUnderTwo,
    /// A value also under a pair.
    DupUnderPair,
    /// Two values twice.
    DupTwo,
    /// A pair twice.
    DupPair,
    /// Two values also under one.
    DupTwoUnderOne,
    /// A pair also under a value.
    DupPairUnderOne,
    /// Two values also under two.
    DupTwoUnderTwo,
    /// A pair also under two values.
    DupPairUnderTwo,
    /// Two values also under a pair.
    DupTwoUnderPair,
    /// A pair also under a pair.
    DupPairUnderPair,
    /// Two values change places.
    Swap,
    /// Two ints become one.
    TwoInts,
    /// Two longs become one.
    TwoLongs,
    /// Two floats become one.
    TwoFloats,
    /// Two doubles become one.
    TwoDoubles,
    /// An int becomes another one.
    OneInt,
    /// A long becomes another one.
    OneLong,
    /// A float becomes another one.
    OneFloat,
    /// A double becomes another one.
    OneDouble,
    /// A long and an int become a long.
    LongByInt,
    /// An int becomes a long.
    IntToLong,
    /// An int becomes a float.
    IntToFloat,
    /// An int becomes a double.
    IntToDouble,
    /// A long becomes an int.
    LongToInt,
    /// A long becomes a float.
    LongToFloat,
    /// A long becomes a double.
    LongToDouble,
    /// A float becomes an int.
    FloatToInt,
    /// A float becomes a long.
    FloatToLong,
    /// A float becomes a double.
    FloatToDouble,
    /// A double becomes an int.
    DoubleToInt,
    /// A double becomes a long.
    DoubleToLong,
    /// A double becomes a float.
    DoubleToFloat,
    /// Two longs become an int.
    CompareLongs,
    /// Two floats become an int.
    CompareFloats,
    /// Two doubles become an int.
    CompareDoubles,
    /// Takes an int.
    TakeInt,
    /// Takes a long.
    TakeLong,
    /// Takes a float.
    TakeFloat,
    /// Takes a double.
    TakeDouble,
    /// Takes a reference.
    TakeReference,
    /// Takes two ints.
    TakeTwoInts,
    /// Takes two objects, also before their constructors were called.
    TakeTwoObjects,
    /// Takes an object, also before its constructor was called.
    TakeObject,
    /// An array becomes an int.
    Length,
}

/// The forms of each opcode, from `nop` on. The first form whose operands are there is taken.
static SHAPES: [[Shape; 4]; 202] = [
    [Shape::Nothing, Shape::No, Shape::No, Shape::No],
    [Shape::PushNull, Shape::No, Shape::No, Shape::No],
    [Shape::PushInt, Shape::No, Shape::No, Shape::No],
    [Shape::PushInt, Shape::No, Shape::No, Shape::No],
    [Shape::PushInt, Shape::No, Shape::No, Shape::No],
    [Shape::PushInt, Shape::No, Shape::No, Shape::No],
    [Shape::PushInt, Shape::No, Shape::No, Shape::No],
    [Shape::PushInt, Shape::No, Shape::No, Shape::No],
    [Shape::PushInt, Shape::No, Shape::No, Shape::No],
    [Shape::PushLong, Shape::No, Shape::No, Shape::No],
    [Shape::PushLong, Shape::No, Shape::No, Shape::No],
    [Shape::PushFloat, Shape::No, Shape::No, Shape::No],
    [Shape::PushFloat, Shape::No, Shape::No, Shape::No],
    [Shape::PushFloat, Shape::No, Shape::No, Shape::No],
    [Shape::PushDouble, Shape::No, Shape::No, Shape::No],
    [Shape::PushDouble, Shape::No, Shape::No, Shape::No],
    [Shape::PushInt, Shape::No, Shape::No, Shape::No],
    [Shape::PushInt, Shape::No, Shape::No, Shape::No],
    [Shape::No, Shape::No, Shape::No, Shape::No],
    [Shape::No, Shape::No, Shape::No, Shape::No],
    [Shape::No, Shape::No, Shape::No, Shape::No],
    [Shape::No, Shape::No, Shape::No, Shape::No],
    [Shape::No, Shape::No, Shape::No, Shape::No],
    [Shape::No, Shape::No, Shape::No, Shape::No],
    [Shape::No, Shape::No, Shape::No, Shape::No],
    [Shape::No, Shape::No, Shape::No, Shape::No],
    [Shape::No, Shape::No, Shape::No, Shape::No],
    [Shape::No, Shape::No, Shape::No, Shape::No],
    [Shape::No, Shape::No, Shape::No, Shape::No],
    [Shape::No, Shape::No, Shape::No, Shape::No],
    [Shape::No, Shape::No, Shape::No, Shape::No],
    [Shape::No, Shape::No, Shape::No, Shape::No],
    [Shape::No, Shape::No, Shape::No, Shape::No],
    [Shape::No, Shape::No, Shape::No, Shape::No],
    [Shape::No, Shape::No, Shape::No, Shape::No],
    [Shape::No, Shape::No, Shape::No, Shape::No],
    [Shape::No, Shape::No, Shape::No, Shape::No],
    [Shape::No, Shape::No, Shape::No, Shape::No],
    [Shape::No, Shape::No, Shape::No, Shape::No],
    [Shape::No, Shape::No, Shape::No, Shape::No],
    [Shape::No, Shape::No, Shape::No, Shape::No],
    [Shape::No, Shape::No, Shape::No, Shape::No],
    [Shape::No, Shape::No, Shape::No, Shape::No],
    [Shape::No, Shape::No, Shape::No, Shape::No],
    [Shape::No, Shape::No, Shape::No, Shape::No],
    [Shape::No, Shape::No, Shape::No, Shape::No],
    [Shape::ElementInt, Shape::No, Shape::No, Shape::No],
    [Shape::ElementLong, Shape::No, Shape::No, Shape::No],
    [Shape::ElementFloat, Shape::No, Shape::No, Shape::No],
    [Shape::ElementDouble, Shape::No, Shape::No, Shape::No],
    [Shape::No, Shape::No, Shape::No, Shape::No],
    [Shape::ElementInt, Shape::No, Shape::No, Shape::No],
    [Shape::ElementInt, Shape::No, Shape::No, Shape::No],
    [Shape::ElementInt, Shape::No, Shape::No, Shape::No],
    [Shape::No, Shape::No, Shape::No, Shape::No],
    [Shape::No, Shape::No, Shape::No, Shape::No],
    [Shape::No, Shape::No, Shape::No, Shape::No],
    [Shape::No, Shape::No, Shape::No, Shape::No],
    [Shape::No, Shape::No, Shape::No, Shape::No],
    [Shape::No, Shape::No, Shape::No, Shape::No],
    [Shape::No, Shape::No, Shape::No, Shape::No],
    [Shape::No, Shape::No, Shape::No, Shape::No],
    [Shape::No, Shape::No, Shape::No, Shape::No],
    [Shape::No, Shape::No, Shape::No, Shape::No],
    [Shape::No, Shape::No, Shape::No, Shape::No],
    [Shape::No, Shape::No, Shape::No, Shape::No],
    [Shape::No, Shape::No, Shape::No, Shape::No],
    [Shape::No, Shape::No, Shape::No, Shape::No],
    [Shape::No, Shape::No, Shape::No, Shape::No],
    [Shape::No, Shape::No, Shape::No, Shape::No],
    [Shape::No, Shape::No, Shape::No, Shape::No],
    [Shape::No, Shape::No, Shape::No, Shape::No],
    [Shape::No, Shape::No, Shape::No, Shape::No],
    [Shape::No, Shape::No, Shape::No, Shape::No],
    [Shape::No, Shape::No, Shape::No, Shape::No],
    [Shape::No, Shape::No, Shape::No, Shape::No],
    [Shape::No, Shape::No, Shape::No, Shape::No],
    [Shape::No, Shape::No, Shape::No, Shape::No],
    [Shape::No, Shape::No, Shape::No, Shape::No],
    [Shape::PutInt, Shape::No, Shape::No, Shape::No],
    [Shape::PutLong, Shape::No, Shape::No, Shape::No],
    [Shape::PutFloat, Shape::No, Shape::No, Shape::No],
    [Shape::PutDouble, Shape::No, Shape::No, Shape::No],
    [Shape::PutReference, Shape::No, Shape::No, Shape::No],
    [Shape::PutInt, Shape::No, Shape::No, Shape::No],
    [Shape::PutInt, Shape::No, Shape::No, Shape::No],
    [Shape::PutInt, Shape::No, Shape::No, Shape::No],
    [Shape::Pop, Shape::No, Shape::No, Shape::No],
    [Shape::PopTwo, Shape::PopPair, Shape::No, Shape::No],
    [Shape::Dup, Shape::No, Shape::No, Shape::No],
    [Shape::DupUnderOne, Shape::No, Shape::No, Shape::No],
    [
        Shape::DupUnderTwo,
        Shape::DupUnderPair,
        Shape::No,
        Shape::No,
    ],
    [Shape::DupTwo, Shape::DupPair, Shape::No, Shape::No],
    [
        Shape::DupTwoUnderOne,
        Shape::DupPairUnderOne,
        Shape::No,
        Shape::No,
    ],
    [
        Shape::DupTwoUnderTwo,
        Shape::DupPairUnderTwo,
        Shape::DupTwoUnderPair,
        Shape::DupPairUnderPair,
    ],
    [Shape::Swap, Shape::No, Shape::No, Shape::No],
    [Shape::TwoInts, Shape::No, Shape::No, Shape::No],
    [Shape::TwoLongs, Shape::No, Shape::No, Shape::No],
    [Shape::TwoFloats, Shape::No, Shape::No, Shape::No],
    [Shape::TwoDoubles, Shape::No, Shape::No, Shape::No],
    [Shape::TwoInts, Shape::No, Shape::No, Shape::No],
    [Shape::TwoLongs, Shape::No, Shape::No, Shape::No],
    [Shape::TwoFloats, Shape::No, Shape::No, Shape::No],
    [Shape::TwoDoubles, Shape::No, Shape::No, Shape::No],
    [Shape::TwoInts, Shape::No, Shape::No, Shape::No],
    [Shape::TwoLongs, Shape::No, Shape::No, Shape::No],
    [Shape::TwoFloats, Shape::No, Shape::No, Shape::No],
    [Shape::TwoDoubles, Shape::No, Shape::No, Shape::No],
    [Shape::TwoInts, Shape::No, Shape::No, Shape::No],
    [Shape::TwoLongs, Shape::No, Shape::No, Shape::No],
    [Shape::TwoFloats, Shape::No, Shape::No, Shape::No],
    [Shape::TwoDoubles, Shape::No, Shape::No, Shape::No],
    [Shape::TwoInts, Shape::No, Shape::No, Shape::No],
    [Shape::TwoLongs, Shape::No, Shape::No, Shape::No],
    [Shape::TwoFloats, Shape::No, Shape::No, Shape::No],
    [Shape::TwoDoubles, Shape::No, Shape::No, Shape::No],
    [Shape::OneInt, Shape::No, Shape::No, Shape::No],
    [Shape::OneLong, Shape::No, Shape::No, Shape::No],
    [Shape::OneFloat, Shape::No, Shape::No, Shape::No],
    [Shape::OneDouble, Shape::No, Shape::No, Shape::No],
    [Shape::TwoInts, Shape::No, Shape::No, Shape::No],
    [Shape::LongByInt, Shape::No, Shape::No, Shape::No],
    [Shape::TwoInts, Shape::No, Shape::No, Shape::No],
    [Shape::LongByInt, Shape::No, Shape::No, Shape::No],
    [Shape::TwoInts, Shape::No, Shape::No, Shape::No],
    [Shape::LongByInt, Shape::No, Shape::No, Shape::No],
    [Shape::TwoInts, Shape::No, Shape::No, Shape::No],
    [Shape::TwoLongs, Shape::No, Shape::No, Shape::No],
    [Shape::TwoInts, Shape::No, Shape::No, Shape::No],
    [Shape::TwoLongs, Shape::No, Shape::No, Shape::No],
    [Shape::TwoInts, Shape::No, Shape::No, Shape::No],
    [Shape::TwoLongs, Shape::No, Shape::No, Shape::No],
    [Shape::No, Shape::No, Shape::No, Shape::No],
    [Shape::IntToLong, Shape::No, Shape::No, Shape::No],
    [Shape::IntToFloat, Shape::No, Shape::No, Shape::No],
    [Shape::IntToDouble, Shape::No, Shape::No, Shape::No],
    [Shape::LongToInt, Shape::No, Shape::No, Shape::No],
    [Shape::LongToFloat, Shape::No, Shape::No, Shape::No],
    [Shape::LongToDouble, Shape::No, Shape::No, Shape::No],
    [Shape::FloatToInt, Shape::No, Shape::No, Shape::No],
    [Shape::FloatToLong, Shape::No, Shape::No, Shape::No],
    [Shape::FloatToDouble, Shape::No, Shape::No, Shape::No],
    [Shape::DoubleToInt, Shape::No, Shape::No, Shape::No],
    [Shape::DoubleToLong, Shape::No, Shape::No, Shape::No],
    [Shape::DoubleToFloat, Shape::No, Shape::No, Shape::No],
    [Shape::OneInt, Shape::No, Shape::No, Shape::No],
    [Shape::OneInt, Shape::No, Shape::No, Shape::No],
    [Shape::OneInt, Shape::No, Shape::No, Shape::No],
    [Shape::CompareLongs, Shape::No, Shape::No, Shape::No],
    [Shape::CompareFloats, Shape::No, Shape::No, Shape::No],
    [Shape::CompareFloats, Shape::No, Shape::No, Shape::No],
    [Shape::CompareDoubles, Shape::No, Shape::No, Shape::No],
    [Shape::CompareDoubles, Shape::No, Shape::No, Shape::No],
    [Shape::TakeInt, Shape::No, Shape::No, Shape::No],
    [Shape::TakeInt, Shape::No, Shape::No, Shape::No],
    [Shape::TakeInt, Shape::No, Shape::No, Shape::No],
    [Shape::TakeInt, Shape::No, Shape::No, Shape::No],
    [Shape::TakeInt, Shape::No, Shape::No, Shape::No],
    [Shape::TakeInt, Shape::No, Shape::No, Shape::No],
    [Shape::TakeTwoInts, Shape::No, Shape::No, Shape::No],
    [Shape::TakeTwoInts, Shape::No, Shape::No, Shape::No],
    [Shape::TakeTwoInts, Shape::No, Shape::No, Shape::No],
    [Shape::TakeTwoInts, Shape::No, Shape::No, Shape::No],
    [Shape::TakeTwoInts, Shape::No, Shape::No, Shape::No],
    [Shape::TakeTwoInts, Shape::No, Shape::No, Shape::No],
    [Shape::TakeTwoObjects, Shape::No, Shape::No, Shape::No],
    [Shape::TakeTwoObjects, Shape::No, Shape::No, Shape::No],
    [Shape::Nothing, Shape::No, Shape::No, Shape::No],
    [Shape::No, Shape::No, Shape::No, Shape::No],
    [Shape::No, Shape::No, Shape::No, Shape::No],
    [Shape::TakeInt, Shape::No, Shape::No, Shape::No],
    [Shape::TakeInt, Shape::No, Shape::No, Shape::No],
    [Shape::TakeInt, Shape::No, Shape::No, Shape::No],
    [Shape::TakeLong, Shape::No, Shape::No, Shape::No],
    [Shape::TakeFloat, Shape::No, Shape::No, Shape::No],
    [Shape::TakeDouble, Shape::No, Shape::No, Shape::No],
    [Shape::TakeReference, Shape::No, Shape::No, Shape::No],
    [Shape::Nothing, Shape::No, Shape::No, Shape::No],
    [Shape::No, Shape::No, Shape::No, Shape::No],
    [Shape::No, Shape::No, Shape::No, Shape::No],
    [Shape::No, Shape::No, Shape::No, Shape::No],
    [Shape::No, Shape::No, Shape::No, Shape::No],
    [Shape::No, Shape::No, Shape::No, Shape::No],
    [Shape::No, Shape::No, Shape::No, Shape::No],
    [Shape::No, Shape::No, Shape::No, Shape::No],
    [Shape::No, Shape::No, Shape::No, Shape::No],
    [Shape::No, Shape::No, Shape::No, Shape::No],
    [Shape::No, Shape::No, Shape::No, Shape::No],
    [Shape::No, Shape::No, Shape::No, Shape::No],
    [Shape::No, Shape::No, Shape::No, Shape::No],
    [Shape::Length, Shape::No, Shape::No, Shape::No],
    [Shape::TakeReference, Shape::No, Shape::No, Shape::No],
    [Shape::No, Shape::No, Shape::No, Shape::No],
    [Shape::No, Shape::No, Shape::No, Shape::No],
    [Shape::TakeObject, Shape::No, Shape::No, Shape::No],
    [Shape::TakeObject, Shape::No, Shape::No, Shape::No],
    [Shape::No, Shape::No, Shape::No, Shape::No],
    [Shape::No, Shape::No, Shape::No, Shape::No],
    [Shape::TakeObject, Shape::No, Shape::No, Shape::No],
    [Shape::TakeObject, Shape::No, Shape::No, Shape::No],
    [Shape::No, Shape::No, Shape::No, Shape::No],
    [Shape::No, Shape::No, Shape::No, Shape::No],
];

/// The forms of an opcode.
pub fn shapes(op: u8) -> &'static [Shape]
    ensures { flat_map forms_of result.now ≡ forms_at op }
{
    let index = op as usize;
    if index < SHAPES.len() {
        &SHAPES[index]
    } else {
        &[]
    }
}
