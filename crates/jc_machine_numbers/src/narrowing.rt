//! Ints as values of smaller types.
ghost use Rattle.std.specs.Prelude.{◌≡◌};
ghost use Rattle.jc_bytes.specs.Descriptor.{FieldType};
ghost use Rattle.jc_programs.specs.Narrowing.{narrowed};
ghost use Rattle.jc_machine_numbers.specs.Narrowings.{narrowing_of};

/// How an int is narrowed where values of a type are kept.
#[derive(Clone, Copy, Debug, PartialEq, Eq)]
pub enum Narrowing {
    /// It is masked with 1.
    ToBoolean,
    /// It is cut to a signed byte.
    ToByte,
    /// It is cut to a character.
    ToChar,
    /// It is cut to a signed short.
    ToShort,
    /// It stays as it is.
    Unchanged,
}

/// An int cut to a byte.
pub fn to_byte(x: i32) -> i32
    ensures { result ≡ narrowed FieldType.Byte x }
{
    i32::from(((x.cast_unsigned() & 0xff) as u8).cast_signed())
}

/// An int cut to a char.
pub fn to_char(x: i32) -> i32
    ensures { result ≡ narrowed FieldType.Char x }
{
    (x.cast_unsigned() & 0xffff) as i32
}

/// An int cut to a short.
pub fn to_short(x: i32) -> i32
    ensures { result ≡ narrowed FieldType.Short x }
{
    i32::from(((x.cast_unsigned() & 0xffff) as u16).cast_signed())
}

/// An int masked with 1.
fn to_boolean(x: i32) -> i32
    ensures { result ≡ narrowed FieldType.Boolean x }
{
    (x.cast_unsigned() & 1) as i32
}

impl Narrowing {
    /// An int as it is stored where values of the type are kept (JVM Specification 6.5, putstatic, bastore,
    /// castore, sastore, ireturn).
    pub fn narrowed(self, x: i32) -> i32
        ensures { (type : FieldType) → narrowing_of type ≡ self → result ≡ narrowed type x }
    {
        match self {
            Narrowing::ToBoolean => to_boolean(x),
            Narrowing::ToByte => to_byte(x),
            Narrowing::ToChar => to_char(x),
            Narrowing::ToShort => to_short(x),
            Narrowing::Unchanged => x,
        }
    }
}
