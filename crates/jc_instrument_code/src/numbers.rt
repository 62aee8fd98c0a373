//! The numbers at the head of an attribute and of the code.
ghost use Rattle.std.specs.Prelude.{◌≡◌, ◌++◌, OnOk};
ghost use Rattle.jc_bytes.specs.BigNumbers.{short, word};

use jc_bytes::{Memory, put_short, put_word};

/// Puts the place of an attribute's name and its length at the end (JVM Specification 4.7).
pub fn put_header(into: &mut Vec<u8>, name: u16, length: u32) -> Result<(), Memory>
    ensures { OnOk result (into.new.items ≡ into.old.items ++ (short name ++ word length)) }
{
    put_short(into, name)?;
    put_word(into, length)?;
    Ok(())
}

/// Puts the numbers at the head of a Code attribute at the end: the size of the operand stack, the
/// number of local variables and the length of the code (JVM Specification 4.7.3).
pub fn put_sizes(
    into: &mut Vec<u8>,
    max_stack: u16,
    max_locals: u16,
    length: u32,
) -> Result<(), Memory>
    ensures { OnOk result (into.new.items ≡ into.old.items ++ (short max_stack ++ (short max_locals ++ word length))) }
{
    put_short(into, max_stack)?;
    put_short(into, max_locals)?;
    put_word(into, length)?;
    Ok(())
}
