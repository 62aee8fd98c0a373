//! Reading a class file.
ghost use Rattle.std.specs.Prelude.{◌≡◌, ◌≤◌, ℕ, length, IfOk, IfErr, MatchResult};
ghost use Rattle.jc_bytes.specs.Reader.{most_read};
ghost use Rattle.jc_bytes.specs.Decoder.{SameEnd};
ghost use Rattle.jc_bytes.specs.Parsing.{Parses};
ghost use Rattle.jc_class.specs.ClassReading.{class_at, GivesWhole};
ghost use Rattle.jc_class.specs.ClassText.{ClassText, FirstBad, RefusedAs};
ghost use Rattle.jc_class.specs.Writable.{IsClassFile};
ghost use Rattle.jc_class.specs.Sizes.{AttributesWithin};
ghost use Rattle.jc_class.specs.declared.class_file.ClassFile.{ClassFile};

use crate::ClassFile;
use crate::item::{Named, magic_item, place_item};
use crate::parts::{read_attributes, read_fields, read_interfaces, read_methods};
use jc_bytes::{Fail, Reader, Refusal, not_a_class, u16_item};
use jc_pool::Pool;
use std::alloc::Global;

/// A class file (JVM Specification 4.1), from its first item to its last.
#[tactic(auto, unfolding(crate::specs::ClassReading::class_at))]
fn parsed(alloc: Global, reader: &mut Reader<'_>) -> Result<ClassFile, Fail<Refusal>>
    ensures gives { Parses (λ x. x) result reader.old reader.new (class_at reader.old.left) }
    ensures end { SameEnd reader.old reader.new }
{
    magic_item(reader)?;
    let minor = u16_item(reader)?;
    let major = u16_item(reader)?;
    let pool = Pool::read(alloc, reader)?;
    let flags = u16_item(reader)?;
    let this_class = place_item(reader, &pool, Named::Class)?;
    let super_class = place_item(reader, &pool, Named::ClassOrNone)?;
    let interfaces = read_interfaces(alloc, reader, &pool)?;
    let fields = read_fields(alloc, reader, &pool)?;
    let methods = read_methods(alloc, reader, &pool)?;
    let attributes = read_attributes(alloc, reader, &pool)?;
    Ok(ClassFile {
        minor,
        major,
        pool,
        flags,
        this_class,
        super_class,
        interfaces,
        fields,
        methods,
        attributes,
    })
}

/// A class file and nothing behind it.
fn whole(alloc: Global, bytes: &[u8]) -> Result<ClassFile, Fail<Refusal>>
    requires { length bytes.now ≤ most_read }
    ensures { GivesWhole result bytes.now (class_at bytes.now) }
{
    let mut reader = Reader::new(bytes);
    let class = parsed(alloc, &mut reader)?;
    let end = reader.place();
    if (end as usize) < bytes.len() {
        return Err(Fail::Said(not_a_class(end)));
    }
    Ok(class)
}

/// Reads a class file (JVM Specification 4.1, 4.4 to 4.7). All bytes have to be its items, in their
/// order. Versions and access flags are taken as they come, and of the bodies of attributes only
/// the places of constants of static fields are looked at.
///
/// Each number is an item of its own, and so are each entry of the pool, from its tag on, and the
/// body of each attribute.
///
/// # Errors
///
/// `Memory` where memory was refused. `NotAClass`, with the offset of the first item that fails,
/// exactly where the bytes are no class file: too few bytes, a first number other than cafebabe,
/// an item of the pool that fails, `this_class` or an interface that is no Class entry or one whose
/// name is no modified UTF-8, `super_class` neither 0 nor such an entry, the name of a field, a
/// method or an attribute that is no Utf8 entry, a field or a method whose descriptor is no Utf8
/// entry or not well formed (JVM Specification 4.3.2, 4.3.3), an attribute `ConstantValue` of a
/// static field of two bytes that are a place at or above the count of the pool (JVM Specification
/// 4.7.2), at these bytes, or bytes that are left at the end.
pub fn read_class(alloc: Global, bytes: &[u8]) -> Result<ClassFile, Fail<Refusal>>
    requires { length bytes.now ≤ most_read }
    // What is read is the class file that the bytes spell, and other bytes are refused where they first fail.
    ensures read { IfOk result (ClassText bytes.now) }
    ensures refused { IfErr result (λ e. RefusedAs e (FirstBad bytes.now)) }
    // What is read can be written, and no attribute is longer than the bytes, which are at most 67,108,864.
    ensures whole { IfOk result IsClassFile }
    ensures within { IfOk result (AttributesWithin (length bytes.now)) }
    ensures sizes { IfOk result (AttributesWithin most_read) }
    // The text of a class file is read, and bytes that fail are refused, unless memory runs out.
    ensures taken { (c : ClassFile) → ClassText bytes.now c → MatchResult result (λ d. d ≡ c) (λ e. e ≡ Fail.Memory) }
    ensures failing { (offset : ℕ) → FirstBad bytes.now offset
        → MatchResult result (λ _. ⊥) (λ e. RefusedAs e (λ found. found ≡ offset)) }
{
    whole(alloc, bytes)
}
