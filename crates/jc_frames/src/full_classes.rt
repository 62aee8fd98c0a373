//! The classes that full frames name, in a constant pool (JVM Specification 4.4.1, 4.7.4).
ghost use Rattle.std.specs.Prelude.{◌≡◌, ◌≤◌, All, IfErr, IfOk, OnErr, OnOk, length, map};
ghost use Rattle.jc_methods.specs.VerificationTypes.{AreNumberedFrames, IsNumbered, IsNumberedState, class_name, class_names, verification_type, type_state_at};
ghost use Rattle.jc_pool.specs.Adding.{Extends, HasClass, RefusesFull};
ghost use Rattle.jc_frames.specs.FullTable.{AreTaken, RefusesClasses, TakesClasses, named_by, named_by_all};

use crate::running::kinds_in_locals;
use jc_bytes::{Fail, Names};
use jc_methods::{FrameAt, Kind};
use jc_pool::{Pool, PoolFull};
use std::alloc::Global;
use std::collections::HashSet;

/// The most bytes that the text of a Utf8 entry has (JVM Specification 4.4.7).
const LONGEST_TEXT: usize = 65_535;

/// The first place of a class in the pool, which is put behind the others where it is new.
///
/// # Errors
///
/// `Memory` where memory was refused, or where the name has more than 65,535 bytes, which no entry can hold.
/// `PoolFull` as `Pool::add_class` says it. Then nothing has changed.
fn place_of_class(alloc: Global, name: &[u8], pool: &mut Pool) -> Result<u16, Fail<PoolFull>>
    ensures ok { IfOk result (HasClass pool.old name.now pool.new) }
    ensures fits { OnOk result (length pool.new ≤ 65535) }
    ensures full { RefusesFull (HasClass pool.old name.now) result }
    ensures err { OnErr result (pool.new ≡ pool.old) }
    ensures extends { Extends pool.old pool.new }
{
    if name.len() > LONGEST_TEXT {
        return Err(Fail::Memory);
    }
    pool.add_class(alloc, name)
}

/// Puts the class of an object into the pool, once for each number of a class.
fn take_class_of(
    alloc: Global,
    kind: Kind,
    names: &Names,
    met: &mut HashSet<u32>,
    pool: &mut Pool,
) -> Result<(), Fail<PoolFull>>
    requires number { IsNumbered (length names.now) kind }
    requires taken { AreTaken pool.old names.now met.old }
    ensures classes { OnOk result (TakesClasses pool.old (class_name (verification_type names.now kind)) pool.new) }
    ensures refused { IfErr result (RefusesClasses pool.old (class_name (verification_type names.now kind)) pool.new) }
    ensures taken { OnOk result (AreTaken pool.new names.now met.new) }
    ensures extends { Extends pool.old pool.new }
{
    let Kind::Object(number) = kind else {
        return Ok(());
    };
    if met.contains(&number) {
        return Ok(());
    }
    place_of_class(alloc, names.text(number), pool)?;
    met.insert(number)?;
    Ok(())
}

/// Puts the classes of objects into the pool, one after the other.
fn take_classes_of(
    alloc: Global,
    kinds: &[Kind],
    names: &Names,
    met: &mut HashSet<u32>,
    pool: &mut Pool,
) -> Result<(), Fail<PoolFull>>
    requires numbers { All (IsNumbered (length names.now)) kinds.now }
    requires taken { AreTaken pool.old names.now met.old }
    ensures classes { OnOk result (TakesClasses pool.old (class_names (map (verification_type names.now) kinds.now)) pool.new) }
    ensures refused { IfErr result (RefusesClasses pool.old (class_names (map (verification_type names.now) kinds.now)) pool.new) }
    ensures taken { OnOk result (AreTaken pool.new names.now met.new) }
    ensures extends { Extends pool.old pool.new }
{
    'taking: for kind in kinds {
        take_class_of(alloc, *kind, names, met, pool)?;
    }
    Ok(())
}

/// Puts the classes that a frame names into the pool: those of its local variables, and then those of its stack.
fn take_classes_in(
    alloc: Global,
    frame: &FrameAt,
    names: &Names,
    met: &mut HashSet<u32>,
    pool: &mut Pool,
) -> Result<(), Fail<PoolFull>>
    requires numbers { IsNumberedState (length names.now) frame.now.state }
    requires taken { AreTaken pool.old names.now met.old }
    ensures classes { OnOk result (TakesClasses pool.old (named_by (type_state_at names.now frame.now)) pool.new) }
    ensures refused { IfErr result (RefusesClasses pool.old (named_by (type_state_at names.now frame.now)) pool.new) }
    ensures taken { OnOk result (AreTaken pool.new names.now met.new) }
    ensures extends { Extends pool.old pool.new }
{
    let locals = kinds_in_locals(alloc, &frame.state.locals)?;
    take_classes_of(alloc, &locals, names, met, pool)?;
    take_classes_of(alloc, &frame.state.stack, names, met, pool)
}

/// Puts the classes that frames name into the pool, in the order in which they are first named.
///
/// # Errors
///
/// `PoolFull` where the pool can't take one of them, and `Memory` where memory was refused, or where a name has more
/// than 65,535 bytes. Then the pool may have more entries.
pub fn take_classes(
    alloc: Global,
    frames: &[FrameAt],
    names: &Names,
    pool: &mut Pool,
) -> Result<(), Fail<PoolFull>>
    requires { AreNumberedFrames (length names.now) frames.now }
    ensures classes { OnOk result (TakesClasses pool.old (named_by_all (map (type_state_at names.now) frames.now)) pool.new) }
    ensures refused { IfErr result (RefusesClasses pool.old (named_by_all (map (type_state_at names.now) frames.now)) pool.new) }
    ensures extends { Extends pool.old pool.new }
{
    let mut met = HashSet::new(alloc);
    'taking: for frame in frames {
        take_classes_in(alloc, frame, names, &mut met, pool)?;
    }
    Ok(())
}
