//! The stack map table of a method (JVM Specification 4.7.4).
ghost use Rattle.std.specs.Prelude.{◌≡◌, ◌≤◌, ◌∷◌, [], length, IfOk, IfErr, All};
ghost use Rattle.jc_methods.specs.VerificationTypes.{Grows};
ghost use Rattle.jc_bytes.specs.Least.{IsNowhere};
ghost use Rattle.jc_bytes.specs.Reader.{most_read};
ghost use Rattle.jc_class.specs.ClassFormat.{HasText, HasMethodDescriptor};
ghost use Rattle.jc_body.specs.Coded.{IsCoded};
ghost use Rattle.jc_body.specs.Faults.{ArgumentsOutside};
ghost use Rattle.jc_body.specs.StackMap.{stack_maps, IsEntry};
ghost use Rattle.jc_body.specs.Answers.{AreFramesOf, IsFrameRefusal};
ghost use Rattle.jc_bytes.specs.Failing.{Said};

use crate::attributes::bodies_of;
use crate::code::bad_code;
use crate::coded::Coded;
use crate::faults::is_too_wide;
use crate::method::Method;
use crate::texts::text_at;
use jc_bytes::{Fail, List, Memory, Names, Refusal};
use jc_frames::{frame_fault, read_frames};
use jc_methods::{FrameAt, State, entry_state};
use std::alloc::Global;

/// The state in which a method begins whose arguments have their local variables.
fn entry_of(
    alloc: Global,
    method: &Method<'_>,
    coded: &Coded,
    names: &mut Names,
) -> Result<State, Memory>
    requires name { HasText method.now.class.now.pool method.now.member.now.name }
    requires desc { HasMethodDescriptor method.now.class.now.pool method.now.member.now.desc }
    requires arguments { IsNowhere (ArgumentsOutside method.now.class.now.pool method.now.member.now coded.now) }
    ensures entry { IfOk result (IsEntry names.new method.now.class.now.pool method.now.owner.now method.now.member.now coded.now) }
    ensures grows { Grows names.old names.new }
{
    let pool = &method.class.pool;
    let member = method.member;
    let name = text_at(pool, member.name);
    let desc = text_at(pool, member.desc);
    let max_locals = coded.max_locals();
    match entry_state(
        alloc,
        method.owner,
        name,
        desc,
        member.flags,
        max_locals,
        names,
    ) {
        Ok(entry) => Ok(entry),
        // The arguments fit.
        Err(_) => Err(Memory),
    }
}

/// The frames of the one stack map table of a method.
fn frames_of_table(
    alloc: Global,
    method: &Method<'_>,
    coded: &Coded,
    table: &[u8],
    names: &mut Names,
) -> Result<List<FrameAt>, Fail<Refusal>>
    requires name { HasText method.now.class.now.pool method.now.member.now.name }
    requires desc { HasMethodDescriptor method.now.class.now.pool method.now.member.now.desc }
    requires arguments { IsNowhere (ArgumentsOutside method.now.class.now.pool method.now.member.now coded.now) }
    requires coded { IsCoded method.now.class.now.pool method.now.member.now coded.now }
    requires table { stack_maps method.now.class.now.pool coded.now ≡ table.now ∷ [] }
    requires short { length table.now ≤ most_read }
    ensures frames { IfOk result (AreFramesOf names.new method.now.class.now.pool method.now.owner.now method.now.member.now coded.now) }
    ensures refused { IfErr result (λ e. Said e
        (IsFrameRefusal method.now.class.now.pool method.now.owner.now method.now.member.now coded.now method.now.number)) }
    ensures grows { Grows names.old names.new }
{
    let entry = entry_of(alloc, method, coded, names)?;
    let pool = &method.class.pool;
    let max_stack = coded.items.max_stack;
    let Coded { insns, starts, .. } = coded;
    if let Some(place) = frame_fault(alloc, table, &entry, max_stack, insns, starts, pool)? {
        return Err(Fail::Said(bad_code(method.number, place)));
    }
    if is_too_wide(coded) {
        return Err(Fail::Said(bad_code(method.number, 0)));
    }
    match read_frames(alloc, table, &entry, max_stack, insns, starts, pool, names) {
        Ok(frames) => Ok(List::from_vec(frames)),
        // The table has no fault.
        Err(_) => Err(Fail::Memory),
    }
}

/// The frames of a method's code, whose arguments have their local variables. The stack map table is judged first,
/// then the size of the body, and only then are the frames' states made.
pub fn frames_of(
    alloc: Global,
    method: &Method<'_>,
    coded: &Coded,
    names: &mut Names,
) -> Result<List<FrameAt>, Fail<Refusal>>
    requires name { HasText method.now.class.now.pool method.now.member.now.name }
    requires desc { HasMethodDescriptor method.now.class.now.pool method.now.member.now.desc }
    requires arguments { IsNowhere (ArgumentsOutside method.now.class.now.pool method.now.member.now coded.now) }
    requires coded { IsCoded method.now.class.now.pool method.now.member.now coded.now }
    requires sizes { All (λ a. length a.body ≤ most_read) coded.now.items.attributes }
    ensures frames { IfOk result (AreFramesOf names.new method.now.class.now.pool method.now.owner.now method.now.member.now coded.now) }
    ensures refused { IfErr result (λ e. Said e
        (IsFrameRefusal method.now.class.now.pool method.now.owner.now method.now.member.now coded.now method.now.number)) }
    ensures grows { Grows names.old names.new }
{
    let pool = &method.class.pool;
    let tables = bodies_of(alloc, pool, b"StackMapTable", &coded.items.attributes)?;
    match tables.as_slice() {
        [] if is_too_wide(coded) => Err(Fail::Said(bad_code(method.number, 0))),
        [] => Ok(List::new(alloc)),
        [table] => frames_of_table(alloc, method, coded, table, names),
        _ => Err(Fail::Said(bad_code(method.number, 0))),
    }
}
