//! Reading the body of a method.
ghost use Rattle.std.specs.Prelude.{◌≡◌, ◌⊎◌, ◌<◌, ◌≤◌, ◌++◌, ℕ, List as Seq, Some, None, length, map};
ghost use Rattle.std.specs.Prelude.{IfOk, IfErr, IfSome, MatchOption, MatchResult, All, IsTrue};
ghost use Rattle.jc_methods.specs.VerificationTypes.{Names as AllNames, Grows};
ghost use Rattle.jc_methods.specs.WellMade.{IsCounted, IsWellMade};
ghost use Rattle.jc_bytes.specs.Reader.{most_read};
ghost use Rattle.jc_pool.specs.Lookup.{class_name_of};
ghost use Rattle.jc_methods.specs.declared.body.Body.{Body as BodyValue};
ghost use Rattle.jc_bytes.specs.declared.refusal.Refusal.{Refusal as Reason};
ghost use Rattle.jc_class.specs.ClassFormat.{HasText, HasClass, HasMethodDescriptor};
ghost use Rattle.jc_class.specs.Writable.{IsClassFile};
ghost use Rattle.jc_bytes.specs.Least.{IsNowhere};
ghost use Rattle.jc_body.specs.First.{AreNowhere};
ghost use Rattle.jc_body.specs.Faults.{ArgumentsOutside, insn_faults, row_faults};
ghost use Rattle.jc_body.specs.Coded.{HasNoCode, IsCoded};
ghost use Rattle.jc_body.specs.Numbering.{Numbers};
ghost use Rattle.jc_body.specs.Answers.{IsRefusal};
ghost use Rattle.jc_bytes.specs.Failing.{Said};
ghost use Rattle.jc_body.specs.BodyOf.{TakesParts, IsNamed, IsBody, BodyOf, Bodiless, FaultOf};
ghost use Rattle.jc_body.specs.Sizes.{HasShortParts, HasSmallParts};

use crate::code::{bad_code, read_coded};
use crate::coded::Coded;
use crate::faults::{first_fault, slots_of_arguments};
use crate::items::Tables;
use crate::method::Method;
use crate::places::{Offsets, handlers_of, lines_of, numbers_of, offsets_of, vars_of};
use crate::stack_map::frames_of;
use crate::tables::read_tables;
use crate::texts::{class_name_at, text_at};
use crate::uses::read_uses;
use jc_bytes::{Bytes, Fail, List, Memory, Names, Refusal};
use jc_class::{ClassFile, Member};
use jc_methods::Body;
use std::alloc::Global;

/// The body that is made of what was read of a method, in which no fault was found, without its frames.
fn assembled(
    alloc: Global,
    method: &Method<'_>,
    coded: Coded,
    offsets: &Offsets<'_>,
    tables: &Tables,
) -> Result<Body, Memory>
    requires name { HasText method.now.class.now.pool method.now.member.now.name }
    requires desc { HasMethodDescriptor method.now.class.now.pool method.now.member.now.desc }
    requires arguments { IsNowhere (ArgumentsOutside method.now.class.now.pool method.now.member.now coded) }
    requires offsets { Numbers coded offsets.now }
    ensures parts { (names : AllNames)
        → IfOk result (TakesParts names method.now.class.now method.now.owner.now method.now.number method.now.member.now coded tables.now) }
    ensures texts { IfOk result HasShortParts }
{
    let pool = &method.class.pool;
    let member = method.member;
    let max_locals = coded.items.max_locals;
    let desc = text_at(pool, member.desc);
    Ok(Body {
        method: method.number,
        owner: Bytes::copy_of(alloc, method.owner)?,
        name: Bytes::copy_of(alloc, text_at(pool, member.name))?,
        desc: Bytes::copy_of(alloc, desc)?,
        flags: member.flags,
        arg_slots: slots_of_arguments(member.flags, desc) as u16,
        max_stack: coded.items.max_stack,
        max_locals,
        handlers: handlers_of(alloc, offsets, &coded.items.rows)?,
        lines: lines_of(alloc, offsets, &tables.lines)?,
        vars: vars_of(alloc, offsets, max_locals, &tables.vars)?,
        kind_vars: vars_of(alloc, offsets, max_locals, &tables.kind_vars)?,
        frames: List::new(alloc),
        uses: read_uses(alloc, pool, &coded.insns, &coded.items.rows)?,
        code: coded.insns,
    })
}

/// Whether there are fewer items than a number of four bytes tells apart.
fn is_counted<T>(list: &List<T>) -> bool
    ensures { IsTrue result → IsCounted list.now }
{
    list.len() < 4_294_967_296
}

/// The body, where each of its lists has fewer items than a number of four bytes tells apart. Tables of more
/// items count as want of memory.
fn with_counted_lists(body: Body) -> Result<Body, Memory>
    requires texts { HasShortParts body }
    ensures same { IfOk result (λ same. same ≡ body) }
    ensures sizes { IfOk result HasSmallParts }
{
    let rows = is_counted(&body.handlers);
    let lines = is_counted(&body.lines);
    let vars = is_counted(&body.vars) & is_counted(&body.kind_vars);
    let frames = is_counted(&body.frames);
    let uses = is_counted(&body.uses);
    if rows & lines & vars & frames & uses {
        Ok(body)
    } else {
        Err(Memory)
    }
}

/// The body of a method with this code, in whose instructions, arguments and exception table no fault was
/// found.
fn with_tables(
    alloc: Global,
    method: &Method<'_>,
    coded: Coded,
    offsets: &Offsets<'_>,
    names: &mut Names,
) -> Result<Body, Fail<Refusal>>
    requires name { HasText method.now.class.now.pool method.now.member.now.name }
    requires desc { HasMethodDescriptor method.now.class.now.pool method.now.member.now.desc }
    requires coded { IsCoded method.now.class.now.pool method.now.member.now coded }
    requires sizes { All (λ a. length a.body ≤ most_read) coded.items.attributes }
    requires few { length coded.insns ≤ 65535 }
    requires offsets { Numbers coded offsets.now }
    requires before { AreNowhere (map (λ F. F coded) (insn_faults method.now.class.now.major method.now.class.now.pool
        ++ row_faults method.now.class.now.pool method.now.member.now)) }
    ensures body { IfOk result (IsBody names.new method.now.class.now method.now.number method.now.member.now) }
    ensures sizes { IfOk result HasSmallParts }
    ensures refused { (owner : Seq ℕ) → IsNamed method.now.class.now owner → IfErr result (λ e. Said e
        (IsRefusal method.now.class.now.major method.now.class.now.pool owner method.now.member.now method.now.number)) }
    ensures grows { Grows names.old names.new }
{
    let Some(tables) = read_tables(alloc, &method.class.pool, &coded.items.attributes)? else {
        return Err(Fail::Said(bad_code(method.number, 0)));
    };
    let frames = frames_of(alloc, method, &coded, names)?;
    let mut body = assembled(alloc, method, coded, offsets, &tables)?;
    body.frames = frames;
    Ok(with_counted_lists(body)?)
}

/// The body of a method with this code.
fn body_of(
    alloc: Global,
    method: &Method<'_>,
    coded: Coded,
    names: &mut Names,
) -> Result<Body, Fail<Refusal>>
    requires name { HasText method.now.class.now.pool method.now.member.now.name }
    requires desc { HasMethodDescriptor method.now.class.now.pool method.now.member.now.desc }
    requires sizes { All (λ a. length a.body ≤ most_read) method.now.member.now.attributes }
    requires coded { IsCoded method.now.class.now.pool method.now.member.now coded }
    ensures body { IfOk result (IsBody names.new method.now.class.now method.now.number method.now.member.now) }
    ensures sizes { IfOk result HasSmallParts }
    ensures refused { (owner : Seq ℕ) → IsNamed method.now.class.now owner → IfErr result (λ e. Said e
        (IsRefusal method.now.class.now.major method.now.class.now.pool owner method.now.member.now method.now.number)) }
    ensures grows { Grows names.old names.new }
{
    let class = method.class;
    let numbers = numbers_of(alloc, &coded)?;
    let offsets = offsets_of(&numbers, &coded);
    match first_fault(class.major, &class.pool, method.member, &coded, &offsets) {
        Some(place) => Err(Fail::Said(bad_code(method.number, place))),
        None => with_tables(alloc, method, coded, &offsets, names),
    }
}

/// What a method has: no code, a body or a refusal.
fn answer(
    alloc: Global,
    class: &ClassFile,
    number: u16,
    method: &Member,
    names: &mut Names,
) -> Result<Option<Body>, Fail<Refusal>>
    requires class { HasClass class.now.pool class.now.this_class }
    requires name { HasText class.now.pool method.now.name }
    requires desc { HasMethodDescriptor class.now.pool method.now.desc }
    requires sizes { All (λ a. length a.body ≤ most_read) method.now.attributes }
    ensures answer { IfOk result (λ found. MatchOption found (HasNoCode class.now.pool method.now)
        (IsBody names.new class.now number method.now)) }
    ensures sizes { IfOk result (λ found. IfSome found HasSmallParts) }
    ensures refused { (owner : Seq ℕ) → class_name_of class.now.pool class.now.this_class ≡ Some owner
        → IfErr result (λ e. Said e (IsRefusal class.now.major class.now.pool owner method.now number)) }
    ensures grows { Grows names.old names.new }
{
    match read_coded(alloc, &class.pool, number, method)? {
        None => Ok(None),
        Some(coded) => {
            let method = Method {
                class,
                owner: class_name_at(&class.pool, class.this_class),
                number,
                member: method,
            };
            Ok(Some(body_of(alloc, &method, coded, names)?))
        }
    }
}

/// The body of a method by its number in the class file, from 0 (JVM Specification 4.7.3): its
/// instructions, its exception rows and the entries of its line and variable tables by instruction
/// numbers, and what stands at each place in the pool that it uses. There is none exactly where the
/// method is abstract or native and has no Code attribute.
///
/// The entries of several attributes of one name stand one behind the other. An entry that names no
/// instruction is left out, but for a variable's end that is the code's length; and so is a variable whose
/// slot is at or past `max_locals`. The frames of the stack map table say all local variables and the whole stack,
/// with classes by their numbers in `names`, to which new ones are added behind the earlier.
///
/// # Errors
///
/// `Memory` where memory was refused. A refusal names the method. It is `Subroutine`, at the offset
/// of the instruction, where `jsr`, `jsr_w`, `ret` or `wide ret` stands behind well formed instructions
/// alone. Else it is `BadCode` for the first of these faults that the method has:
///
/// - not exactly one Code attribute in a method that is neither abstract nor native, or one in a method that
///   is; then a Code attribute that isn't of its form, or whose code has no byte or more than 65,535
///   (JVM Specification 4.7.3); at 0;
/// - an instruction that isn't well formed (6.5), at its offset;
/// - an instruction that names an entry of the pool that isn't of the kind that it needs, or whose
///   descriptor isn't well formed (4.9.1), at its offset;
/// - a jump or an arm that leads to no instruction, or a last instruction after which control falls off
///   the end (4.9.1, 4.9.2), at the offset of the instruction;
/// - an instruction that uses a local variable that there isn't, the second one of a long or a double
///   included (4.9.1), at its offset;
/// - arguments that need more local variables than there are (4.7.3), at 0;
/// - an exception row whose start isn't before its end, whose places aren't instructions, but for an end
///   that is the code's length, or whose class is no Class entry (4.7.3), at the row's number;
/// - a line or variable table that isn't of its form (4.7.12 to 4.7.14), at 0;
/// - two stack map tables, at 0, or one that isn't of its form (4.7.4), at the number of the first frame that is
///   wrong, or at 0 where bytes are left or the count is cut off;
/// - more than 33,554,432 instructions times slots, which is the tool's own bound, at 0.
pub fn read_body(
    alloc: Global,
    class: &ClassFile,
    method: u32,
    names: &mut Names,
) -> Result<Option<Body>, Fail<Refusal>>
    requires exists { method < length class.now.methods }
    requires class { IsClassFile class.now }
    requires sizes { All (λ m. All (λ a. length a.body ≤ most_read) m.attributes) class.now.methods }
    // What is answered is so.
    ensures body { IfOk result (λ found. MatchOption found (Bodiless class.now method) (BodyOf names.new class.now method)) }
    ensures refused { IfErr result (λ e. Said e (FaultOf class.now method)) }
    // What is so is answered, unless memory runs out.
    ensures some { (b : BodyValue) → BodyOf names.new class.now method b
        → MatchResult result (λ found. found ≡ Some b) (λ e. e ≡ Fail.Memory) }
    ensures none { Bodiless class.now method → MatchResult result (λ found. found ≡ None) (λ e. e ≡ Fail.Memory) }
    ensures fault { (r : Reason) → FaultOf class.now method r
        → MatchResult result (λ _. ⊥) (λ e. (e ≡ Fail.Memory) ⊎ (e ≡ Fail.Said r)) }
    ensures well_made { IfOk result (λ found. IfSome found IsWellMade) }
    ensures names { Grows names.old names.new }
{
    let found = answer(
        alloc,
        class,
        method as u16,
        &class.methods[method as usize],
        names,
    );
    // No two names are equal, so the body is the only one.
    let _count = names.len();
    found
}
