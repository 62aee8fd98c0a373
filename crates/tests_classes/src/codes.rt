//! Code attributes of instrumented methods, over the constant pool of the class file.
ghost use Rattle.std.specs.Prelude.{[], length, map, slice_index_or, All, IfSome, IsTrue};
ghost use Rattle.std.specs.List.{AllByRecursion};
ghost use Rattle.jc_methods.specs.VerificationTypes.{type_state_at};
ghost use Rattle.jc_instrument_code.specs.Given.{AreFrames, IsLaid};
ghost use Rattle.jc_instrument_code.specs.TwinCode.{lines_name, vars_name, kind_vars_name};
ghost use Rattle.jc_frames.specs.FullTable.{HasPlace, named_by_all};
ghost use Rattle.jc_pool.specs.Adding.{IsFirst};
ghost use Rattle.jc_pool.specs.Lookup.{utf8_of};
ghost use Rattle.tests_classes.specs.Standing.{KindStands, FrameStands};

use crate::shown::put_bytes;
use jc_bytes::Names;
use jc_instrument_code::{CodePlaces, NamedFrames, first_text, write_code};
use jc_layout::Laid;
use jc_methods::{Emitted, Fetch, FrameAt, Kind};
use jc_pool::Pool;
use std::alloc::Global;
use tests_lines::Answer;

/// The most rows of an exception table (JVM Specification 4.7.3).
const MOST_ROWS: usize = 65_535;

/// Instrumented code in its layout, with the classes that its frames name by their numbers.
#[derive(Clone, Copy)]
pub struct LaidCode<'a> {
    pub emitted: &'a Emitted,
    pub laid: &'a Laid,
    pub names: &'a Names,
}

/// Whether the class with this number stands in the pool.
#[tactic(auto, using(std::proofs::lemmas::Option::get_or_from_slice_get))]
fn class_stands(pool: &Pool, names: &Names, number: u32) -> bool
    ensures { IsTrue result → HasPlace pool.now (slice_index_or names.now number []) }
{
    if number >= names.len() {
        return false;
    }
    // The count of a pool has two bytes (JVM Specification 4.1).
    let count = pool.count();
    prove!(count <= u16::MAX);
    match pool.find_class(names.text(number)) {
        Some(_) => true,
        None => false,
    }
}

/// Whether the class of a value stands in the pool, if it has one.
fn kind_stands(pool: &Pool, names: &Names, kind: Kind) -> bool
    ensures { IsTrue result → KindStands pool.now names.now kind }
{
    match kind {
        Kind::Object(number) => class_stands(pool, names, number),
        _ => true,
    }
}

/// Whether the classes of values stand in the pool.
fn kinds_stand(pool: &Pool, names: &Names, kinds: &[Kind]) -> bool
    ensures { IsTrue result → All (KindStands pool.now names.now) kinds.now }
{
    kinds.iter().all(|kind| kind_stands(pool, names, *kind))
}

/// Whether the classes that a frame names stand in the pool.
fn frame_stands(pool: &Pool, names: &Names, frame: &FrameAt) -> bool
    ensures { IsTrue result → FrameStands pool.now names.now frame.now }
{
    kinds_stand(pool, names, &frame.state.locals) && kinds_stand(pool, names, &frame.state.stack)
}

/// Whether the classes of the values of frames stand in the pool.
fn each_stands(pool: &Pool, names: &Names, frames: &[FrameAt]) -> bool
    ensures { IsTrue result → All (FrameStands pool.now names.now) frames.now }
{
    frames.iter().all(|frame| frame_stands(pool, names, frame))
}

/// Whether the classes that frames name stand in the pool.
fn frames_stand(pool: &Pool, names: &Names, frames: &[FrameAt]) -> bool
    ensures { IsTrue result → AllByRecursion (HasPlace pool.now) (named_by_all (map (type_state_at names.now) frames.now)) }
{
    each_stands(pool, names, frames)
}

/// The places of what a Code attribute names, where the method that the prelude calls stands at this one.
fn places_of(pool: &Pool, method: u16) -> Option<CodePlaces>
    ensures lines { IfSome result (λ p. IsFirst (utf8_of pool.now) lines_name p.lines) }
    ensures vars { IfSome result (λ p. IsFirst (utf8_of pool.now) vars_name p.vars) }
    ensures kind_vars { IfSome result (λ p. IsFirst (utf8_of pool.now) kind_vars_name p.kind_vars) }
{
    Some(CodePlaces {
        giver: method,
        array: 0,
        lines: first_text(pool, b"LineNumberTable")?,
        vars: first_text(pool, b"LocalVariableTable")?,
        kind_vars: first_text(pool, b"LocalVariableTypeTable")?,
        frames: first_text(pool, b"StackMapTable")?,
    })
}

/// Puts the Code attribute, in which the prelude calls the method at this place of the pool, over a pool in which all
/// that it names stands.
pub fn coded(
    alloc: Global,
    code: LaidCode<'_>,
    frames: &[FrameAt],
    method: u16,
    pool: &mut Pool,
    out: &mut Answer,
) -> Option<()>
    requires laid { IsLaid code.emitted.now code.laid.now }
    requires frames { AreFrames code.emitted.now (length code.names.now) frames.now }
{
    let LaidCode {
        emitted,
        laid,
        names,
    } = code;
    let Some(places) = places_of(pool, method) else {
        return out.wrong("not in the pool");
    };
    if emitted.handlers.len() > MOST_ROWS || !frames_stand(pool, names, frames) {
        return out.wrong("not in the pool");
    }
    let named = NamedFrames { frames, names };
    let text = write_code(alloc, emitted, laid, named, Fetch::Member, &places, pool);
    let text = out.got(text)?;
    put_bytes(&text, out);
    Some(())
}
