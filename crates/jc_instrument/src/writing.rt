//! The instrumented code of a body as text, while the pool takes the classes that its frames name.
ghost use Rattle.std.specs.Prelude.{◌≡◌, ◌≤◌, ℕ, length, map, IfOk, IfErr};
ghost use Rattle.std.specs.List.{AllByRecursion};
ghost use Rattle.jc_methods.specs.VerificationTypes.{Grows, Names as ClassNames, type_state_at};
ghost use Rattle.jc_frames.specs.FullTable.{CanBeWritten, HasPlace, named_by_all};
ghost use Rattle.jc_pool.specs.Adding.{Extends};
ghost use Rattle.jc_instrument_code.specs.LaidText.{laid_text};
ghost use Rattle.jc_instrument.specs.BodiesWithStates.{BodyWithStates};
ghost use Rattle.jc_instrument.specs.Ready.{IsReady};
ghost use Rattle.jc_instrument.specs.Taking.{RefusesEach};
ghost use Rattle.jc_instrument.specs.Writing.{HasFramesName, IsWorkOf, IsWrittenWork, RefusesWork, frames_asked};

use crate::constants::ProbeConstants;
use crate::ready::ReadyBody;
use jc_bytes::{Bytes, Fail, List, Memory, Names};
use jc_emit::{EmittedParts, PlacedBody, emit_parts};
use jc_frames::take_classes;
use jc_instrument_code::{CodePlaces, CodeTables, NamedFrames, write_laid};
use jc_layout::Laid;
use jc_methods::{Fetch, FrameAt};
use jc_pool::{Pool, PoolFull};
use std::alloc::Global;

/// What the Code attribute of an instrumented method holds (JVM Specification 4.7.3).
///
/// # Errors
///
/// `Memory` where memory was refused, and where there are more bytes than an attribute holds.
fn code_text(
    alloc: Global,
    parts: &EmittedParts,
    laid: &Laid,
    names: &Names,
    fetch: Fetch,
    places: &CodePlaces,
    pool: &Pool,
) -> Result<Bytes, Memory>
    requires rows { length parts.now.tables.handlers ≤ 65535 }
    requires few { length laid.now.code ≤ 65535 }
    requires frames { CanBeWritten laid.now.starts (length names.now) parts.now.frames }
    requires classes { AllByRecursion (HasPlace pool.now) (named_by_all (map (type_state_at names.now) parts.now.frames)) }
    ensures { IfOk result (λ text. text ≡ laid_text pool.now fetch places.now names.now parts.now.tables laid.now parts.now.frames) }
{
    let moved = &parts.tables;
    let tables = CodeTables {
        max_stack: moved.max_stack,
        max_locals: moved.max_locals,
        handlers: &moved.handlers,
        lines: &moved.lines,
        vars: &moved.vars,
        kind_vars: &moved.kind_vars,
        frames: NamedFrames {
            frames: &parts.frames,
            names,
        },
    };
    write_laid(alloc, &tables, laid, fetch, places, pool)
}

/// The place of the name of the attribute of frames. Where the class gets its array by a constant the pool takes that name, if
/// there are frames; else it stands at the place that is given.
fn frames_place(
    alloc: Global,
    frames: &[FrameAt],
    fetch: Fetch,
    given: u16,
    pool: &mut Pool,
) -> Result<u16, Fail<PoolFull>>
    ensures takes { (names : ClassNames)
        → IfOk result (HasFramesName fetch pool.old (map (type_state_at names) frames.now) given pool.new) }
    ensures refused { (names : ClassNames)
        → IfErr result (RefusesEach pool.old (frames_asked fetch (map (type_state_at names) frames.now))) }
    ensures extends { Extends pool.old pool.new }
{
    match fetch {
        Fetch::Member => Ok(given),
        Fetch::Constant => {
            if frames.is_empty() {
                return Ok(given);
            }
            pool.add_utf8(alloc, b"StackMapTable")
        }
    }
}

/// The places of what the Code attribute names, with that of the name of the attribute of frames.
fn named_places(
    alloc: Global,
    frames: &[FrameAt],
    fetch: Fetch,
    places: &CodePlaces,
    pool: &mut Pool,
) -> Result<CodePlaces, Fail<PoolFull>>
    ensures takes { (names : ClassNames) → IfOk result
        (λ named. HasFramesName fetch pool.old (map (type_state_at names) frames.now) places.now.frames pool.new named.frames) }
    ensures others { IfOk result (λ named. named ≡ record places.now { frames = named.frames }) }
    ensures refused { (names : ClassNames)
        → IfErr result (RefusesEach pool.old (frames_asked fetch (map (type_state_at names) frames.now))) }
    ensures extends { Extends pool.old pool.new }
{
    let frames = frames_place(alloc, frames, fetch, places.frames, pool)?;
    Ok(CodePlaces {
        giver: places.giver,
        array: places.array,
        lines: places.lines,
        vars: places.vars,
        kind_vars: places.kind_vars,
        frames,
    })
}

/// What the Code attribute of the method of this body holds, instrumented. Before it is written the pool takes what its
/// frames ask for; all of the body is dropped then.
///
/// # Errors
///
/// `PoolFull` where the pool can't take one of the classes, and `Memory` where memory was refused, and where a text
/// would be too long for an attribute.
pub fn body_text(
    alloc: Global,
    ready: ReadyBody,
    constants: &ProbeConstants,
    places: &CodePlaces,
    names: &mut Names,
    pool: &mut Pool,
) -> Result<Bytes, Fail<PoolFull>>
    requires { IsReady names.old constants.now ready }
    ensures text { (others : ClassNames) (array : ℕ) (w : BodyWithStates) → IsWorkOf names.old others array ready w
        → IfOk result (IsWrittenWork pool.old constants.now places.now others array w pool.new) }
    ensures refused { (others : ClassNames) (array : ℕ) (w : BodyWithStates) → IsWorkOf names.old others array ready w
        → IfErr result (RefusesWork pool.old constants.now others array w) }
    ensures names { Grows names.old names.new }
    ensures extends { Extends pool.old pool.new }
{
    let ReadyBody {
        body,
        plan,
        laid,
        insn_places,
        states,
    } = ready;
    let placed = PlacedBody {
        body: &body,
        plan: &plan,
        fetch: constants.fetch,
        places: &insn_places,
    };
    let parts = emit_parts(alloc, &placed, &states, &laid.wide, names)?;
    let places = named_places(alloc, &parts.frames, constants.fetch, places, pool)?;
    take_classes(alloc, &parts.frames, names, pool)?;
    Ok(code_text(alloc, &parts, &laid, names, constants.fetch, &places, pool)?)
}
