//! The ways in which the code of a body is emitted, and its frames where any of its jumps are wide.
ghost use Rattle.std.specs.Prelude.{◌≡◌, ◌≤◌, ◌+◌, length, IfOk, IfSome};
ghost use Rattle.jc_methods.specs.ProbeMembers.{most_probes, most_short};
ghost use Rattle.jc_methods.specs.VerificationTypes.{AreNumberedFrames};
ghost use Rattle.jc_methods.specs.WellMade.{IsWellMade};
ghost use Rattle.jc_plan.specs.Plan.{plan_of};

use crate::shown::put_frames;
use jc_bytes::{Fail, Names, Refusal, RefusalKind};
use jc_emit::{EmittedParts, PlacedBody, emit_code, emit_parts};
use jc_kinds::states;
use jc_methods::{Body, Fetch, MOST_PROBES, MOST_SHORT, Plan};
use jc_plan::plan;
use std::alloc::Global;
use tests_lines::{Answer, bits, number, repeated};

/// How a body gets its array of probes, its first id, and the places of the Integers of the ids from 32,768 on.
#[derive(Drop)]
pub struct Asked {
    pub fetch: Fetch,
    pub first: u32,
    pub constants: Vec<u16>,
}

/// How a body gets its array of probes.
fn fetch(word: &str, out: &mut Answer) -> Option<Fetch> {
    match word {
        "member" => Some(Fetch::Member),
        "constant" => Some(Fetch::Constant),
        word => out.unknown_word(word),
    }
}

/// The places that words tell: a number, or a number of equal places, `*` and one of them.
fn constants(alloc: Global, words: &[&str], out: &mut Answer) -> Option<Vec<u16>> {
    let mut places = Vec::new(alloc);
    for word in words {
        put_places(&mut places, word, out)?;
    }
    Some(places)
}

/// Puts the places that a word tells.
fn put_places(places: &mut Vec<u16>, word: &str, out: &mut Answer) -> Option<()> {
    let (count, digits) = repeated(word, out)?;
    let place = number::<u16>(digits, out)?;
    for _ in 0..count {
        out.got(places.push(place))?;
    }
    Some(())
}

/// The way that words tell. Without words it is by the method, with ids from 0 on.
pub fn asked_for(alloc: Global, words: &[&str], out: &mut Answer) -> Option<Asked>
    ensures { IfSome result (λ asked. asked.first ≤ most_probes) }
{
    match words {
        [] => Some(Asked {
            fetch: Fetch::Member,
            first: 0,
            constants: Vec::new(alloc),
        }),
        [way, first, places @ ..] => Some(Asked {
            fetch: fetch(way, out)?,
            first: u32::from(number::<u16>(first, out)?),
            constants: constants(alloc, places, out)?,
        }),
        words => out.unknown(words),
    }
}

/// The plan of a body, with ids of probes from `first` on, where each id can be pushed.
pub fn planned(
    alloc: Global,
    body: &Body,
    first: u32,
    constants: &[u16],
) -> Result<Plan, Fail<Refusal>>
    requires body { IsWellMade body.now }
    requires first { first ≤ most_probes }
    ensures plan { IfOk result (λ p. p ≡ plan_of body.now first) }
    ensures few { IfOk result (λ p. p.next ≤ most_probes) }
    ensures enough { IfOk result (λ p. p.next ≤ most_short + 1 + length constants.now) }
{
    let plan = plan(alloc, body, first)?;
    let integers = (plan.next as usize).saturating_sub(MOST_SHORT as usize + 1);
    if plan.next > MOST_PROBES || integers > constants.len() {
        return Err(Fail::Said(Refusal {
            kind: RefusalKind::TooManyProbes,
            method: None,
            place: plan.next,
        }));
    }
    Ok(plan)
}

/// The frames and the tables of the instrumented code of a body, where these jumps are wide.
fn made_parts(
    alloc: Global,
    body: &Body,
    names: &mut Names,
    wide: &[bool],
    asked: &Asked,
) -> Result<EmittedParts, Fail<Refusal>>
    requires body { IsWellMade body.now }
    requires frames { AreNumberedFrames (length names.old) body.now.frames }
    requires first { asked.now.first ≤ most_probes }
{
    let states = states(alloc, body, names)?;
    let plan = planned(alloc, body, asked.first, &asked.constants)?;
    let code = emit_code(alloc, body, &plan, asked.fetch, &asked.constants)?;
    let placed = PlacedBody {
        body,
        plan: &plan,
        fetch: asked.fetch,
        places: &code.places,
    };
    let parts = emit_parts(alloc, &placed, &states, wide, names)?;
    Ok(parts)
}

/// Puts the frames of the instrumented code, where those of its jumps are wide of which the word says so, and its sizes. The
/// places are those of the code in which none is wide.
pub fn parts(
    alloc: Global,
    body: &Body,
    names: &mut Names,
    wide: &str,
    way: &[&str],
    out: &mut Answer,
) -> Option<()>
    requires body { IsWellMade body.now }
    requires frames { AreNumberedFrames (length names.old) body.now.frames }
{
    let wide = bits(alloc, wide, out)?;
    let asked = asked_for(alloc, way, out)?;
    let parts = out.accepted(made_parts(alloc, body, names, &wide, &asked))?;
    out.label("stack ", &parts.tables.max_stack);
    out.label("; locals ", &parts.tables.max_locals);
    put_frames("; frames", &parts.frames, names, out);
    Some(())
}
