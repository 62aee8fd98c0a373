//! Calls that take numbers alone: the added methods, and frames in their order.
ghost use Rattle.std.specs.Prelude.{◌≡◌};

use crate::shown::put_bytes;
use jc_bytes::List;
use jc_instrument_code::{AddedPlaces, merged_frames, write_added};
use jc_methods::{Fetch, FrameAt, State};
use std::alloc::Global;
use tests_lines::{Answer, numbers};

/// Puts what a call that takes numbers alone answers.
pub fn answer(alloc: Global, call: &str, words: &[&str], out: &mut Answer) -> Option<()> {
    let numbers = numbers::<u16>(alloc, words, out)?;
    match call {
        "init" => init(alloc, &numbers, out),
        "bootstrap" => bootstrap(alloc, &numbers, out),
        _ => merged(alloc, &numbers, out),
    }
}

/// Puts the text of the Code attribute of the method that keeps the array in a field: the places that it names, and behind them how
/// many probes there are.
fn init(alloc: Global, numbers: &[u16], out: &mut Answer) -> Option<()> {
    match numbers {
        [field, id, name, count, fetch, array, frames, probes] => {
            let places = AddedPlaces {
                field: *field,
                id: *id,
                name: *name,
                count: *count,
                fetch: *fetch,
                array: *array,
                frames: *frames,
            };
            added_text(alloc, Fetch::Member, &places, *probes, out)
        }
        _ => out.unknown_word("init"),
    }
}

/// Puts that of the bootstrap method.
fn bootstrap(alloc: Global, numbers: &[u16], out: &mut Answer) -> Option<()> {
    match numbers {
        [id, name, count, fetch, probes] => {
            let places = AddedPlaces {
                field: 0,
                id: *id,
                name: *name,
                count: *count,
                fetch: *fetch,
                array: 0,
                frames: 0,
            };
            added_text(alloc, Fetch::Constant, &places, *probes, out)
        }
        _ => out.unknown_word("bootstrap"),
    }
}

/// Puts the text of the added method's Code attribute.
fn added_text(
    alloc: Global,
    fetch: Fetch,
    places: &AddedPlaces,
    probes: u16,
    out: &mut Answer,
) -> Option<()> {
    let text = out.got(write_added(alloc, fetch, places, u32::from(probes)))?;
    put_bytes(&text, out);
    Some(())
}

/// A frame without values.
fn frame(alloc: Global, at: u16) -> FrameAt
    ensures { result.at ≡ at }
{
    FrameAt {
        at: u32::from(at),
        state: State {
            locals: List::new(alloc),
            stack: List::new(alloc),
        },
    }
}

/// Puts where two frames stand, joined with two others.
fn merged(alloc: Global, numbers: &[u16], out: &mut Answer) -> Option<()> {
    match numbers {
        [first, second, other, last] if first < second && other < last => {
            let frames = [frame(alloc, *first), frame(alloc, *second)];
            let further = [frame(alloc, *other), frame(alloc, *last)];
            let all = out.got(merged_frames(alloc, &frames, &further))?;
            put_places(&all, out);
            Some(())
        }
        _ => out.unknown_word("merge"),
    }
}

/// Puts where frames stand.
fn put_places(frames: &[FrameAt], out: &mut Answer) {
    out.put("at");
    for frame in frames {
        out.label(" ", &frame.at);
    }
}
