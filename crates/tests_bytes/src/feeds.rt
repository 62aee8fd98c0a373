//! Execution data in pieces.

use crate::stores::put_why;
use jc_base::{Fail, MOST_READ};
use jc_exec::{ExecFeed, ExecStore};
use std::alloc::Global;
use tests_lines::{Answer, bytes};

/// Makes a feed into the store.
fn begin(
    store: &mut Option<ExecStore>,
    feed: &mut Option<ExecFeed>,
    out: &mut Answer,
) -> Option<()> {
    let Some(store) = store.take() else {
        return out.wrong("no store");
    };
    *feed = Some(ExecFeed::begin(store));
    out.put("begun");
    Some(())
}

/// Puts how many bytes were fed, and how many of them are kept.
fn put_lengths(feed: &ExecFeed, out: &mut Answer) {
    out.label("length ", &feed.length());
    out.label(", rest ", &feed.rest());
}

/// Feeds a piece.
fn put_piece(
    alloc: Global,
    feed: &mut Option<ExecFeed>,
    words: &[&str],
    out: &mut Answer,
) -> Option<()> {
    let piece = bytes(alloc, words, out)?;
    let Some(before) = feed.take() else {
        return out.wrong("no feed");
    };
    if piece.len() > MOST_READ - before.length() as usize {
        return out.wrong("too many bytes");
    }
    let after = out.got(before.feed(alloc, &piece))?;
    put_lengths(&after, out);
    *feed = Some(after);
    Some(())
}

/// Puts what comes of the pieces. The store is gone where a block was refused.
fn finish(
    store: &mut Option<ExecStore>,
    feed: &mut Option<ExecFeed>,
    out: &mut Answer,
) -> Option<()> {
    let Some(feed) = feed.take() else {
        return out.wrong("no feed");
    };
    match feed.finish() {
        Ok(fed) => {
            *store = Some(fed);
            out.put("added");
        }
        Err(Fail::Said(why)) => put_why(&why, out),
        Err(Fail::Memory) => return out.lose(),
    }
    Some(())
}

/// What a call answers. The calls behind `begin` are on the feed that it makes of the store.
pub fn answer(
    alloc: Global,
    store: &mut Option<ExecStore>,
    feed: &mut Option<ExecFeed>,
    words: &[&str],
    out: &mut Answer,
) -> Option<()> {
    match words {
        ["begin"] => begin(store, feed, out),
        ["piece", piece @ ..] => put_piece(alloc, feed, piece, out),
        ["finish"] => finish(store, feed, out),
        words => out.unknown(words),
    }
}
