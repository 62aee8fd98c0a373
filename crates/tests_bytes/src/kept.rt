//! The calls, and the values that lines make for the lines behind them.

use crate::{
    bootstraps, classes, codes, copies, descriptors, feeds, files, insns, lists, names, pools,
    readers, same, stores, texts,
};
use jc_base::{Insn, MemoryFiles, MemorySink, Names};
use jc_exec::{ExecFeed, ExecStore};
use jc_pool::Pool;
use std::alloc::Global;
use tests_lines::{Answer, Calls};

/// The values that lines make for the lines behind them.
#[derive(Drop)]
pub struct Kept {
    /// Names with numbers.
    names: Option<Names>,
    /// Files in memory.
    files: Option<MemoryFiles>,
    /// A text in memory.
    sink: Option<MemorySink>,
    /// Code that was decoded.
    code: Vec<Insn>,
    /// A constant pool that was read.
    pool: Option<Pool>,
    /// A store of execution data.
    store: Option<ExecStore>,
    /// Execution data that is fed in pieces.
    feed: Option<ExecFeed>,
}

impl Kept {
    /// No names, no files, no code, no pool and no execution data.
    pub fn new(alloc: Global) -> Kept {
        Kept {
            names: None,
            files: None,
            sink: None,
            code: Vec::new(alloc),
            pool: None,
            store: None,
            feed: None,
        }
    }

    /// Puts what a call on code, on pools, on class files or on execution data answers.
    fn of_crates(
        &mut self,
        alloc: Global,
        group: &str,
        call: &[&str],
        out: &mut Answer,
    ) -> Option<()> {
        match group {
            "code" => codes::answer(alloc, &mut self.code, call, out),
            "insn" => insns::answer(alloc, &self.code, call, out),
            "copy" => copies::answer(alloc, &self.code, call, out),
            "pool" => pools::answer(alloc, &mut self.pool, call, out),
            "class" => classes::answer(alloc, call, out),
            "bootstraps" => bootstraps::answer(alloc, call, out),
            "store" => stores::answer(alloc, &mut self.store, call, out),
            "feed" => feeds::answer(alloc, &mut self.store, &mut self.feed, call, out),
            group => out.unknown_word(group),
        }
    }
}

impl Calls for Kept {
    fn answer(&mut self, alloc: Global, words: &[&str], out: &mut Answer) -> Option<()> {
        let [group, call @ ..] = words else {
            return out.wrong("no call");
        };
        match *group {
            "list" => lists::answer(alloc, call, out),
            "reader" => readers::answer(alloc, call, out),
            "text" => texts::answer(alloc, call, out),
            "descriptor" => descriptors::answer(alloc, call, out),
            "names" => names::answer(alloc, &mut self.names, call, out),
            "files" => files::of_files(alloc, &mut self.files, call, out),
            "sink" => files::of_sink(alloc, &mut self.sink, call, out),
            "same" => same::answer(alloc, call, out),
            group => self.of_crates(alloc, group, call, out),
        }
    }
}
