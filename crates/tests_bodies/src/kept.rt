//! The calls, and what lines gave that stand before a call.

use crate::tables::{self, Ground, Method, method_of, pool_of};
use crate::{bodies, kinds, plans};
use jc_pool::Pool;
use std::alloc::Global;
use tests_lines::{Answer, Calls, bytes, number};

/// What lines gave that stand before a call.
#[derive(Drop)]
pub struct Kept {
    /// The bytes in front of those of each class that is given behind `head`.
    head: Vec<u8>,
    /// A class file.
    class: Vec<u8>,
    /// The bytes in front of those of a stack map table that is written.
    front: Vec<u8>,
    /// The code of the method of a stack map table.
    code: Vec<u8>,
    /// The constant pool that a stack map table is read with.
    pool: Option<Pool>,
    /// The constant pool into which frames are written.
    target: Option<Pool>,
}

/// Tells how many bytes these are.
fn put_count(bytes: &[u8], out: &mut Answer) -> Option<()> {
    out.show(&bytes.len());
    out.put(" bytes");
    Some(())
}

/// Puts the bytes that words spell in place of those that are there.
fn fill(alloc: Global, kept: &mut Vec<u8>, words: &[&str], out: &mut Answer) -> Option<()> {
    *kept = bytes(alloc, words, out)?;
    put_count(kept, out)
}

/// Puts the constant pool that words spell in place of the one that is there.
fn fill_pool(
    alloc: Global,
    pool: &mut Option<Pool>,
    words: &[&str],
    out: &mut Answer,
) -> Option<()> {
    let bytes = bytes(alloc, words, out)?;
    *pool = Some(pool_of(alloc, &bytes, out)?);
    put_count(&bytes, out)
}

/// Keeps a class file whose bytes are those of the head and then those that words spell, and tells how many methods it
/// has.
fn keep_class(
    alloc: Global,
    class: &mut Vec<u8>,
    head: &[u8],
    words: &[&str],
    out: &mut Answer,
) -> Option<()> {
    let bytes = bytes(alloc, words, out)?;
    class.clear();
    out.got(class.extend_from_slice(head))?;
    out.got(class.extend_from_slice(&bytes))?;
    bodies::methods(alloc, class, out)
}

/// What a call without further words tells of a method of the class.
fn of_method(alloc: Global, class: &[u8], call: &str, method: u32, out: &mut Answer) -> Option<()> {
    match call {
        "states" => kinds::all_states(alloc, class, method, out),
        "check" => kinds::check(alloc, class, method, out),
        "edges" => plans::all_edges(alloc, class, method, out),
        part => bodies::told(alloc, part, class, method, out),
    }
}

/// What a call tells of a method of the class.
fn of_class(
    alloc: Global,
    class: &[u8],
    call: &str,
    method: &str,
    words: &[&str],
    out: &mut Answer,
) -> Option<()> {
    let method = number::<u32>(method, out)?;
    match (call, words) {
        (call, []) => of_method(alloc, class, call, method, out),
        ("after", [at, name, state @ ..]) => {
            let at = number::<u32>(at, out)?;
            kinds::state_after(alloc, class, method, (at, name), state, out)
        }
        ("plan", [first]) => plans::planned(alloc, class, method, first, out),
        ("branches", [at]) => plans::all_branches(alloc, class, method, at, out),
        (call, _) => out.unknown_word(call),
    }
}

/// What a call tells of the pool into which frames are written.
fn of_target(alloc: Global, target: &Option<Pool>, call: &str, out: &mut Answer) -> Option<()> {
    match (call, target) {
        ("target", Some(pool)) => tables::pool_text(alloc, pool, out),
        ("places", Some(pool)) => tables::put_places(pool, out),
        ("target" | "places", None) => out.wrong("no pool"),
        (call, _) => out.unknown_word(call),
    }
}

impl Kept {
    /// No class, no code and no pools.
    pub fn new(alloc: Global) -> Kept {
        Kept {
            head: Vec::new(alloc),
            class: Vec::new(alloc),
            front: Vec::new(alloc),
            code: Vec::new(alloc),
            pool: None,
            target: None,
        }
    }

    /// Keeps what words spell, for the calls behind.
    fn keep(&mut self, alloc: Global, what: &str, words: &[&str], out: &mut Answer) -> Option<()> {
        match what {
            "head" => fill(alloc, &mut self.head, words, out),
            "front" => fill(alloc, &mut self.front, words, out),
            "code" => fill(alloc, &mut self.code, words, out),
            "pool" => fill_pool(alloc, &mut self.pool, words, out),
            "target" => fill_pool(alloc, &mut self.target, words, out),
            what => out.unknown_word(what),
        }
    }

    /// What a call tells of the stack map table that the words spell.
    fn of_table(
        &mut self,
        alloc: Global,
        call: &str,
        method: Method<'_>,
        words: &[&str],
        out: &mut Answer,
    ) -> Option<()> {
        let table = bytes(alloc, words, out)?;
        let (Some(pool), Some(target)) = (&self.pool, &mut self.target) else {
            return out.wrong("no pool");
        };
        let ground = Ground {
            method,
            code: &self.code,
            pool,
        };
        match call {
            "fault" => tables::fault(alloc, ground, &table, out),
            "read" => tables::read(alloc, ground, &table, out),
            "take" => tables::take(alloc, ground, &table, target, out),
            _ => tables::written(alloc, ground, &table, target, &self.front, out),
        }
    }

    /// What a call tells of the stack map table that stands behind the words of its method.
    fn of_words(
        &mut self,
        alloc: Global,
        call: &str,
        words: &[&str],
        out: &mut Answer,
    ) -> Option<()> {
        let (method, table) = method_of(words, out)?;
        self.of_table(alloc, call, method, table, out)
    }

    /// What a line's call answers.
    fn call(&mut self, alloc: Global, words: &[&str], out: &mut Answer) -> Option<()> {
        match words {
            ["keep", what, words @ ..] => self.keep(alloc, what, words, out),
            ["class", "head", words @ ..] => {
                keep_class(alloc, &mut self.class, &self.head, words, out)
            }
            ["class", words @ ..] => keep_class(alloc, &mut self.class, &[], words, out),
            ["entry", words @ ..] => tables::entry(alloc, words, out),
            [call @ ("fault" | "read" | "take" | "written"), words @ ..] => {
                self.of_words(alloc, call, words, out)
            }
            [call, method, words @ ..] => of_class(alloc, &self.class, call, method, words, out),
            [call] => of_target(alloc, &self.target, call, out),
            [] => out.wrong("no word"),
        }
    }
}

impl Calls for Kept {
    fn answer(&mut self, alloc: Global, words: &[&str], out: &mut Answer) -> Option<()> {
        self.call(alloc, words, out)?;
        if out.is_empty() {
            out.put("none");
        }
        Some(())
    }
}
