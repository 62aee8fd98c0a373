//! Execution data.

use jc_base::{Bytes, Fail, is_modified};
use jc_exec::{Bits, ClassHits, ExecRefusal, ExecStore};
use std::alloc::Global;
use tests_lines::{Answer, bits, bytes};

/// Makes a store of nothing.
fn new(alloc: Global, store: &mut Option<ExecStore>, out: &mut Answer) -> Option<()> {
    *store = Some(out.got(ExecStore::new(alloc))?);
    out.put("made");
    Some(())
}

/// Puts the name of a class and the number of its probes.
fn put_probes(name: &[u8], count: u32, out: &mut Answer) {
    out.put(" ");
    out.quoted(name);
    out.label(" ", &count);
}

/// Puts why execution data is refused.
pub fn put_why(why: &ExecRefusal, out: &mut Answer) {
    match why {
        ExecRefusal::BadExec { place } => out.label("BadExec ", place),
        ExecRefusal::OtherVersion { found } => {
            out.put("OtherVersion ");
            out.digits(u64::from(*found));
        }
        ExecRefusal::Conflict {
            id,
            first,
            second,
            first_count,
            second_count,
        } => {
            out.put("Conflict ");
            out.id(*id);
            put_probes(first, *first_count, out);
            put_probes(second, *second_count, out);
        }
    }
}

/// Puts what came of an addition.
fn put_outcome(outcome: Result<(), Fail<ExecRefusal>>, out: &mut Answer) -> Option<()> {
    match outcome {
        Ok(()) => out.put("added"),
        Err(Fail::Said(why)) => put_why(&why, out),
        Err(Fail::Memory) => return out.lose(),
    }
    Some(())
}

/// Adds a file of execution data.
fn read(alloc: Global, store: &mut ExecStore, words: &[&str], out: &mut Answer) -> Option<()> {
    let bytes = bytes(alloc, words, out)?;
    put_outcome(store.read(alloc, &bytes), out)
}

/// The number that a word spells in hexadecimal digits.
fn id(word: &str, out: &mut Answer) -> Option<u64> {
    match u64::from_str_radix(word, 16) {
        Ok(id) => Some(id),
        Err(_) => out.wrong_word("no hexadecimal number", word),
    }
}

/// Adds a record.
fn add(alloc: Global, store: &mut ExecStore, hits: &ClassHits, out: &mut Answer) -> Option<()> {
    if hits.bits.len() > 65535 || (hits.name.len() > 65535 || !is_modified(&hits.name)) {
        return out.wrong("no record");
    }
    put_outcome(store.add(alloc, hits), out)
}

/// Adds the record of a class.
fn add_record(
    alloc: Global,
    store: &mut ExecStore,
    [class, name, hits]: [&str; 3],
    out: &mut Answer,
) -> Option<()> {
    let id = id(class, out)?;
    let bits = bits(alloc, hits, out)?;
    let bits = out.got(Bits::new(alloc, &bits))?;
    let name = out.got(Bytes::copy_of(alloc, name.as_bytes()))?;
    add(alloc, store, &ClassHits { id, name, bits }, out)
}

/// Puts a digit for each probe.
fn put_bits(bits: &Bits, out: &mut Answer) {
    for k in 0..bits.len() {
        out.put(if bits.get(k) { "1" } else { "0" });
    }
}

/// Puts a record: its class id, its name and a digit for each probe.
fn put_record(hits: &ClassHits, out: &mut Answer) {
    out.id(hits.id);
    out.put(" ");
    out.quoted(&hits.name);
    out.put(" [");
    put_bits(&hits.bits, out);
    out.put("]");
}

/// Puts the record of a class id.
fn get(store: &ExecStore, word: &str, out: &mut Answer) -> Option<()> {
    match store.get(id(word, out)?) {
        Some(hits) => put_record(hits, out),
        None => out.put("none"),
    }
    Some(())
}

/// Puts the records.
fn put_records(store: &ExecStore, out: &mut Answer) -> Option<()> {
    for hits in store.classes() {
        put_record(hits, out);
        out.put(", ");
    }
    out.put("end");
    Some(())
}

/// Puts the sessions: the name, the start and the dump.
fn put_sessions(store: &ExecStore, out: &mut Answer) -> Option<()> {
    for session in store.sessions() {
        out.quoted(&session.id);
        out.label(" ", &session.start);
        out.label(" ", &session.dump);
        out.put(", ");
    }
    out.put("end");
    Some(())
}

/// Puts the bytes of the store.
fn write_store(alloc: Global, store: &ExecStore, out: &mut Answer) -> Option<()> {
    let bytes = out.got(store.write(alloc))?;
    out.bytes(&bytes);
    Some(())
}

/// What a call on a store answers.
fn of_store(alloc: Global, store: &mut ExecStore, words: &[&str], out: &mut Answer) -> Option<()> {
    match words {
        ["read", text @ ..] => read(alloc, store, text, out),
        ["add", class, name, hits] => add_record(alloc, store, [class, name, hits], out),
        ["get", class] => get(store, class, out),
        ["sessions"] => put_sessions(store, out),
        ["classes"] => put_records(store, out),
        ["write"] => write_store(alloc, store, out),
        words => out.unknown(words),
    }
}

/// What a call answers. The calls behind `new` are on the store that it makes.
pub fn answer(
    alloc: Global,
    store: &mut Option<ExecStore>,
    words: &[&str],
    out: &mut Answer,
) -> Option<()> {
    match words {
        ["new"] => new(alloc, store, out),
        words => match store {
            Some(store) => of_store(alloc, store, words, out),
            None => out.wrong("no store"),
        },
    }
}
