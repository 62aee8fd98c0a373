//! Execution data of which no block was refused so far.
ghost use Rattle.std.specs.Prelude.{◌≡◌, ◌≢◌, ◌+◌, ◌<◌, ◌≤◌, ◌++◌, [], ℕ, List, false, length, drop, IfOk, IfErr, IfSome, IfNone, IsTrue};
ghost use Rattle.std.specs.List.{AllByRecursion};
ghost use Rattle.jc_bytes.specs.Reader.{most_read};
ghost use Rattle.jc_exec.specs.declared.refusal.ExecRefusal.TheVariants.{BadExec};
ghost use Rattle.jc_exec.specs.Adding.{held_store};
ghost use Rattle.jc_exec.specs.Answers.{Refuses};
ghost use Rattle.jc_exec.specs.Feeding.{NoneInFront, Feeds, Finished, GoesOn, IsSaid, IsSound, feed_of, kept_of, rest_of, most_block};
ghost use Rattle.jc_exec.specs.Front.{IsUnfit, reading_at};
ghost use Rattle.jc_exec.specs.Refusing.{bad_exec};
ghost use Rattle.jc_exec.specs.Store.{Store, IsWritable, Keyed};

use crate::ExecRefusal;
use crate::block::{CLASS, HEADER_KIND, SESSION};
use crate::gathering::take_blocks;
use crate::records::Records;
use crate::table::Table;
use jc_bytes::{Fail, Memory};
use std::alloc::Global;

/// The length of the longest block: a class with a name of 65,535 bytes, a count of five bytes and 65,535 probes.
const LONGEST_BLOCK: usize = 73_743;

/// A table with the whole blocks that were fed, and the bytes behind them.
#[derive(Drop)]
pub struct Waiting<T> {
    pub table: T,
    pub rest: Vec<u8>,
}

/// What is kept of the bytes that were fed.
#[derive(Drop)]
pub enum State<T> {
    Waiting(Waiting<T>),
    Refused(ExecRefusal),
}

/// Whether a block that isn't whole may begin so at the offset.
fn may_begin(bytes: &[u8], offset: u32) -> bool
    requires some { 0 < length bytes.now }
    ensures short { IsTrue result → length bytes.now < most_block }
    ensures waits { IsTrue result → IsUnfit (reading_at offset bytes.now) (bad_exec offset) → NoneInFront bytes.now }
    ensures lasts { result ≡ false → IsUnfit (reading_at offset bytes.now) (bad_exec offset)
        → (more : List ℕ) → IsUnfit (reading_at offset (bytes.now ++ more)) (bad_exec offset) }
{
    let kind = bytes[0];
    if bytes.len() >= LONGEST_BLOCK {
        return false;
    }
    if kind == HEADER_KIND {
        return true;
    }
    if offset == 0 {
        return false;
    }
    kind == SESSION || kind == CLASS
}

/// The offset of bytes that are no block, where they are what is refused.
fn bad_place(refusal: &ExecRefusal) -> Option<u32>
    ensures bad { IfSome result (λ place. refusal.now ≡ BadExec place) }
    ensures other { IfNone result ((place : ℕ) → refusal.now ≢ BadExec place) }
{
    match refusal {
        ExecRefusal::BadExec { place } => Some(*place),
        ExecRefusal::OtherVersion { .. } => None,
        ExecRefusal::Conflict { .. } => None,
    }
}

/// Drops so many bytes from the front. Where there are none the others stay where they are.
fn drop_first(bytes: &mut Vec<u8>, count: usize)
    requires { count ≤ length bytes.old.items }
    ensures { bytes.new.items ≡ drop count bytes.old.items }
{
    if count > 0 {
        bytes.drain(..count);
    }
}

/// What is kept once a piece more was fed. The bytes behind the whole blocks begin at
/// the offset.
fn go_on<T: Table + Drop>(
    alloc: Global,
    waiting: Waiting<T>,
    offset: u32,
    piece: &[u8],
) -> Result<State<T>, Memory>
    requires writable { AllByRecursion IsWritable (T.held waiting.table).sessions }
    requires keyed { Keyed (T.held waiting.table).records }
    requires short { offset + (length waiting.rest.items + length piece.now) ≤ most_read }
    ensures stands { IfOk result (GoesOn T.held waiting offset piece.now) }
    ensures sound { IfOk result (λ later. IsSound T.held later (offset + (length waiting.rest.items + length piece.now))) }
{
    let Waiting {
        mut table,
        mut rest,
    } = waiting;
    rest.extend_from_slice(piece)?;
    let none = Records::new(alloc);
    match take_blocks(alloc, &none, &mut table, &rest, offset) {
        Ok(()) => {
            rest.clear();
            Ok(State::Waiting(Waiting { table, rest }))
        }
        Err(Fail::Memory) => Err(Memory),
        Err(Fail::Said(refusal)) => match bad_place(&refusal) {
            None => Ok(State::Refused(refusal)),
            Some(place) => {
                let taken = (place - offset) as usize;
                if !may_begin(&rest[taken..], place) {
                    return Ok(State::Refused(refusal));
                }
                drop_first(&mut rest, taken);
                Ok(State::Waiting(Waiting { table, rest }))
            }
        },
    }
}

/// What is kept of no bytes.
pub fn begun<T: Table + Drop>(alloc: Global, table: T) -> State<T>
    requires writable { AllByRecursion IsWritable (T.held table).sessions }
    requires keyed { Keyed (T.held table).records }
    ensures stands { Feeds (feed_of T.held 0 result) (held_store (T.held table)) [] }
    ensures sound { IsSound T.held result 0 }
{
    State::Waiting(Waiting {
        table,
        rest: Vec::new(alloc),
    })
}

/// What is kept of so many bytes and a piece behind them. Once a block is refused the pieces behind it are dropped.
pub fn fed<T: Table + Drop>(
    alloc: Global,
    count: u32,
    state: State<T>,
    piece: &[u8],
) -> Result<State<T>, Memory>
    requires sound { IsSound T.held state count }
    requires short { count + length piece.now ≤ most_read }
    ensures stands { IfOk result (λ later. (before : Store) (bytes : List ℕ) → Feeds (feed_of T.held count state) before bytes
        → Feeds (feed_of T.held (count + length piece.now) later) before (bytes ++ piece.now)) }
    ensures sound { IfOk result (λ later. IsSound T.held later (count + length piece.now)) }
{
    match state {
        State::Waiting(waiting) => {
            let offset = count - waiting.rest.len() as u32;
            go_on(alloc, waiting, offset, piece)
        }
        State::Refused(refusal) => Ok(State::Refused(refusal)),
    }
}

/// How many bytes are kept of a block that isn't whole.
pub fn rest<T: Table>(state: &State<T>) -> u32
    requires { rest_of (kept_of T.held state.now) < most_block }
    ensures { result ≡ rest_of (kept_of T.held state.now) }
{
    match state {
        State::Waiting(waiting) => waiting.rest.len() as u32,
        State::Refused(_) => 0,
    }
}

/// The table once all bytes were fed, so many of them.
pub fn ended<T: Table + Drop>(count: u32, state: State<T>) -> Result<T, Fail<ExecRefusal>>
    requires { IsSound T.held state count }
    ensures finished { IfOk result (λ table. (before : Store) (bytes : List ℕ) → Feeds (feed_of T.held count state) before bytes
        → Finished before bytes (held_store (T.held table))) }
    ensures writable { IfOk result (λ table. AllByRecursion IsWritable (T.held table).sessions) }
    ensures keyed { IfOk result (λ table. Keyed (T.held table).records) }
    ensures refused { IfErr result (λ e. (before : Store) (bytes : List ℕ) → Feeds (feed_of T.held count state) before bytes
        → Refuses e before bytes) }
    ensures said { IfErr result IsSaid }
{
    match state {
        State::Waiting(waiting) => {
            if !waiting.rest.is_empty() {
                let place = count - waiting.rest.len() as u32;
                return Err(Fail::Said(ExecRefusal::BadExec { place }));
            }
            Ok(waiting.table)
        }
        State::Refused(refusal) => Err(Fail::Said(refusal)),
    }
}
