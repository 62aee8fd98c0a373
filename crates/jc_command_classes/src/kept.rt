//! What is kept of class files, one after the other.
ghost use Rattle.std.specs.Prelude.{◌≡◌, length, IfOk, IfErr, OnOk};
ghost use Rattle.jc_command_classes.specs.Kept.{KeepsRefused, KeepsChanged, KeepsSeen, KeepsAll, StopsFirst};

use crate::lines::refused_line;
use indexmap::IndexSet;
use jc_bytes::{Memory, Refusal};
use jc_command_work::{InputFiles, Stop, Write};
use std::alloc::Global;

/// What a class file is to a command, and what was made of it.
#[derive(Drop)]
pub enum Seen<X> {
    /// It is refused.
    Refused(Refusal),
    /// Its class is unchanged.
    Unchanged,
    /// Its class is changed, and this was made of it.
    Changed { id: u64, made: X },
}

/// What is kept of class files.
#[derive(Drop)]
pub struct Kept<'a, X> {
    /// A line for each that is refused.
    pub lines: Vec<Write<'a>>,
    /// What was made of the changed classes, the first of each id.
    pub made: Vec<X>,
    /// Their ids.
    pub ids: IndexSet<u64>,
}

/// Keeps the line of a class file that is refused.
fn keep_refused<'a, X: Drop>(
    alloc: Global,
    kept: &mut Kept<'a, X>,
    path: &str,
    refusal: Refusal,
) -> Result<(), Memory>
    ensures { OnOk result (KeepsRefused path.now refusal kept.old kept.new) }
{
    let text = refused_line(alloc, path, refusal)?;
    kept.lines.push(Write::Err { text })?;
    Ok(())
}

/// Keeps what was made of a changed class, unless its id came before.
fn keep_changed<X: Drop>(kept: &mut Kept<'_, X>, id: u64, made: X) -> Result<(), Memory>
    ensures { OnOk result (KeepsChanged id made kept.old kept.new) }
{
    let (_, is_new) = kept.ids.insert_full(id)?;
    if is_new {
        kept.made.push(made)?;
    }
    Ok(())
}

/// Keeps what was seen of a class file.
fn keep_seen<'a, X: Drop>(
    alloc: Global,
    kept: &mut Kept<'a, X>,
    path: &str,
    seen: Seen<X>,
) -> Result<(), Memory>
    ensures { OnOk result (KeepsSeen path.now seen kept.old kept.new) }
{
    match seen {
        Seen::Refused(refusal) => keep_refused(alloc, kept, path, refusal),
        Seen::Unchanged => Ok(()),
        Seen::Changed { id, made } => keep_changed(kept, id, made),
    }
}

/// Keeps what was seen of the class files, in order, or stops as the first of them does that stops the command.
pub fn keep_all<'a, X: Drop>(
    alloc: Global,
    inputs: &InputFiles<'_>,
    answers: Vec<Result<Seen<X>, Stop<'a>>>,
) -> Result<Kept<'a, X>, Stop<'a>>
    requires texts { length answers.items ≡ length inputs.now.texts }
    requires paths { length answers.items ≡ length inputs.now.paths }
    ensures all { IfOk result (KeepsAll inputs.now.paths answers.entry.items) }
    ensures stop { IfErr result (StopsFirst answers.entry.items) }
{
    let mut kept = Kept {
        lines: Vec::new(alloc),
        made: Vec::new(alloc),
        ids: IndexSet::new(alloc),
    };
    'keeping: for (index, answer) in answers.into_iter().enumerate() {
        keep_seen(alloc, &mut kept, inputs.path(index), answer?)?;
    }
    Ok(kept)
}
