//! The writes of dumps.
ghost use Rattle.std.specs.Prelude.{◌≡◌, ℕ, ◌<◌, ◌≤◌, ◌^◌, ◌++◌, [], ◌∷◌, length, IfOk};
ghost use Rattle.jc_command_run.specs.HitStore.{FitRecords};
ghost use Rattle.jc_command_work.specs.Answered.{writes_seen};
ghost use Rattle.jc_command_work.specs.Seen.{words_of, write_seen};
ghost use Rattle.jc_command_work.specs.Step.{to_file, to_out};
ghost use Rattle.jc_dump.specs.Dumps.{dump_at};
ghost use Rattle.jc_exec.specs.Writing.{exec_text};
ghost use Rattle.jc_machine.specs.Hits.{probe_counts};
ghost use Rattle.jc_programs.specs.Probes.{counts_of};
ghost use Rattle.jc_command_dumped.specs.DumpedAnswers.{dump_files, set_store};

use crate::options::DumpOptions;
use crate::program::DumpedRun;
use jc_bytes::Memory;
use jc_command_run::hit_store;
use jc_command_work::Write;
use jc_programs::{HitSet, Program};
use std::alloc::Global;

/// The write of hits to a file, as execution data.
fn hits_write<'a>(
    alloc: Global,
    program: &Program,
    path: &'a str,
    hits: &HitSet,
) -> Result<Write<'a>, Memory>
    requires counts { counts_of hits.now ≡ probe_counts program.now }
    requires few { length program.now.classes < 2 ^ 32 }
    requires fits { FitRecords program.now }
    ensures { IfOk result (λ write. write_seen write ≡ to_file path.entry.now (exec_text (set_store program.now hits.now))) }
{
    let store = hit_store(alloc, program, hits)?;
    let bytes = store.write(alloc)?;
    Ok(Write::File { path, bytes })
}

/// The writes of dumps, each to the file of its number.
fn dump_writes<'a>(
    alloc: Global,
    program: &Program,
    paths: &'a [String],
    dumps: &[HitSet],
) -> Result<Vec<Write<'a>>, Memory>
    requires counts { (d : ℕ) → d < length dumps.now → counts_of (dump_at dumps.now d) ≡ probe_counts program.now }
    requires enough { length dumps.now ≤ length paths.now }
    requires few { length program.now.classes < 2 ^ 32 }
    requires fits { FitRecords program.now }
    ensures { IfOk result (λ writes. writes_seen writes ≡ dump_files program.now (words_of paths.entry.now) dumps.now) }
{
    let mut writes = Vec::with_capacity(alloc, dumps.len())?;
    'writing: for index in 0..dumps.len() {
        let path = paths[index].as_str();
        writes.push(hits_write(alloc, program, path, &dumps[index])?)?;
    }
    Ok(writes)
}

/// The writes of what the cases of a run plan leave behind: the dumps, the hits that no dump has, and what is printed of the cases.
pub fn taken_writes<'a>(
    alloc: Global,
    program: &Program,
    options: &DumpOptions<'a>,
    ran: DumpedRun,
) -> Result<Vec<Write<'a>>, Memory>
    requires counts { (d : ℕ) → d < length ran.dumps → counts_of (dump_at ran.dumps d) ≡ probe_counts program.now }
    requires rest { counts_of ran.rest ≡ probe_counts program.now }
    requires enough { length ran.dumps ≤ length options.now.dumps.now }
    requires few { length program.now.classes < 2 ^ 32 }
    requires fits { FitRecords program.now }
    ensures { IfOk result (λ writes. writes_seen writes ≡ dump_files program.now (words_of options.entry.now.dumps.now) ran.dumps
        ++ to_file options.entry.now.destfile.now (exec_text (set_store program.now ran.rest)) ∷ to_out ran.text.items ∷ []) }
{
    let DumpedRun { dumps, rest, text } = ran;
    let mut writes = dump_writes(alloc, program, options.dumps, dumps.as_slice())?;
    writes.push(hits_write(alloc, program, options.destfile, &rest)?)?;
    writes.push(Write::Out { text })?;
    Ok(writes)
}
