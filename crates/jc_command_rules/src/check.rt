//! The command `check`.
ghost use Rattle.std.specs.Prelude.{◌≡◌, ◌<◌, ◌^◌, ℕ, List, length, map, IfOk, OnOk};
ghost use Rattle.jc_command_classes.specs.ReportSteps.{data_records, data_path, IsReadOf, MakesWith};
ghost use Rattle.jc_command_work.specs.Answered.{AnswersAs, PreparesAs};
ghost use Rattle.jc_command_work.specs.Handed.{BetweenFiles};
ghost use Rattle.jc_command_work.specs.Seen.{words_of, write_seen};
ghost use Rattle.jc_command_rules.specs.CheckAnswers.{totals_by, IsJudged, IsVerdict};
ghost use Rattle.jc_command_rules.specs.Printing.{verdict_seen, PutsRule, CheckBy};

use crate::rule_text::{rule_text, total_for};
use jc_bytes::Memory;
use jc_command_classes::{Data, ExecInput, data_of, look_at_all};
use jc_command_work::{InputFiles, Stop, Write, read_listed};
use jc_outside::Files;
use jc_report::Counted;
use jc_rules::{Rule, Totalled, Totals, holds, totals};
use std::alloc::Global;
use std::marker::Sync;
use std::thread::Threads;

/// What `check` makes of class files.
#[derive(Drop)]
pub struct Checked<'a> {
    /// A line on `err` for each class file that is refused, and behind these a line on `out` for each rule.
    pub writes: Vec<Write<'a>>,
    /// Whether each rule holds.
    pub holds: bool,
}

/// What the counters of classes add up to.
fn totals_by(alloc: Global, classes: &[Counted]) -> Result<Totals, Memory>
    requires { length classes.now < 2 ^ 32 }
    ensures { IfOk result (λ totals. totals ≡ totals_by classes.now) }
{
    let mut totalled = Vec::with_capacity(alloc, classes.len())?;
    'taking: for class in classes {
        totalled.push(Totalled {
            counters: class.counters,
        })?;
    }
    Ok(totals(&totalled))
}

/// Puts the line of a rule last.
fn put_rule(
    alloc: Global,
    checked: &mut Checked<'_>,
    totals: &Totals,
    rule: &Rule,
) -> Result<(), Memory>
    ensures { OnOk result (PutsRule totals.now rule.now checked.old checked.new) }
{
    let is_held = holds(totals, rule);
    let line = rule_text(
        alloc,
        rule.counter,
        total_for(totals, rule.counter),
        is_held,
    )?;
    let text = line.into_bytes();
    checked.writes.push(Write::Out { text })?;
    checked.holds = checked.holds && is_held;
    Ok(())
}

/// The lines, and behind them a line for each rule, in order.
fn judged<'a>(
    alloc: Global,
    lines: Vec<Write<'a>>,
    totals: &Totals,
    rules: &[Rule],
) -> Result<Checked<'a>, Memory>
    ensures { IfOk result (λ checked. IsJudged (map write_seen lines.entry.items) totals.now rules.now (verdict_seen checked)) }
{
    let mut checked = Checked {
        writes: lines,
        holds: true,
    };
    'judging: for rule in rules {
        put_rule(alloc, &mut checked, totals, rule)?;
    }
    Ok(checked)
}

/// What is made of rules and of class files.
fn judged_files<'a, R: Threads + Sync>(
    rt: &R,
    alloc: Global,
    rules: &[Rule],
    exec_data: Option<&Data<'a>>,
    inputs: &InputFiles<'_>,
) -> Result<Checked<'a>, Stop<'a>>
    requires { length inputs.now.paths < 2 ^ 32 }
    ensures { MakesWith verdict_seen (IsVerdict rules.now inputs.now.paths) (data_records exec_data.entry) (data_path exec_data.entry)
        inputs.now.texts result }
{
    let kept = look_at_all(rt, alloc, exec_data, inputs)?;
    let totals = totals_by(alloc, &kept.made)?;
    Ok(judged(alloc, kept.lines, &totals, rules)?)
}

/// What is made of rules and of class files, of what was read.
fn judged_of<'a, R: Threads + Sync>(
    rt: &R,
    alloc: Global,
    rules: &[Rule],
    exec: Option<ExecInput<'a>>,
    inputs: &InputFiles<'_>,
) -> Result<Checked<'a>, Stop<'a>>
    requires { length inputs.now.paths < 2 ^ 32 }
    ensures { (read : List (List ℕ)) → IsReadOf exec.entry read
        → AnswersAs verdict_seen (CheckBy rules.now exec.entry read inputs.now.paths inputs.now.texts) result }
{
    let exec_data = data_of(exec)?;
    judged_files(rt, alloc, rules, exec_data.as_ref(), inputs)
}

/// The writes of `check --min RULES [--exec IN] FILE..`, where the execution data of IN has been read, and whether each rule
/// holds: a line on `err` for each class file that is refused, and then a line on `out` for each rule, in order.
///
/// # Errors
///
/// Those of `report`: `Read` with the path of the first class file that can't be read, before anything is refused. Then
/// `Refused` with the path of the execution data, where it is refused, or where a record of it clashes with a class. `Memory`
/// at any time.
pub fn prepare_check<'a, R: Threads + Sync, F: Files>(
    rt: &R,
    alloc: Global,
    files: &mut F,
    rules: &[Rule],
    exec: Option<ExecInput<'a>>,
    paths: &'a [String],
) -> Result<Checked<'a>, Stop<'a>>
    requires { length paths.now < 2 ^ 32 }
    ensures { (read : List (List ℕ)) → IsReadOf exec.entry read → BetweenFiles F.Files files.old files.new
        (PreparesAs verdict_seen F.landed (words_of paths.entry.now) (CheckBy rules.now exec.entry read (words_of paths.entry.now))) result }
{
    let inputs = read_listed(alloc, files, paths)?;
    judged_of(rt, alloc, rules, exec, &inputs)
}
