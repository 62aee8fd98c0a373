//! The text of rules: `counter=A/B`, parted by commas.
ghost use Rattle.std.specs.Prelude.{◌≡◌, ◌<◌, ◌≤◌, None, Some, IfOk, MatchBool};
ghost use Rattle.std.specs.Option.{option_map};
ghost use Rattle.std.specs.List.{list_any};
ghost use Rattle.jc_command_words.specs.RulesRead.{cut_at, kind_in, rule_in, rules_of, same_kind, whole_up_to, with_rule};
ghost use Rattle.jc_command_words.specs.RulesOutcome.{RulesRead, rules_seen};

use crate::number::number_up_to;
use jc_bytes::Memory;
use jc_rules::{CounterKind, Rule};
use std::alloc::Global;

/// The counter of this name.
fn kind_in(text: &str) -> Option<CounterKind>
    ensures { result ≡ kind_in text.now }
{
    match text {
        "instruction" => Some(CounterKind::Instruction),
        "branch" => Some(CounterKind::Branch),
        "line" => Some(CounterKind::Line),
        "complexity" => Some(CounterKind::Complexity),
        "method" => Some(CounterKind::Method),
        "class" => Some(CounterKind::Class),
        _ => None,
    }
}

/// The number from 0 to the most that a word spells without sign and leading zero.
fn whole_up_to(most: u32, word: &str) -> Option<u32>
    requires { most ≤ 1000000 }
    ensures { result ≡ whole_up_to most word.now }
{
    match word {
        "0" => Some(0),
        _ => number_up_to(most, word),
    }
}

/// What stands in front of the first such character, and what stands behind it.
fn cut_at(mark: char, text: &str) -> Option<(&str, &str)>
    requires { mark < 128 }
    ensures { option_map (λ parts. (parts.0.now, parts.1.now)) result ≡ cut_at mark text.now }
{
    text.split_once(mark)
}

/// The greatest number of parts.
const MOST_PARTS: u32 = 1_000_000;

/// The rule that a text spells.
#[tactic(auto, using(crate::proofs::RulesLaws::number_small))]
fn rule_in(text: &str) -> Option<Rule>
    ensures { result ≡ rule_in text.now }
{
    let (name, fraction) = cut_at('=', text)?;
    let counter = kind_in(name)?;
    let (least, of) = cut_at('/', fraction)?;
    let of = number_up_to(MOST_PARTS, of)?;
    let least = whole_up_to(of, least)?;
    Some(Rule { counter, least, of })
}

/// Whether a rule of this counter is among rules.
fn is_taken(rules: &[Rule], counter: CounterKind) -> bool
    ensures { result ≡ list_any (λ r. same_kind r.counter counter) rules.now }
{
    rules.iter().any(|r| r.counter == counter)
}

/// Puts the rule that a text spells behind others, if it is one and of another counter than each of them.
fn put_rule(rules: &mut Vec<Rule>, text: &str) -> Result<bool, Memory>
    ensures { IfOk result (λ put. MatchBool put (with_rule rules.old.items (rule_in text.now) ≡ Some rules.new.items)
        (with_rule rules.old.items (rule_in text.now) ≡ None)) }
{
    let Some(rule) = rule_in(text) else {
        return Ok(false);
    };
    if is_taken(rules.as_slice(), rule.counter) {
        return Ok(false);
    }
    rules.push(rule)?;
    Ok(true)
}

/// The rules that a text spells, part by part.
fn rules_of(alloc: Global, text: &str) -> Result<Option<Vec<Rule>>, Memory>
    ensures { IfOk result (λ o. rules_seen o ≡ rules_of text.now) }
{
    let mut rules = Vec::new(alloc);
    let mut rest = text;
    'reading: while let Some((first, behind)) = cut_at(',', rest) {
        if !put_rule(&mut rules, first)? {
            return Ok(None);
        }
        rest = behind;
    }
    if put_rule(&mut rules, rest)? {
        Ok(Some(rules))
    } else {
        Ok(None)
    }
}

/// The rules that a text spells: `counter=A/B`, parted by commas.
///
/// A counter is `instruction`, `branch`, `line`, `complexity`, `method` or `class`, each at most once. A and B are decimal
/// without sign and leading zero, B from 1 to 1,000,000, and A from 0 to B.
///
/// # Errors
///
/// `Memory` where memory was refused.
pub fn rules_in(alloc: Global, text: &str) -> Result<Option<Vec<Rule>>, Memory>
    ensures read { IfOk result (RulesRead text.now) }
    ensures decided { IfOk result (λ o. rules_seen o ≡ rules_of text.now) }
{
    rules_of(alloc, text)
}
