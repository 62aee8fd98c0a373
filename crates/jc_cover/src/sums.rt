//! Counters put together from instructions and methods.
ghost use Rattle.std.specs.Prelude.{◌≡◌, ◌+◌, ◌<◌, ◌≤◌, ◌^◌, length};
ghost use Rattle.jc_cover.specs.Counters.{count_of};
ghost use Rattle.jc_cover.specs.Sums.{no_items, one_item, plus_count, plus, no_sums, IsSmallCount, AreSmall};
ghost use Rattle.jc_cover.specs.Sums.{paths, insn_sums, method_sums, own_sums, insns_weight};

use crate::coverage::Count;
use jc_bytes::List;

/// The counters of a class but that of its lines.
#[derive(Clone, Copy, Debug, PartialEq, Eq)]
pub struct Sums {
    pub instruction: Count,
    pub branch: Count,
    pub complexity: Count,
    pub method: Count,
}

/// No item.
fn no_items() -> Count
    ensures { result ≡ no_items }
{
    Count {
        missed: 0,
        covered: 0,
    }
}

/// One item.
fn one_item(covered: bool) -> Count
    ensures { result ≡ one_item covered }
{
    if covered {
        Count {
            missed: 0,
            covered: 1,
        }
    } else {
        Count {
            missed: 1,
            covered: 0,
        }
    }
}

/// Both together.
fn plus_count(a: Count, b: Count) -> Count
    requires { IsSmallCount (plus_count a b) }
    ensures { result ≡ plus_count a b }
{
    Count {
        missed: a.missed + b.missed,
        covered: a.covered + b.covered,
    }
}

/// Both together.
pub fn plus(a: Sums, b: Sums) -> Sums
    requires { AreSmall (plus a b) }
    ensures { result ≡ plus a b }
{
    Sums {
        instruction: plus_count(a.instruction, b.instruction),
        branch: plus_count(a.branch, b.branch),
        complexity: plus_count(a.complexity, b.complexity),
        method: plus_count(a.method, b.method),
    }
}

/// How many of an instruction's branches are missed, and how many are covered.
pub fn branch_count(values: &[bool]) -> Count
    requires { length values.now < 2 ^ 32 }
    ensures { result ≡ count_of (λ value. value) values.now }
{
    let mut count = no_items();
    'counting: for value in values {
        count = plus_count(count, one_item(*value));
    }
    count
}

/// What an instruction with so many branches adds to complexity.
fn paths(branches: Count) -> Count
    requires some { 1 ≤ branches.missed + branches.covered }
    requires few { branches.missed + branches.covered < 2 ^ 32 }
    ensures { result ≡ paths branches }
{
    let covered = branches.covered.saturating_sub(1);
    Count {
        missed: branches.missed + branches.covered - 1 - covered,
        covered,
    }
}

/// What an instruction adds to the counters.
fn insn_sums(values: &[bool]) -> Sums
    requires { length values.now < 2 ^ 32 }
    ensures { result ≡ insn_sums values.now }
{
    let branches = branch_count(values);
    let instruction = one_item(branches.covered > 0);
    let none = no_items();
    if values.len() < 2 {
        return Sums {
            instruction,
            branch: none,
            complexity: none,
            method: none,
        };
    }
    Sums {
        instruction,
        branch: branches,
        complexity: paths(branches),
        method: none,
    }
}

/// What a method adds to the counters beside its instructions.
fn own_sums(covered: bool) -> Sums
    ensures { result ≡ own_sums covered }
{
    Sums {
        instruction: no_items(),
        branch: no_items(),
        complexity: one_item(covered),
        method: one_item(covered),
    }
}

/// Those of nothing.
pub fn no_sums() -> Sums
    ensures { result ≡ no_sums }
{
    Sums {
        instruction: no_items(),
        branch: no_items(),
        complexity: no_items(),
        method: no_items(),
    }
}

/// What a method with its instructions adds to the counters.
pub fn method_sums(insns: &[List<bool>]) -> Sums
    requires { insns_weight insns.now < 2 ^ 32 }
    ensures { result ≡ method_sums insns.now }
{
    let mut sums = no_sums();
    'counting: for values in insns {
        sums = plus(sums, insn_sums(values));
    }
    plus(own_sums(sums.instruction.covered > 0), sums)
}
