//! Where switches lead (JVM Specification 6.5, tableswitch, lookupswitch).
ghost use Rattle.std.specs.Prelude.{◌≡◌};
ghost use Rattle.jc_methods.specs.Insn.{IsAscending, IsWellFormed};
ghost use Rattle.jc_plan.specs.Chosen.{table_target, lookup_target, key_target};

use jc_methods::{Arm, Insn};

/// Where `tableswitch` leads with a key.
pub fn table_target(low: i32, default: u32, arms: &[u32], key: i32) -> u32
    ensures { result ≡ table_target low default arms.now key }
{
    if key < low {
        return default;
    }
    match arms.get(key.abs_diff(low) as usize) {
        Some(to) => *to,
        None => default,
    }
}

/// Where `lookupswitch` leads with a key. The keys of the arms ascend.
pub fn lookup_target(default: u32, arms: &[Arm], key: i32) -> u32
    requires { IsAscending arms.now }
    ensures { result ≡ lookup_target default arms.now key }
{
    let mut low = 0;
    let mut high = arms.len();
    'searching: while low < high {
        let middle = low + (high - low) / 2;
        let arm = arms[middle];
        if arm.key == key {
            return arm.to;
        }
        if key < arm.key {
            high = middle;
        } else {
            low = middle + 1;
        }
    }
    default
}

/// Where a switch leads with a key; 0 for another instruction.
pub fn switch_target(insn: &Insn, key: i32) -> u32
    requires { IsWellFormed insn.now }
    ensures { result ≡ key_target insn.now key }
{
    match insn {
        Insn::Table { low, default, arms } => table_target(*low, *default, arms.as_slice(), key),
        Insn::Lookup { default, arms } => lookup_target(*default, arms.as_slice(), key),
        _ => 0,
    }
}
