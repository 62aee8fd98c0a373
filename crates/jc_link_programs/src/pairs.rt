//! The first two classes of one name, and of one id.
ghost use Rattle.std.specs.Prelude.{◌<◌, ◌^◌, length, IfOk, MatchOption};
ghost use Rattle.jc_link_programs.specs.Pairs.{HaveOneId, HaveOneName, IsFirstPair, NoPair};

use jc_bytes::{Memory, Names};
use jc_programs::Linked;
use std::alloc::Global;
use std::collections::BTreeMap;

/// The numbers of two classes.
#[derive(Clone, Copy, Debug, PartialEq, Eq)]
pub struct Pair {
    /// The lesser one.
    pub first: u32,
    /// The greater one.
    pub second: u32,
}

/// The first two classes of one name: those with the least second, and for it the least first.
pub fn first_of_one_name(alloc: Global, classes: &[Linked]) -> Result<Option<Pair>, Memory>
    requires { length classes.now < 2 ^ 32 }
    ensures { IfOk result (λ found. MatchOption found (NoPair (HaveOneName classes.now))
        (λ pair. IsFirstPair (HaveOneName classes.now) pair.first pair.second)) }
{
    let mut names = Names::new(alloc)?;
    'naming: for (second, class) in classes.iter().enumerate() {
        let first = names.number(alloc, &class.name)?;
        if (first as usize) < second {
            return Ok(Some(Pair {
                first,
                second: second as u32,
            }));
        }
    }
    Ok(None)
}

/// The first two classes whose probes have one id: those with the least second, and for it the least first.
pub fn first_of_one_id(alloc: Global, classes: &[Linked]) -> Result<Option<Pair>, Memory>
    requires { length classes.now < 2 ^ 32 }
    ensures { IfOk result (λ found. MatchOption found (NoPair (HaveOneId classes.now))
        (λ pair. IsFirstPair (HaveOneId classes.now) pair.first pair.second)) }
{
    let mut owners = BTreeMap::new(alloc);
    'owning: for (second, class) in classes.iter().enumerate() {
        if let Some(init) = class.probes {
            match owners.get(&init.id) {
                Some(first) => {
                    return Ok(Some(Pair {
                        first: *first,
                        second: second as u32,
                    }));
                }
                None => {
                    owners.insert(init.id, second as u32)?;
                }
            }
        }
    }
    Ok(None)
}
