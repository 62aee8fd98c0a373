//! A caller of jc_exec.
ghost use Rattle.std.specs.Prelude.{◌≡◌, ◌⊎◌, ◌≤◌, ◌++◌, [], List, length, IfOk, IfErr};
ghost use Rattle.jc_bytes.specs.Reader.{most_read};
ghost use Rattle.jc_exec.specs.Answers.{Refuses};
ghost use Rattle.jc_exec.specs.Format.{Block, Blocks};
ghost use Rattle.jc_exec.specs.Store.{Store};
ghost use Rattle.jc_exec.specs.Union.{IsUnion};
ghost use Rattle.jc_exec.specs.Writing.{exec_text};

use jc_bytes::Fail;
use jc_exec::{ExecRefusal, ExecStore};
use std::alloc::Global;

/// The union of two files of execution data, as a file.
///
/// # Errors
///
/// `Memory` where memory was refused. Else the refusal of the first file, or of the second over what the first holds.
pub fn merged(alloc: Global, first: &[u8], second: &[u8]) -> Result<Vec<u8>, Fail<ExecRefusal>>
    requires first { length first.now ≤ most_read }
    requires second { length second.now ≤ most_read }
    ensures union { IfOk result (λ text. (a b : List Block) × (s : Store) × Blocks first.now a × Blocks second.now b
        × IsUnion (a ++ b) s × (text.items ≡ exec_text s)) }
    ensures refused { IfErr result (λ e. Refuses e (record { sessions = []; classes = [] }) first.now
        ⊎ ((a : List Block) × (s : Store) × Blocks first.now a × IsUnion a s × Refuses e s second.now)) }
{
    let mut store = ExecStore::new(alloc)?;
    store.read(alloc, first)?;
    store.read(alloc, second)?;
    Ok(store.write(alloc)?)
}
