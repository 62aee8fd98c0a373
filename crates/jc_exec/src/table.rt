//! Where the blocks of execution data are put.
ghost use Rattle.std.specs.Prelude.{◌≡◌, None, nat_eq, OnOk, IfSome, IfNone};
ghost use Rattle.std.specs.Map.{lookup};
ghost use Rattle.indexmap.specs.IndexMap.{insert_entry};
ghost use Rattle.jc_exec.specs.Adding.{Held, MergesHeld, with_session, with_records};
ghost use Rattle.jc_exec.specs.Store.{IsSmall, IsWritable, Keyed};

use crate::{ClassHits, ExecRefusal, Session};
use jc_bytes::Fail;
use std::alloc::{AllocError, Global};

/// Sessions, and records of classes, one for each id.
pub trait Table {
    /// The sessions, and the records under their ids.
    ghost held: { Self → Held };

    /// Puts a session last.
    fn push_session(&mut self, session: Session) -> Result<(), AllocError>
        requires { IsWritable session }
        ensures { OnOk result (held self.new ≡ with_session (held self.old) session) };

    /// Merges a record into the one of its id, if there is one and they agree.
    fn merge(&mut self, alloc: Global, hits: &ClassHits) -> Option<Result<(), Fail<ExecRefusal>>>
        requires there { Keyed (held self.old).records }
        requires hits { IsSmall hits.now }
        ensures none { IfNone result ((lookup (nat_eq hits.now.id) (held self.old).records ≡ None) × (held self.new ≡ held self.old)) }
        ensures some { IfSome result (λ r. MergesHeld r (held self.old) (held self.new) hits.now) };

    /// Puts a record of an id that has none behind the others.
    fn push(&mut self, alloc: Global, hits: ClassHits) -> Result<(), AllocError>
        requires none { lookup (nat_eq hits.id) (held self.old).records ≡ None }
        requires hits { IsSmall hits }
        ensures { OnOk result (held self.new ≡ with_records (held self.old) (insert_entry nat_eq (held self.old).records hits.id hits)) };
}
