//! Laws over the definitions of execution data. These functions have no code.
//!
//! [`one_answer_to_each_text`] is the promise of this crate; the others are steps, which the crates above cite too.
ghost use Rattle.std.specs.Prelude.{◌≡◌, ◌↔◌, ◌⊎◌, ℕ, [], ◌∷◌, List, Some};
ghost use Rattle.std.specs.List.{AllByRecursion};
ghost use Rattle.jc_bytes.specs.ByteLists.{AreBytes};
ghost use Rattle.jc_exec.specs.declared.session.Session.{Session};
ghost use Rattle.jc_exec.specs.Format.{Block, header, Blocks};
ghost use Rattle.jc_exec.specs.Store.{Store};
ghost use Rattle.jc_exec.specs.Refusing.{Refused, blocks_of, FirstRefusal, IsTaken, IsRefused, OneOfEachId};
ghost use Rattle.jc_exec.specs.Union.{IsUnion, union_of};
ghost use Rattle.jc_exec.specs.Groups.{IsUnionOf, texts_of_all, AreResults, MergesInGroups};
ghost use Rattle.jc_exec.specs.Writing.{by_dump, IsByDump, FitsFormat, written, exec_text};

/// Over a store with one record of each id, each text is execution data whose blocks have a union
/// with the store, or a block of it is the first that is not taken. No text is both, over any
/// store, and it is refused for one reason at most.
pub fn one_answer_to_each_text()
    ensures each { (before : Store) (text : List ℕ) → OneOfEachId before.classes → IsTaken before text ⊎ IsRefused before text }
    ensures apart { (before : Store) (text : List ℕ) (why : Refused) → IsTaken before text → FirstRefusal before text why → ⊥ }
    ensures one_reason { (before : Store) (text : List ℕ) (a b : Refused) → FirstRefusal before text a
        → FirstRefusal before text b → a ≡ b }
{}

/// A text is execution data of one list of blocks at most.
pub fn one_list_of_each_text()
    ensures { (text : List ℕ) (a b : List Block) → Blocks text a → Blocks text b → a ≡ b }
{}

/// A list of blocks has one union at most.
pub fn one_union_of_each_list()
    ensures { (blocks : List Block) (s t : Store) → IsUnion blocks s → IsUnion blocks t → s ≡ t }
{}

/// Blocks put into an empty store one after the other, each record merged into the one of its id,
/// make the union, exactly where there is one.
pub fn union_block_by_block()
    ensures { (blocks : List Block) (s : Store)
        → (union_of (record { sessions = []; classes = [] }) blocks ≡ Some s) ↔ IsUnion blocks s }
{}

/// Sessions are written by the time of their dump, those of one time in their order; and no other
/// list is in this order.
pub fn sessions_by_dump()
    ensures order { (sessions : List Session) → IsByDump sessions (by_dump sessions) }
    ensures only { (sessions ordered : List Session) → IsByDump sessions ordered → ordered ≡ by_dump sessions }
{}

/// What is written for a store is execution data: a header, the sessions by the time of their dump,
/// and the records that have a hit. Its union is the store of these.
pub fn what_is_written_is_read()
    ensures blocks { (store : Store) → FitsFormat store → Blocks (exec_text store) (header ∷ blocks_of (written store)) }
    ensures union { (store : Store) → OneOfEachId store.classes → IsUnion (header ∷ blocks_of (written store)) (written store) }
{}

/// Texts that have a union are merged alike in groups of consecutive ones: each group has a union, and so have the texts
/// that are written for the groups, with the same sessions and the same records that have a hit. Where each record
/// of the texts has a hit, the text that is written is the same. Groups have one list of results, and these one union.
pub fn groups_merge_alike()
    ensures taken { (groups : List (List (List ℕ))) (whole : Store) → AllByRecursion AreBytes (texts_of_all groups)
        → IsUnionOf (texts_of_all groups) whole → MergesInGroups groups whole }
    ensures one_list { (groups : List (List (List ℕ))) (a b : List (List ℕ)) → AreResults groups a → AreResults groups b → a ≡ b }
    ensures one_union { (texts : List (List ℕ)) (s t : Store) → IsUnionOf texts s → IsUnionOf texts t → s ≡ t }
{}
