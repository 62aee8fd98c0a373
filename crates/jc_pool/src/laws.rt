//! Laws of the grammar of constant pools.
//!
//! [`one_reading`] is the promise of this crate; the others are steps, which the crates above cite too.
ghost use Rattle.std.specs.Prelude.{◌≡◌, ◌⊎◌, ◌++◌, ℕ, ℤ, List, Some};
ghost use Rattle.jc_pool.specs.Pool.{PoolValue};
ghost use Rattle.jc_bytes.specs.ByteLists.{AreBytes};
ghost use Rattle.jc_pool.specs.PoolGrammar.{pool};
ghost use Rattle.jc_pool.specs.Adding.{HasUtf8, HasClass, HasString, HasInteger, HasLong, HasMember, IsMemberTag, Extends, Keeps, KeepsFirst, AtMostOne};
ghost use Rattle.jc_pool.specs.Adding.{HasHandle, HasComputed};
ghost use Rattle.jc_pool.specs.Lookup.{utf8_of, class_name_of, string_of, integer_of, long_of, Member, member_of, Handle, handle_of, Computed, computed_of};

/// Bytes begin with a pool or fail as one, and never both, and they begin with one pool alone.
pub fn one_reading()
    ensures each { (bytes : List ℕ)
        → ((value : PoolValue) × (text rest : List ℕ) × (bytes ≡ text ++ rest) × pool.Text text value)
        ⊎ ((left : List ℕ) × pool.Fails bytes left) }
    ensures apart { (text rest left : List ℕ) (value : PoolValue) → pool.Text text value → pool.Fails (text ++ rest) left → ⊥ }
    ensures one { (text more rest left : List ℕ) (value other : PoolValue) → text ++ rest ≡ more ++ left
        → pool.Text text value → pool.Text more other → (value ≡ other) × (rest ≡ left) }
    ensures once { (bytes left other : List ℕ) → pool.Fails bytes left → pool.Fails bytes other → left ≡ other }
{}

/// A pool has one text, so what was read is written back byte for byte.
pub fn one_text()
    ensures { (text other : List ℕ) (value : PoolValue) → AreBytes text → AreBytes other → pool.Text text value
        → pool.Text other value → text ≡ other }
{}

/// A pool to which an entry is added has it at the place that is answered, and all that stood in it.
/// A class keeps its first place, whatever class is added. For each content there is one such pool, and
/// one such place.
pub fn added_entries()
    ensures utf8 { (old new : PoolValue) (text : List ℕ) (place : ℕ) → HasUtf8 old text new place → utf8_of new place ≡ Some text }
    ensures class { (old new : PoolValue) (name : List ℕ) (place : ℕ) → HasClass old name new place → class_name_of new place ≡ Some name }
    ensures string { (old new : PoolValue) (text : List ℕ) (place : ℕ) → HasString old text new place → string_of new place ≡ Some text }
    ensures integer { (old new : PoolValue) (value : ℤ) (place : ℕ) → HasInteger old value new place → integer_of new place ≡ Some value }
    ensures long { (old new : PoolValue) (value : ℤ) (place : ℕ) → HasLong old value new place → long_of new place ≡ Some value }
    ensures member { (old new : PoolValue) (m : Member) (place : ℕ) → IsMemberTag m.tag → HasMember old m new place → member_of new place ≡ Some m }
    ensures utf8_kept { (old new : PoolValue) → Extends old new → Keeps (utf8_of old) (utf8_of new) }
    ensures class_kept { (old new : PoolValue) → Extends old new → Keeps (class_name_of old) (class_name_of new) }
    ensures string_kept { (old new : PoolValue) → Extends old new → Keeps (string_of old) (string_of new) }
    ensures integer_kept { (old new : PoolValue) → Extends old new → Keeps (integer_of old) (integer_of new) }
    ensures long_kept { (old new : PoolValue) → Extends old new → Keeps (long_of old) (long_of new) }
    ensures member_kept { (old new : PoolValue) → Extends old new → Keeps (member_of old) (member_of new) }
    ensures first_kept { (old new : PoolValue) (name : List ℕ) (place : ℕ) → HasClass old name new place
        → KeepsFirst (class_name_of old) (class_name_of new) }
    ensures one_utf8 { (old : PoolValue) (text : List ℕ) → AtMostOne (HasUtf8 old text) }
    ensures one_class { (old : PoolValue) (name : List ℕ) → AtMostOne (HasClass old name) }
    ensures one_string { (old : PoolValue) (text : List ℕ) → AtMostOne (HasString old text) }
    ensures one_integer { (old : PoolValue) (value : ℤ) → AtMostOne (HasInteger old value) }
    ensures one_long { (old : PoolValue) (value : ℤ) → AtMostOne (HasLong old value) }
    ensures one_member { (old : PoolValue) (m : Member) → AtMostOne (HasMember old m) }
    ensures some_utf8 { (old : PoolValue) (text : List ℕ) → (new : PoolValue) × (place : ℕ) × HasUtf8 old text new place }
    ensures some_class { (old : PoolValue) (name : List ℕ) → (new : PoolValue) × (place : ℕ) × HasClass old name new place }
    ensures some_string { (old : PoolValue) (text : List ℕ) → (new : PoolValue) × (place : ℕ) × HasString old text new place }
    ensures some_integer { (old : PoolValue) (value : ℤ) → (new : PoolValue) × (place : ℕ) × HasInteger old value new place }
    ensures some_long { (old : PoolValue) (value : ℤ) → (new : PoolValue) × (place : ℕ) × HasLong old value new place }
    ensures some_member { (old : PoolValue) (m : Member) → (new : PoolValue) × (place : ℕ) × HasMember old m new place }
{}

/// A pool to which a method handle or a computed constant is added has it at the place that is
/// answered, and all that stood in it. For each content there is one such pool, and one such place. A
/// computed constant brings no int.
pub fn added_linked_entries()
    ensures handle { (old new : PoolValue) (h : Handle) (place : ℕ) → IsMemberTag h.target.tag → HasHandle old h new place → handle_of new place ≡ Some h }
    ensures computed { (old new : PoolValue) (c : Computed) (place : ℕ) → HasComputed old c new place → computed_of new place ≡ Some c }
    ensures handle_kept { (old new : PoolValue) → Extends old new → Keeps (handle_of old) (handle_of new) }
    ensures computed_kept { (old new : PoolValue) → Extends old new → Keeps (computed_of old) (computed_of new) }
    ensures one_handle { (old : PoolValue) (h : Handle) → AtMostOne (HasHandle old h) }
    ensures one_computed { (old : PoolValue) (c : Computed) → AtMostOne (HasComputed old c) }
    ensures some_handle { (old : PoolValue) (h : Handle) → (new : PoolValue) × (place : ℕ) × HasHandle old h new place }
    ensures some_computed { (old : PoolValue) (c : Computed) → (new : PoolValue) × (place : ℕ) × HasComputed old c new place }
    ensures ints { (old new : PoolValue) (c : Computed) (place : ℕ) → HasComputed old c new place
        → (at : ℕ) → integer_of new at ≡ integer_of old at }
{}
