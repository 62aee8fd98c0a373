//! Laws of names and rows. These functions have no code.
//!
//! [`rows_stand_in_order`] is the promise of this crate; the others are steps, which the crates above cite too.
ghost use Rattle.std.specs.Prelude.{◌≡◌, ◌↔◌, ℕ, List, Some, None};
ghost use Rattle.std.specs.Cmp.{IsTotalOrder};
ghost use Rattle.jc_report.specs.declared.row.Row.{Row};
ghost use Rattle.jc_report.specs.Spelled.{IsShown, shown};
ghost use Rattle.jc_report.specs.Split.{IsSplitAtLast, split_at_last};
ghost use Rattle.jc_report.specs.Order.{IsInOrder, in_order};
ghost use Rattle.jc_report.specs.Rows.{row_cmp, row_lt};

/// Rows are in order by package, class and class id, and rows of one order stand as before. No other
/// list of the rows is in this order.
pub fn rows_stand_in_order()
    ensures total { IsTotalOrder row_cmp }
    ensures order { (rows : List Row) → IsInOrder row_lt rows (in_order row_lt rows) }
    ensures only { (rows ordered : List Row) → IsInOrder row_lt rows ordered → ordered ≡ in_order row_lt rows }
{}

/// What is shown of a name is the text that it spells, or its bytes where it spells none.
pub fn each_name_is_shown()
    ensures shown { (name : List ℕ) → IsShown name (shown name) }
    ensures one { (name text other : List ℕ) → IsShown name text → IsShown name other → text ≡ other }
{}

/// A text is split at the last of the bytes that are asked for, and it has no such byte where it isn't split.
pub fn each_split_is_at_the_last()
    ensures found { (byte : ℕ) (text front back : List ℕ)
        → (split_at_last byte text ≡ Some (front, back)) ↔ IsSplitAtLast byte text front back }
    ensures none { (byte : ℕ) (text front back : List ℕ) → split_at_last byte text ≡ None
        → IsSplitAtLast byte text front back → ⊥ }
{}
