//! Laws of arithmetic on ints and longs.
ghost use Rattle.std.specs.Prelude.{◌≡◌, ℤ, pos, List};
ghost use Rattle.jc_machine_model.specs.Values.{Value};
ghost use Rattle.jc_machine_model.specs.Arithmetic.{FitsInt, FitsLong, IntsWrap, LongsWrap, IntsDivide, LongsDivide};
ghost use Rattle.jc_machine_model.specs.Arithmetic.{ByZero, LeastByMinusOne, IntsShift, LongsShift, Compares, Narrows, Converts};

/// Sums, differences, products and negations wrap around (JVM Specification 6.5, iadd, isub, imul, ineg and those of longs).
pub fn sums_wrap_around()
    ensures ints { (x y : ℤ) (stack : List Value) → FitsInt x → FitsInt y → IntsWrap x y stack }
    ensures longs { (x y : ℤ) (stack : List Value) → FitsLong x → FitsLong y → LongsWrap x y stack }
{}

/// Division rounds towards zero. A division by zero raises [`zero`], and the least number divided by -1 is the least number
/// [`least`] (JVM Specification 6.5, idiv, irem, ldiv, lrem).
pub fn division_rounds_towards_zero()
    ensures ints { (x y : ℤ) (stack : List Value) → FitsInt x → (y ≡ pos 0 → ⊥) → IntsDivide x y stack }
    ensures longs { (x y : ℤ) (stack : List Value) → FitsLong x → (y ≡ pos 0 → ⊥) → LongsDivide x y stack }
    ensures zero { (x : ℤ) (stack : List Value) → ByZero x stack }
    ensures least { (stack : List Value) → LeastByMinusOne stack }
{}

/// An int is shifted by the five lowest bits of the count, and a long by the six lowest (JVM Specification 6.5, ishl, ishr,
/// iushr and those of longs).
pub fn shift_counts_are_masked()
    ensures ints { (x y : ℤ) (stack : List Value) → FitsInt x → FitsInt y → IntsShift x y stack }
    ensures longs { (x y : ℤ) (stack : List Value) → FitsLong x → FitsInt y → LongsShift x y stack }
{}

/// `lcmp` leaves -1, 0 or 1 where the first long is less, equal or greater (JVM Specification 6.5, lcmp).
pub fn longs_are_compared()
    ensures { (x y : ℤ) (stack : List Value) → Compares x y stack }
{}

/// An int is masked to a boolean and cut to a byte, a char or a short, and a long to an int (JVM Specification 6.5, i2b, i2c,
/// i2s, l2i).
pub fn numbers_are_narrowed()
    ensures stored { (x : ℤ) → FitsInt x → Narrows x }
    ensures converted { (x y : ℤ) (stack : List Value) → FitsInt x → FitsLong y → Converts x y stack }
{}
