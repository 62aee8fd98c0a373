//! Coverage and counters that were worked by hand from JaCoCo's documentation. Each holds by computation.
ghost use Rattle.std.specs.Prelude.{◌≡◌, ◌∷◌, [], true, false, Some, None};
ghost use Rattle.examples_methods.specs.BodyExamples.{abs, counts_down, switches, catches};
ghost use Rattle.jc_cover.specs.Marking.{marks_of, body_values};
ghost use Rattle.jc_cover.specs.Counters.{line_of};
ghost use Rattle.examples_methods.specs.CoverageExamples.{counters_with, counters, count, inc, one_line, dead_loop, dead_circle, mixed_lines, calc, calc_hits};

/// The values of each branch, by instruction.
pub fn worked_values()
    ensures abs { body_values (abs []) 0 (false ∷ true ∷ [])
        ≡ (true ∷ []) ∷ (false ∷ true ∷ []) ∷ (false ∷ []) ∷ (false ∷ []) ∷ (false ∷ []) ∷ (true ∷ []) ∷ (true ∷ []) ∷ [] }
    ensures never { body_values (abs []) 0 []
        ≡ (false ∷ []) ∷ (false ∷ false ∷ []) ∷ (false ∷ []) ∷ (false ∷ []) ∷ (false ∷ []) ∷ (false ∷ []) ∷ (false ∷ []) ∷ [] }
    ensures catches { marks_of catches 0 (true ∷ false ∷ true ∷ [])
        ≡ true ∷ true ∷ false ∷ false ∷ false ∷ false ∷ true ∷ true ∷ true ∷ [] }
    ensures dead_loop { body_values dead_loop 0 (false ∷ true ∷ [])
        ≡ (false ∷ []) ∷ (true ∷ []) ∷ (true ∷ true ∷ []) ∷ (true ∷ []) ∷ (true ∷ []) ∷ [] }
    ensures loop_missed { body_values dead_loop 0 (true ∷ false ∷ [])
        ≡ (true ∷ []) ∷ (false ∷ []) ∷ (false ∷ false ∷ []) ∷ (false ∷ []) ∷ (false ∷ []) ∷ [] }
    ensures dead_circle { body_values dead_circle 0 (true ∷ true ∷ []) ≡ (true ∷ []) ∷ (false ∷ []) ∷ (false ∷ []) ∷ [] }
{}

/// The counters of a class.
pub fn worked_counters()
    ensures abs { counters_with (abs [] ∷ []) (false ∷ true ∷ [])
        ≡ counters (count 3 4) (count 1 1) (count 0 0) (count 1 1) (count 0 1) }
    ensures never { counters_with (abs [] ∷ []) [] ≡ counters (count 7 0) (count 2 0) (count 0 0) (count 2 0) (count 1 0) }
    ensures down_from_0 { counters_with (counts_down ∷ []) (false ∷ true ∷ [])
        ≡ counters (count 2 3) (count 1 1) (count 0 0) (count 1 1) (count 0 1) }
    ensures down_from_2 { counters_with (counts_down ∷ []) (true ∷ true ∷ [])
        ≡ counters (count 0 5) (count 0 2) (count 0 0) (count 0 2) (count 0 1) }
    ensures switches { counters_with (switches ∷ []) (false ∷ true ∷ true ∷ false ∷ [])
        ≡ counters (count 2 6) (count 2 2) (count 0 0) (count 2 1) (count 0 1) }
    ensures catches { counters_with (catches ∷ []) (true ∷ false ∷ true ∷ [])
        ≡ counters (count 4 5) (count 0 0) (count 0 0) (count 0 1) (count 0 1) }
    ensures inc { counters_with (inc ∷ []) (true ∷ []) ≡ counters (count 0 5) (count 0 0) (count 0 0) (count 0 1) (count 0 1) }
    ensures inc_missed { counters_with (inc ∷ []) (false ∷ [])
        ≡ counters (count 5 0) (count 0 0) (count 0 0) (count 1 0) (count 1 0) }
    ensures one_line { counters_with one_line (true ∷ false ∷ [])
        ≡ counters (count 1 1) (count 0 0) (count 0 1) (count 1 1) (count 1 1) }
    ensures calc { counters_with calc calc_hits ≡ counters (count 8 8) (count 1 1) (count 3 3) (count 3 2) (count 2 2) }
{}

/// The line of an instruction.
pub fn worked_lines()
    ensures none { line_of mixed_lines 1 ≡ None }
    ensures first { line_of mixed_lines 2 ≡ Some 5 }
    ensures next { line_of mixed_lines 3 ≡ Some 7 }
    ensures last { line_of mixed_lines 4 ≡ Some 8 }
    ensures behind { line_of mixed_lines 5 ≡ Some 8 }
{}
