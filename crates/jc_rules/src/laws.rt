//! Laws of lines and their statuses. These functions have no code.
ghost use Rattle.std.specs.Prelude.{◌≡◌, ℕ, List};
ghost use Rattle.jc_cover.specs.Counters.{Method};
ghost use Rattle.jc_rules.specs.declared.status.LineState.{LineState};
ghost use Rattle.jc_rules.specs.declared.status.LineStatus.{LineStatus};
ghost use Rattle.jc_rules.specs.LineList.{IsLineList};
ghost use Rattle.jc_rules.specs.Status.{IsLineStatus};

/// A line has one status.
pub fn each_line_has_one_status()
    ensures { (methods : List Method) (number : ℕ) (a b : LineState)
        → IsLineStatus methods number a → IsLineStatus methods number b → a ≡ b }
{}

/// The methods of a class have one list of lines.
pub fn each_class_has_one_line_list()
    ensures { (methods : List Method) (a b : List LineStatus) → IsLineList methods a → IsLineList methods b → a ≡ b }
{}

/// They have a list of lines, whatever their instructions are.
pub fn each_class_has_a_line_list()
    ensures { (methods : List Method) → (list : List LineStatus) × IsLineList methods list }
{}
