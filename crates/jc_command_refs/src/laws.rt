//! A law of the work of `refs`.
ghost use Rattle.std.specs.Prelude.{List};
ghost use Rattle.jc_command_work.specs.Step.{Word};
ghost use Rattle.jc_command_work.specs.Answered.{HasOneAnswer};
ghost use Rattle.jc_command_refs.specs.RefsAnswers.{RefsFiles};

/// Of what may be read of class files there is exactly one answer of `refs`, whatever numbers the classes in the frames are given
/// when the files are linked.
pub fn refs_have_an_answer()
    ensures { (paths : List Word) → HasOneAnswer paths (RefsFiles paths) }
{}
