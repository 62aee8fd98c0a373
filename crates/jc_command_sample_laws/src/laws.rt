//! Laws of samples of 1 to 1,000 methods.
ghost use Rattle.std.specs.Prelude.{◌≡◌, ◌≤◌, ℕ, List};
ghost use Rattle.jc_class.specs.ClassText.{ClassText};
ghost use Rattle.jc_command_work.specs.Step.{Step};
ghost use Rattle.jc_command_work.specs.Part.{End, done, stops};
ghost use Rattle.jc_command_sample.specs.SampleFile.{sample_file};
ghost use Rattle.jc_command_sample.specs.SampleWork.{sample_work};
ghost use Rattle.jc_command_sample_laws.specs.SampleClass.{sample_class_file};

/// The class file of a sample is the text of one class: the bytes are read as it.
pub fn each_sample_is_a_class()
    ensures { (n : ℕ) → 1 ≤ n → n ≤ 1000 → ClassText (sample_file n) (sample_class_file n) }
{}

/// By itself a sample is done: its class is instrumented and linked, what it becomes is short enough to be read, each thread has a
/// method to begin with, and the execution data fits the class. Else a call failed, or memory was refused.
pub fn each_sample_is_done()
    ensures { (n : ℕ) (steps : List Step) (end : End) → 1 ≤ n → n ≤ 1000 → sample_work n steps (stops end) → end ≡ done }
{}
