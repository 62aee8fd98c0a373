//! Laws of instrumented class files that are linked.
ghost use Rattle.std.specs.Prelude.{◌≤◌, ◌⊎◌, ℕ, List, length};
ghost use Rattle.std.specs.List.{AllByRecursion};
ghost use Rattle.jc_bytes.specs.ByteLists.{AreBytes};
ghost use Rattle.jc_bytes.specs.Reader.{most_read};
ghost use Rattle.jc_programs.specs.declared.program.Program.{Program};
ghost use Rattle.jc_twin_programs.specs.TwinProgram.{TwinProgram};
ghost use Rattle.jc_instrument.specs.InstrumentedFile.{IsInstrumentedFile};
ghost use Rattle.jc_instrument.specs.declared.whole.Instrumented.{Instrumented};
ghost use Rattle.jc_link_programs.specs.Linking.{IsProgramOf, IsLinkRefusal};
ghost use Rattle.jc_link_programs.specs.declared.link_refusal.LinkRefusal.{LinkRefusal};
ghost use Rattle.jc_link_laws.specs.SecondLinking.{IsSecondRefusal};
ghost use Rattle.jc_link_laws.specs.TwinFiles.{IsShortFile, IsWrittenOf, TwinFiles};

use jc_bytes::Bytes;

/// Where accepted files are linked to a program, and what was written of them is linked to a program in the same order,
/// the texts of twins of the changed ones and the unchanged ones as they are, the second program is a twin of the first.
pub fn twins_link(originals: &[Bytes], written: &[Bytes])
    ensures { (p q : Program) → TwinFiles originals.now written.now → IsProgramOf originals.now p → IsProgramOf written.now q
        → TwinProgram p q }
{}

/// What an accepted file becomes that is instrumented is what is written of it.
pub fn each_instrumented_file_is_written()
    ensures { (bytes : List ℕ) (a : Instrumented) → AreBytes bytes → length bytes ≤ most_read → IsInstrumentedFile bytes a
        → IsWrittenOf bytes a.bytes }
{}

/// Class files, each of at most 67,108,864 bytes, have a program or a reason for which they have none. They never have
/// both: see [`jc_link_programs::files_have_a_program_or_one_refusal`].
pub fn files_have_a_program_or_a_refusal()
    ensures { (files : List (List ℕ)) → AllByRecursion IsShortFile files
        → ((p : Program) × IsProgramOf files p) ⊎ ((r : LinkRefusal) × IsLinkRefusal files r) }
{}

/// Where accepted files are linked to a program, and what was written of them isn't linked, a method of a twin has more
/// instructions times slots than the bound that [`jc_body::read_body`] has, as its new instructions and slots count too,
/// or two changed classes have one id. Nothing else refuses it.
pub fn twins_fail_to_link_by_size_or_by_id()
    ensures { (originals written : List (List ℕ)) (p : Program) (r : LinkRefusal) → TwinFiles originals written
        → IsProgramOf originals p → IsLinkRefusal written r → IsSecondRefusal originals written r }
{}
