//! Names, rows and files that were worked by hand from the form of JaCoCo's report. Each holds by computation.
ghost use Rattle.std.specs.Prelude.{◌≡◌, ◌++◌, [], ◌∷◌, Some, None, codes, map};
ghost use Rattle.jc_report.specs.Spelled.{shown};
ghost use Rattle.jc_report.specs.Names.{package_of, class_of};
ghost use Rattle.jc_report.specs.Rows.{rows_of};
ghost use Rattle.jc_report.specs.Csv.{written_field, header};
ghost use Rattle.examples_methods.specs.ReportExamples.{object, unordered, counted, file_of, half_covered, not_covered, calculator};

/// Names of nested and other classes, and of those that have no name of their own.
#[tactic(auto, unfolding(jc_report::specs::Split::split_at_last))]
pub fn worked_classes()
    ensures nested { class_of (codes "demo/Calc$In") object ≡ codes "Calc.In" }
    ensures anonymous { class_of (codes "demo/Calc$1") (Some (codes "java/lang/Runnable")) ≡ codes "Calc.new Runnable() {...}" }
    ensures inside { class_of (codes "a/B$C$12x") (Some (codes "x/Y$Z")) ≡ codes "B.C.new Y.Z() {...}" }
    ensures orphan { class_of (codes "demo/Calc$1") None ≡ codes "Calc.1" }
    ensures not_last { class_of (codes "demo/Calc$1$In") object ≡ codes "Calc.1.In" }
    ensures ends { class_of (codes "Calc$") object ≡ codes "Calc." }
    ensures outer { class_of (codes "a$1/B") object ≡ codes "a.new Object() {...}" }
    ensures alone { class_of (codes "$1") object ≡ codes ".new Object() {...}" }
{}

/// Names of packages.
#[tactic(auto, unfolding(jc_report::specs::Split::split_at_last))]
pub fn worked_packages()
    ensures deep { package_of (codes "org/demo/Calc") ≡ codes "org.demo" }
    ensures nowhere { package_of (codes "Calc") ≡ codes "default" }
    ensures empty { package_of (codes "/A") ≡ codes "default" }
{}

/// Texts that names spell: the character 0, and one that takes two units of UTF-16. Half of such a pair, and bytes that
/// are no modified UTF-8, stay.
pub fn worked_texts()
    ensures zero { shown (0xc0 ∷ 0x80 ∷ []) ≡ 0 ∷ [] }
    ensures pair { shown (0xed ∷ 0xa0 ∷ 0xbd ∷ 0xed ∷ 0xb8 ∷ 0x80 ∷ []) ≡ 0xf0 ∷ 0x9f ∷ 0x98 ∷ 0x80 ∷ [] }
    ensures half { shown (0x41 ∷ 0xed ∷ 0xa0 ∷ 0xbd ∷ []) ≡ 0x41 ∷ 0xed ∷ 0xa0 ∷ 0xbd ∷ [] }
    ensures no_text { shown (0x41 ∷ 0xff ∷ []) ≡ 0x41 ∷ 0xff ∷ [] }
{}

/// Fields with a comma, a quote or the end of a line are quoted, and others aren't.
pub fn worked_fields()
    ensures quoted { written_field (codes "a,\"b") ≡ codes "\"a,\"\"b\"" }
    ensures line_feed { written_field (codes "a\nb") ≡ codes "\"a\nb\"" }
    ensures carriage_return { written_field (codes "a\rb") ≡ codes "\"a\rb\"" }
    ensures plain { written_field (codes "a b") ≡ codes "a b" }
{}

/// Rows stand by package, class and class id, and a class without an instruction that counts has none.
pub fn worked_order()
    ensures { map (λ r. r.id) (rows_of (codes "R") unordered) ≡ 7 ∷ 3 ∷ 9 ∷ 1 ∷ [] }
{}

/// Whole files.
pub fn worked_files()
    ensures nothing { file_of (codes "R") ([]) ≡ header }
    ensures half { file_of (codes "R") (counted 1 (codes "A") half_covered ∷ [])
        ≡ header ++ codes "R,default,A,3,4,1,1,0,0,1,1,0,1\n" }
    ensures missed { file_of (codes "R") (counted 1 (codes "A") not_covered ∷ [])
        ≡ header ++ codes "R,default,A,7,0,2,0,0,0,2,0,1,0\n" }
    ensures calculator { file_of (codes "JaCoCo Coverage Report") (counted 1 (codes "demo/Calc") calculator ∷ [])
        ≡ header ++ codes "JaCoCo Coverage Report,demo,Calc,8,8,1,1,3,3,3,2,2,2\n" }
    ensures quoted { file_of (codes "a,b") (counted 1 (codes "A") half_covered ∷ [])
        ≡ header ++ codes "\"a,b\",default,A,3,4,1,1,0,0,1,1,0,1\n" }
{}
