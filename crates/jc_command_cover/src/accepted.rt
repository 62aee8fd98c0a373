//! The class files that weren't refused.
ghost use Rattle.std.specs.Prelude.{List, IfOk};
ghost use Rattle.jc_headline.specs.CoverWork.{LookedFile};
ghost use Rattle.jc_command_cover.specs.Accepted.{AreAccepted, AreOfAll, AreOfSome};
ghost use Rattle.jc_command_work.specs.Step.{Word};

use crate::accepted_items::accepted_of;
use jc_bytes::Memory;
use jc_command_work::{InputFiles, TargetedFiles};
use std::alloc::Global;

/// The class files that weren't refused, in order.
#[derive(Drop)]
pub struct Accepted<'a> {
    /// The place of each among all files.
    pub places: Vec<u32>,
    /// Its own path, its bytes as they were read, and the path that it was written to.
    pub files: TargetedFiles<'a>,
}

/// The accepted ones of class files, by their places: all files are given as they were read, and by the paths that they were
/// written to.
pub fn accepted_files<'a>(
    alloc: Global,
    files: TargetedFiles<'a>,
    places: Vec<u32>,
) -> Result<Accepted<'a>, Memory>
    requires { AreOfSome files places.items }
    ensures { (dest : Word) (looked : List LookedFile) → AreOfAll dest looked files.entry places.items → IfOk result (AreAccepted dest looked) }
{
    let (inputs, targets) = files.into_parts();
    let (paths, texts) = inputs.into_parts();
    let paths = accepted_of(alloc, paths, &places)?;
    let targets = accepted_of(alloc, targets, &places)?;
    let texts = accepted_of(alloc, texts, &places)?;
    let inputs = InputFiles::new(paths, texts);
    let files = TargetedFiles::new(inputs, targets);
    Ok(Accepted { places, files })
}
