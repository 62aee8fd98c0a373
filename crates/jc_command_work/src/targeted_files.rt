//! The files that a command reads, and the paths that it writes them to.
ghost use Rattle.std.specs.Prelude.{◌≡◌, ◌≤◌, ◌<◌, [], All, length, slice_index_or, IfOk};
ghost use Rattle.jc_bytes.specs.Reader.{most_read};
ghost use Rattle.jc_command_work.specs.Part.{reading_all};
ghost use Rattle.jc_command_work.specs.Ending.{DoesFiles};
ghost use Rattle.jc_command_work.specs.Handed.{BetweenFiles};
ghost use Rattle.jc_command_work.specs.Seen.{texts_of, stop_seen};

use crate::input_files::{InputFiles, copy_of, path_at, read_texts};
use crate::stop::Stop;
use jc_bytes::Bytes;
use jc_outside::Files;
use std::alloc::Global;
use std::marker::Model;

/// Files that a command has read, and the path that each is written to, in the same order.
#[derive(Drop)]
pub struct TargetedFiles<'a> {
    inputs: InputFiles<'a>,
    targets: Vec<&'a str>,
}

impl<'a> Model for TargetedFiles<'a> {
    ghost use Rattle.std.specs.Prelude.{◌≡◌, length};
    ghost use Rattle.jc_command_work.specs.Step.{FilesTargeted};
    ghost use Rattle.jc_command_work.specs.Seen.{texts_of};

    ghost Value = { FilesTargeted };

    ghost view = { λ f. record { inputs = f.inputs; targets = texts_of f.targets.items } };

    ghost invariant = { λ f. length f.targets.items ≡ length f.inputs.texts };
}

impl<'a> TargetedFiles<'a> {
    /// These files, and the path that each is written to.
    pub fn new(inputs: InputFiles<'a>, targets: Vec<&'a str>) -> TargetedFiles<'a>
        requires { length targets.items ≡ length inputs.texts }
        ensures inputs { result.inputs ≡ inputs.entry }
        ensures targets { result.targets ≡ texts_of targets.entry.items }
    {
        TargetedFiles { inputs, targets }
    }

    /// The files as they were read.
    pub fn inputs(&self) -> &InputFiles<'a>
        ensures { result.now ≡ self.now.inputs }
    {
        &self.inputs
    }

    /// The path of a file.
    pub fn path(&self, index: usize) -> &'a str
        requires { index < length self.now.inputs.texts }
        ensures { result.now ≡ slice_index_or self.now.inputs.paths index [] }
    {
        self.inputs.path(index)
    }

    /// The path that a file is written to.
    pub fn target(&self, index: usize) -> &'a str
        requires { index < length self.now.inputs.texts }
        ensures { result.now ≡ slice_index_or self.now.targets index [] }
    {
        path_at(&self.targets, index)
    }

    /// The bytes of a file, as they were read.
    pub fn text(&self, index: usize) -> &Bytes
        requires { index < length self.now.inputs.texts }
        ensures { result.now ≡ slice_index_or self.now.inputs.texts index [] }
    {
        self.inputs.text(index)
    }

    /// The bytes of the files, in order, as they were read.
    pub fn texts(&self) -> &[Bytes]
        ensures texts { result.now ≡ self.now.inputs.texts }
        ensures each { length result.now ≡ length self.now.inputs.paths }
        ensures short { All (λ t. length t ≤ most_read) result.now }
    {
        self.inputs.texts()
    }

    /// The files as they were read, and the path that each is written to.
    pub fn into_parts(self) -> (InputFiles<'a>, Vec<&'a str>)
        ensures inputs { result.0 ≡ self.entry.inputs }
        ensures targets { texts_of result.1.items ≡ self.entry.targets }
        ensures each { length result.1.items ≡ length result.0.texts }
    {
        let TargetedFiles { inputs, targets } = self;
        (inputs, targets)
    }
}

/// Reads what stands at the paths that files were written to, each under the path of its file, in order.
pub fn read_again<'a, F: Files>(
    alloc: Global,
    files: &mut F,
    targeted: &TargetedFiles<'a>,
) -> Result<InputFiles<'a>, Stop<'a>>
    ensures does { BetweenFiles F.Files files.old files.new (DoesFiles F.landed (reading_all targeted.entry.now.targets) (λ again. again.texts) stop_seen) result }
    ensures paths { IfOk result (λ again. again.paths ≡ targeted.entry.now.inputs.paths) }
{
    let paths = copy_of(alloc, targeted.inputs.paths())?;
    let texts = read_texts(alloc, files, &targeted.targets)?;
    Ok(InputFiles::new(paths, texts))
}
