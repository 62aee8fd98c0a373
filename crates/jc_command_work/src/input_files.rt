//! The files that a command reads.
ghost use Rattle.std.specs.Prelude.{◌≡◌, ◌≤◌, ◌<◌, ◌++◌, ◌∷◌, [], All, length, slice_index_or, IfOk, OnOk};
ghost use Rattle.jc_bytes.specs.Reader.{most_read};
ghost use Rattle.jc_command_work.specs.Part.{reading_all};
ghost use Rattle.jc_command_work.specs.Ending.{DoesFiles};
ghost use Rattle.jc_command_work.specs.Handed.{BetweenFiles};
ghost use Rattle.jc_command_work.specs.Seen.{texts_of, words_of, stop_seen};
ghost use Rattle.jc_command_work.specs.Step.{AreTexts};

use crate::input::{as_texts, read_one};
use crate::stop::Stop;
use jc_bytes::{Bytes, Memory};
use jc_outside::Files;
use std::alloc::Global;
use std::marker::Model;

/// The files that a command reads: their paths, as the words give them, and their bytes, in the same order.
#[derive(Drop)]
pub struct InputFiles<'a> {
    paths: Vec<&'a str>,
    texts: Vec<Bytes>,
}

impl<'a> Model for InputFiles<'a> {
    ghost use Rattle.jc_command_work.specs.Step.{AreTexts, FilesRead};
    ghost use Rattle.jc_command_work.specs.Seen.{texts_of};

    ghost Value = { FilesRead };

    ghost view = { λ f. record { paths = texts_of f.paths.items; texts = f.texts.items } };

    ghost invariant = { λ f. AreTexts (texts_of f.paths.items) f.texts.items };
}

/// The path at an index.
pub fn path_at<'a>(paths: &[&'a str], index: usize) -> &'a str
    requires { index < length paths.now }
    ensures { result.now ≡ slice_index_or (texts_of paths.now) index [] }
{
    paths[index]
}

impl<'a> InputFiles<'a> {
    /// Files of these paths and these bytes.
    pub fn new(paths: Vec<&'a str>, texts: Vec<Bytes>) -> InputFiles<'a>
        requires { AreTexts (texts_of paths.items) texts.items }
        ensures paths { result.paths ≡ texts_of paths.entry.items }
        ensures texts { result.texts ≡ texts.items }
    {
        InputFiles { paths, texts }
    }

    /// How many files there are.
    pub fn len(&self) -> usize
        ensures paths { result ≡ length self.now.paths }
        ensures texts { result ≡ length self.now.texts }
    {
        self.texts().len()
    }

    /// The paths of the files, in order.
    pub fn paths(&self) -> &[&'a str]
        ensures paths { texts_of result.now ≡ self.now.paths }
        ensures each { length result.now ≡ length self.now.texts }
    {
        &self.paths
    }

    /// The path of a file.
    pub fn path(&self, index: usize) -> &'a str
        requires { index < length self.now.texts }
        ensures { result.now ≡ slice_index_or self.now.paths index [] }
    {
        path_at(&self.paths, index)
    }

    /// The bytes of a file.
    pub fn text(&self, index: usize) -> &Bytes
        requires { index < length self.now.texts }
        ensures text { result.now ≡ slice_index_or self.now.texts index [] }
        ensures short { length result.now ≤ most_read }
    {
        &self.texts[index]
    }

    /// The bytes of the files, in order.
    pub fn texts(&self) -> &[Bytes]
        ensures texts { result.now ≡ self.now.texts }
        ensures read { AreTexts self.now.paths result.now }
        ensures each { length result.now ≡ length self.now.paths }
        ensures short { All (λ t. length t ≤ most_read) result.now }
    {
        &self.texts
    }

    /// The paths of the files and their bytes, each in order.
    pub fn into_parts(self) -> (Vec<&'a str>, Vec<Bytes>)
        ensures paths { texts_of result.0.items ≡ self.entry.paths }
        ensures texts { result.1.items ≡ self.entry.texts }
        ensures read { AreTexts (texts_of result.0.items) result.1.items }
        ensures each { length result.1.items ≡ length result.0.items }
    {
        let InputFiles { paths, texts } = self;
        (paths, texts)
    }
}

/// The same paths.
pub fn copy_of<'a>(alloc: Global, paths: &[&'a str]) -> Result<Vec<&'a str>, Memory>
    ensures { IfOk result (λ copy. copy.items ≡ paths.entry.now) }
{
    Ok(Vec::from_slice(alloc, paths)?)
}

/// Puts a text last.
fn keep(texts: &mut Vec<Bytes>, text: Bytes) -> Result<(), Memory>
    ensures { OnOk result (texts.new.items ≡ texts.old.items ++ text ∷ []) }
{
    texts.push(text)?;
    Ok(())
}

/// The bytes of the files at the paths, in order.
pub fn read_texts<'a, F: Files>(
    alloc: Global,
    files: &mut F,
    paths: &[&'a str],
) -> Result<Vec<Bytes>, Stop<'a>>
    ensures { BetweenFiles F.Files files.old files.new (DoesFiles F.landed (reading_all (texts_of paths.entry.now)) (λ texts. texts.items) stop_seen) result }
{
    let mut texts = Vec::new(alloc);
    'reading: for path in paths {
        let text = read_one(alloc, files, path)?;
        keep(&mut texts, text)?;
    }
    Ok(texts)
}

/// Reads the files at the paths, in order.
fn read_at<'a, F: Files>(
    alloc: Global,
    files: &mut F,
    paths: Vec<&'a str>,
) -> Result<InputFiles<'a>, Stop<'a>>
    ensures does { BetweenFiles F.Files files.old files.new (DoesFiles F.landed (reading_all (texts_of paths.entry.items)) (λ inputs. inputs.texts) stop_seen) result }
    ensures paths { IfOk result (λ inputs. inputs.paths ≡ texts_of paths.entry.items) }
{
    let texts = read_texts(alloc, files, &paths)?;
    Ok(InputFiles { paths, texts })
}

/// Reads the files at the paths, in order.
pub fn read_files<'a, F: Files>(
    alloc: Global,
    files: &mut F,
    paths: &[&'a str],
) -> Result<InputFiles<'a>, Stop<'a>>
    ensures does { BetweenFiles F.Files files.old files.new (DoesFiles F.landed (reading_all (texts_of paths.entry.now)) (λ inputs. inputs.texts) stop_seen) result }
    ensures paths { IfOk result (λ inputs. inputs.paths ≡ texts_of paths.entry.now) }
{
    let named = copy_of(alloc, paths)?;
    read_at(alloc, files, named)
}

/// Reads the files that were listed, in order.
pub fn read_listed<'a, F: Files>(
    alloc: Global,
    files: &mut F,
    paths: &'a [String],
) -> Result<InputFiles<'a>, Stop<'a>>
    ensures does { BetweenFiles F.Files files.old files.new (DoesFiles F.landed (reading_all (words_of paths.entry.now)) (λ inputs. inputs.texts) stop_seen) result }
    ensures paths { IfOk result (λ inputs. inputs.paths ≡ words_of paths.entry.now) }
{
    let named = as_texts(alloc, paths)?;
    read_at(alloc, files, named)
}
