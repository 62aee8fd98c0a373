//! The class files of a folder of the machine.
ghost use Rattle.std.specs.Prelude.{◌≡◌, ◌++◌, None, true, IfOk, OnOk, map, string_bytes};
ghost use Rattle.std.specs.Cmp.Lexicographic.{slice_cmp};
ghost use Rattle.std.specs.List.{AllPass};
ghost use Rattle.std.specs.List.Sorted.{IsStrictlySortedBy};
ghost use Rattle.std.specs.Ordering.{nat_cmp};
ghost use Rattle.jc_outside.specs.Folder.{is_class_name, is_class_file};
ghost use Rattle.jc_outside.specs.Outside.{ListGives};

use crate::FileFault;
use crate::folder::{is_class_name, make_front, put_last};
use crate::host_files::read_on;
use std::alloc::{AllocError, Global};
use std::{rt, str};

/// The names in a folder, each with a zero byte behind it.
fn read_names<R: rt::Files>(rt: &R, alloc: Global, folder: &str) -> Result<Vec<u8>, FileFault> {
    let mut names = Vec::new(alloc);
    let Ok(mut dir) = rt.open_dir(folder) else {
        return Err(FileFault::Failed);
    };
    if read_on(&mut dir, usize::MAX, &mut names)? {
        Ok(names)
    } else {
        Err(FileFault::Failed)
    }
}

/// The names, of which each has a zero byte behind it.
fn split_names<'a>(alloc: Global, names: &'a [u8]) -> Result<Vec<&'a [u8]>, AllocError> {
    names.split(|byte| *byte == 0).collect(alloc)
}

/// Whether a plain file stands at a path.
fn is_plain<R: rt::Files>(rt: &R, path: &str) -> Result<bool, FileFault> {
    match rt.symlink_metadata(path) {
        Ok(metadata) => Ok(metadata.is_file()),
        Err(_) => Err(FileFault::Failed),
    }
}

/// The path of a file.
fn join(alloc: Global, front: &str, name: &str) -> Result<String, AllocError>
    ensures { IfOk result (λ path. string_bytes path ≡ front.now ++ name.now) }
{
    let mut path = String::from_str(alloc, front)?;
    path.push_str(name)?;
    Ok(path)
}

/// Puts the path of a class file last, where it is a plain file.
fn keep_plain<R: rt::Files>(
    rt: &R,
    alloc: Global,
    front: &str,
    name: &[u8],
    paths: &mut Vec<String>,
) -> Result<(), FileFault>
    requires class { is_class_name name.now ≡ true }
    requires old { AllPass (is_class_file front.now) (map string_bytes paths.old.items) }
    ensures { OnOk result (AllPass (is_class_file front.now) (map string_bytes paths.new.items)) }
{
    let Ok(name) = str::from_utf8(name) else {
        return Err(FileFault::Failed);
    };
    let path = join(alloc, front, name)?;
    if is_plain(rt, path.as_str())? {
        put_last(paths, path)?;
    }
    Ok(())
}

/// The paths of the class files, with this before the name, in the order of the names given.
fn plain_files<R: rt::Files>(
    rt: &R,
    alloc: Global,
    front: &str,
    names: &[&[u8]],
) -> Result<Vec<String>, FileFault>
    ensures { IfOk result (λ paths. AllPass (is_class_file front.now) (map string_bytes paths.items)) }
{
    let mut paths = Vec::new(alloc);
    'listing: for name in names {
        if is_class_name(name) {
            keep_plain(rt, alloc, front, name, &mut paths)?;
        }
    }
    Ok(paths)
}

/// Puts the paths into the order of their bytes, each once.
fn sort(paths: &mut Vec<String>, front: &str) -> Result<(), AllocError>
    requires { AllPass (is_class_file front.now) (map string_bytes paths.old.items) }
    ensures own { OnOk result (AllPass (is_class_file front.now) (map string_bytes paths.new.items)) }
    ensures sorted { OnOk result (IsStrictlySortedBy (slice_cmp nat_cmp) (map string_bytes paths.new.items)) }
{
    paths.sort()?;
    paths.dedup();
    Ok(())
}

/// The paths of the folder's own class files.
pub fn list_folder<R: rt::Files>(
    rt: &R,
    alloc: Global,
    folder: &str,
) -> Result<Vec<String>, FileFault>
    ensures { ListGives None folder.now result }
{
    let front = make_front(alloc, folder)?;
    let names = read_names(rt, alloc, front.as_str())?;
    let names = split_names(alloc, &names)?;
    let mut paths = plain_files(rt, alloc, front.as_str(), &names)?;
    sort(&mut paths, front.as_str())?;
    Ok(paths)
}
