//! The paths of a folder's own class files.
ghost use Rattle.std.specs.Prelude.{◌≡◌, ◌++◌, ◌∷◌, [], IfOk, OnOk, string_bytes};
ghost use Rattle.jc_outside.specs.Folder.{front_of, is_class_name, is_class_file};

use std::alloc::{AllocError, Global};

/// What a path in the folder has before the name: the folder's path, and a `/` unless that path
/// ends with one.
#[tactic(auto, unfolding(crate::specs::Folder::front_of))]
pub fn make_front(alloc: Global, folder: &str) -> Result<String, AllocError>
    ensures { IfOk result (λ front. string_bytes front ≡ front_of folder.now) }
{
    let mut front = String::from_str(alloc, folder)?;
    if !folder.as_bytes().ends_with(b"/") {
        front.push_str("/")?;
    }
    Ok(front)
}

/// Puts a path last.
pub fn put_last(paths: &mut Vec<String>, path: String) -> Result<(), AllocError>
    ensures { OnOk result (paths.new.items ≡ paths.old.items ++ path ∷ []) }
{
    paths.push(path)?;
    Ok(())
}

/// Whether a file of this name in the folder is a class file. A name with a `/` is no such file's.
#[tactic(auto, unfolding(crate::specs::Folder::is_class_name))]
pub fn is_class_name(name: &[u8]) -> bool
    ensures { result ≡ is_class_name name.now }
{
    name.ends_with(b".class") && !name.contains(&b'/')
}

/// Whether a path is that of a class file, with this before the name.
#[tactic(auto, unfolding(crate::specs::Folder::is_class_file))]
pub fn is_class_file(front: &[u8], path: &[u8]) -> bool
    ensures { result ≡ is_class_file front.now path.now }
{
    path.starts_with(front) && is_class_name(&path[front.len()..])
}
