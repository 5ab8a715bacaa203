//! The images that paths name.

use std::alloc::{AllocError, Global};
use std::io::ErrorKind;
use std::rt::Files;
use std::{fs, io};

// The end of an image's name.
const ENDING: &str = ".image";

/// Says why a folder has a row of its own.
#[derive(Clone, Copy, Drop)]
pub enum FolderFailure {
    /// It cannot be read.
    Unread(ErrorKind),
    /// It has names that are not UTF-8.
    Unnamed,
}

/// A path in a survey: of an image, or of a folder that cannot be read, or only in part.
#[derive(Drop)]
pub struct NamedPath {
    pub path: String,
    /// Says whether it is an image that was found in a folder.
    pub is_in_folder: bool,
    /// Says why the folder cannot be read, or only in part, if it is one.
    pub failure: Option<FolderFailure>,
}

/// Adds images.
pub fn add_images(
    alloc: Global,
    found: &FoundImages,
    all: &mut Vec<NamedPath>,
) -> Result<(), AllocError> {
    for path in &found.paths {
        all.push(NamedPath {
            path: String::from_str(alloc, path.as_str())?,
            is_in_folder: found.is_folder,
            failure: None,
        })?;
    }
    Ok(())
}

/// Adds a folder that cannot be read, or only in part.
pub fn add_folder(
    alloc: Global,
    path: &str,
    failure: FolderFailure,
    all: &mut Vec<NamedPath>,
) -> Result<(), AllocError> {
    all.push(NamedPath {
        path: String::from_str(alloc, path)?,
        is_in_folder: false,
        failure: Some(failure),
    })?;
    Ok(())
}

/// The images that a path names.
#[derive(Drop)]
pub struct FoundImages {
    pub paths: Vec<String>,
    /// Says whether the path is that of a folder.
    pub is_folder: bool,
    /// Says whether the folder has names that are not UTF-8. They name no file that can be opened
    /// here.
    pub has_unnamed: bool,
}

/// The images of a folder, in the order of their names.
fn images_in<R: Files + AllocGlobal + Clone + Drop>(
    rt: &R,
    folder: &str,
) -> io::Result<FoundImages> {
    let alloc = rt.alloc();
    let mut paths = Vec::new(alloc);
    let mut has_unnamed = false;
    for found in fs::read_dir(rt, folder)? {
        match found {
            Ok(found) => add_path(alloc, found.path().as_str(), &mut paths)?,
            Err(error) if error.kind() == ErrorKind::InvalidFilename => has_unnamed = true,
            Err(error) => return Err(error),
        }
    }
    paths.sort()?;
    Ok(FoundImages {
        paths,
        is_folder: true,
        has_unnamed,
    })
}

/// Adds the path of a file in a folder, if its name ends as an image's does.
fn add_path(alloc: Global, path: &str, paths: &mut Vec<String>) -> Result<(), AllocError> {
    if path.ends_with(ENDING) {
        paths.push(String::from_str(alloc, path)?)?;
    }
    Ok(())
}

/// One path.
fn one(alloc: Global, path: &str) -> Result<FoundImages, AllocError> {
    let mut paths = Vec::new(alloc);
    paths.push(String::from_str(alloc, path)?)?;
    Ok(FoundImages {
        paths,
        is_folder: false,
        has_unnamed: false,
    })
}

fn is_folder<R: Files>(rt: &R, path: &str) -> bool {
    match fs::metadata(rt, path) {
        Ok(metadata) => metadata.is_dir(),
        Err(_) => false,
    }
}

/// The images that a path names: those of a folder, or itself.
pub fn images<R: Files + AllocGlobal + Clone + Drop>(
    rt: &R,
    path: &str,
) -> io::Result<FoundImages> {
    if is_folder(rt, path) {
        return images_in(rt, path);
    }
    Ok(one(rt.alloc(), path)?)
}
