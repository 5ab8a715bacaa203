//! Which surveyed image a row of an earlier survey is of.

use crate::rows::Row;
use indexmap::IndexMap;
use std::alloc::{AllocError, Global};

/// The image that a path was found to be of.
#[derive(Clone, Copy, Drop)]
pub struct Match {
    /// The index of its row.
    pub index: usize,
    /// Says whether it has this path, and not only the same name in another folder.
    pub is_same_path: bool,
}

/// The images of a survey, by their paths, and those of folders by their names.
#[derive(Drop)]
pub struct Matching<'a> {
    by_path: IndexMap<&'a [u8], usize>,
    /// Nothing where two images have the name.
    by_name: IndexMap<&'a [u8], Option<usize>>,
}

/// Returns what comes after the last slash of a path.
fn name_of(path: &[u8]) -> &[u8] {
    match path.iter().rposition(|byte| *byte == b'/') {
        Some(at) => &path[at + 1..],
        None => path,
    }
}

impl<'a> Matching<'a> {
    /// Of the rows of a survey. Where two have one path, the first one counts.
    pub fn of(alloc: Global, surveyed: &'a [Row]) -> Result<Self, AllocError> {
        let mut matching = Matching {
            by_path: IndexMap::new(alloc),
            by_name: IndexMap::new(alloc),
        };
        for (index, row) in surveyed.iter().enumerate() {
            matching.add(index, row.file.as_bytes(), row.is_in_folder)?;
        }
        Ok(matching)
    }

    fn add(&mut self, index: usize, path: &'a [u8], is_in_folder: bool) -> Result<(), AllocError> {
        if self.by_path.get(path).is_some() {
            return Ok(());
        }
        self.by_path.insert(path, index)?;
        if is_in_folder {
            let name = name_of(path);
            let only = match self.by_name.get(name) {
                Some(_) => None,
                None => Some(index),
            };
            self.by_name.insert(name, only)?;
        }
        Ok(())
    }

    /// The index of the first row with this path.
    pub fn first_of(&self, path: &str) -> Option<usize> {
        self.by_path.get(path.as_bytes()).copied()
    }

    /// The image that has this path, or else the one of a folder that has its name.
    pub fn find(&self, path: &[u8]) -> Option<Match> {
        if let Some(index) = self.by_path.get(path) {
            return Some(Match {
                index: *index,
                is_same_path: true,
            });
        }
        match self.by_name.get(name_of(path)) {
            Some(Some(index)) => Some(Match {
                index: *index,
                is_same_path: false,
            }),
            _ => None,
        }
    }
}
