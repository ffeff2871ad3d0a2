// Files that are written as a whole or not at all.

use crate::report::Refusal;
use std::rt::Files;
use std::{fs, str};

/// A new file for a path, under another name in the same folder until it is whole.
#[derive(Drop)]
pub struct PartFile<'a> {
    path: &'a [u8],
    target: &'a str,
    part: String,
}

impl<'a> PartFile<'a> {
    /// Creates the file under its other name. Returns it with the open, empty file.
    pub fn create<R: Files + AllocGlobal>(
        rt: &R,
        path: &'a [u8],
    ) -> Result<(PartFile<'a>, R::File), Refusal> {
        let Ok(target) = str::from_utf8(path) else {
            return Err(Refusal::CannotWrite(path.to_vec(rt.alloc())?));
        };
        let part = format!(in rt.alloc(); "{target}.part")?;
        match fs::create(rt, part.as_str()) {
            Ok(file) => Ok((PartFile { path, target, part }, file)),
            Err(_) => Err(Refusal::CannotWrite(path.to_vec(rt.alloc())?)),
        }
    }

    /// Gives the file its name if it is whole, and else removes it.
    pub fn finish<R: Files + AllocGlobal>(self, rt: &R, is_whole: bool) -> Result<(), Refusal> {
        if !is_whole {
            // If the part cannot be removed, it stays under its own name.
            let _ = fs::remove_file(rt, self.part.as_str());
            return Ok(());
        }
        match fs::rename(rt, self.part.as_str(), self.target) {
            Ok(()) => Ok(()),
            Err(_) => Err(Refusal::CannotWrite(self.path.to_vec(rt.alloc())?)),
        }
    }
}
