// Finds out why a file cannot be read.

use std::io::ErrorKind;
use std::rt::Files;
use std::{fs, str};
use tq_engine::FILE_LIMIT;

/// Whether the path is that of a regular file, whose bytes can be read again, unlike a pipe's.
pub fn is_file<R: Files>(rt: &R, path: &[u8]) -> bool {
    let Ok(path) = str::from_utf8(path) else {
        return false;
    };
    match fs::metadata(rt, path) {
        Ok(metadata) => metadata.is_file(),
        Err(_) => false,
    }
}

/// The length of the file at the path in bytes; 0 if unknown.
pub fn file_len<R: Files>(rt: &R, path: &[u8]) -> u64 {
    let Ok(path) = str::from_utf8(path) else {
        return 0;
    };
    match fs::metadata(rt, path) {
        Ok(metadata) => metadata.len(),
        Err(_) => 0,
    }
}

fn reason_for(kind: ErrorKind) -> &'static [u8] {
    match kind {
        ErrorKind::NotFound => b"no such file or directory",
        ErrorKind::NotADirectory => b"no such file or directory",
        ErrorKind::PermissionDenied => b"permission denied",
        _ => b"",
    }
}

/// The reason why the file at the path cannot be read; empty if unknown.
pub fn reason<R: Files>(rt: &R, path: &[u8]) -> &'static [u8] {
    let Ok(path) = str::from_utf8(path) else {
        return b"the path is not valid UTF-8";
    };
    let metadata = match fs::metadata(rt, path) {
        Ok(metadata) => metadata,
        Err(error) => return reason_for(error.kind()),
    };
    if metadata.is_dir() {
        return b"it is a directory";
    }
    if !metadata.is_file() {
        return b"";
    }
    if metadata.len() > FILE_LIMIT as u64 {
        return b"it is larger than 1,073,741,824 bytes: `tq split` divides larger tables";
    }
    match fs::open(rt, path) {
        Ok(_) => b"",
        Err(error) => reason_for(error.kind()),
    }
}
