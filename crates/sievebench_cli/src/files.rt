//! Files that the command line names.

use std::alloc::{AllocError, Global};
use std::io::{ErrorKind, Read};
use std::rt::Files;
use std::{fs, io, str};

/// The end of the name of a script's file. It follows the script's name.
pub(crate) const SCRIPT_END: &str = ".sieve";

/// The reason that files could not be read.
#[derive(Drop)]
pub(crate) enum ReadFault {
    /// The file, or the folder, at this path can't be read.
    Unreadable(Vec<u8>),
    /// Out of memory.
    NoMemory,
}

impl From<AllocError> for ReadFault {
    fn from(_error: AllocError) -> ReadFault {
        ReadFault::NoMemory
    }
}

impl ReadFault {
    /// The fault of an error that came at a path.
    pub(crate) fn at(alloc: Global, path: &[u8], error: &io::Error) -> ReadFault {
        if error.kind() == ErrorKind::OutOfMemory {
            return ReadFault::NoMemory;
        }
        match Vec::from_slice(alloc, path) {
            Ok(path) => ReadFault::Unreadable(path),
            Err(_) => ReadFault::NoMemory,
        }
    }
}

/// The octets of a file. If there are more than `limit`, only the first `limit` and one more are
/// read.
pub(crate) fn octets_in<R: Files + AllocGlobal>(
    rt: &R,
    path: &str,
    limit: usize,
) -> io::Result<Vec<u8>> {
    let mut octets = Vec::new(rt.alloc());
    let mut file = fs::open(rt, path)?.take((limit as u64).saturating_add(1));
    file.read_to_end(&mut octets)?;
    Ok(octets)
}

/// The octets of the file at a path, to one past `limit` at most. A path has to be UTF-8 to be
/// opened.
pub(crate) fn octets_at<R: Files + AllocGlobal>(
    rt: &R,
    path: &[u8],
    limit: usize,
) -> Result<Vec<u8>, ReadFault> {
    let octets = match str::from_utf8(path) {
        Ok(path) => octets_in(rt, path, limit),
        Err(_) => Err(io::Error::from(ErrorKind::InvalidFilename)),
    };
    match octets {
        Ok(octets) => Ok(octets),
        Err(e) => Err(ReadFault::at(rt.alloc(), path, &e)),
    }
}

/// The name of the script in a file: the last part of its path, without a final `.sieve`.
pub(crate) fn script_name(path: &str) -> &str {
    let file = match path.rsplit_once('/') {
        Some((_, file)) => file,
        None => path,
    };
    file.strip_suffix(SCRIPT_END).unwrap_or(file)
}
