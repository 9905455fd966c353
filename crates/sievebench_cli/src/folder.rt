//! The scripts of a folder.

use crate::files::{ReadFault, SCRIPT_END, octets_at};
use crate::test_files::TestInput;
use session_server::Location;
use sieve_limits::MAX_TEXT;
use std::alloc::{AllocError, Global};
use std::fs::Metadata;
use std::io::{BufReader, ErrorKind, Read};
use std::rt::Files;
use std::{fs, io, str};

/// The number of octets of a folder's listing that are read at once. There is room for any one
/// name.
const LISTING_ROOM: usize = 65_536;

/// Adds the scripts of a folder. They are its plain files, and symbolic links to such, that are
/// named `NAME.sieve`. NAME has one octet or more. They are added in the order of the octets of
/// these file names. No other file is opened.
pub(crate) fn read_folder<R: Files + AllocGlobal>(
    rt: &R,
    location: Location,
    folder: &str,
    input: &mut TestInput,
) -> Result<(), ReadFault> {
    match listing_of(rt, folder) {
        Ok(listing) => read_listed(rt, (location, folder), listing.as_slice(), input),
        Err(e) => Err(ReadFault::at(rt.alloc(), folder.as_bytes(), &e)),
    }
}

/// Adds the scripts that are listed.
fn read_listed<R: Files + AllocGlobal>(
    rt: &R,
    (location, folder): (Location, &str),
    listing: &[u8],
    input: &mut TestInput,
) -> Result<(), ReadFault> {
    let names = file_names(rt.alloc(), listing)?;
    for file in names.iter() {
        let path = path_in(rt.alloc(), folder, file)?;
        read_script(rt, location, file, path.as_slice(), input)?;
    }
    Ok(())
}

/// Adds the script in a file at a path, if it is a plain one.
fn read_script<R: Files + AllocGlobal>(
    rt: &R,
    location: Location,
    file: &[u8],
    path: &[u8],
    input: &mut TestInput,
) -> Result<(), ReadFault> {
    if is_plain(rt, path)? {
        let text = octets_at(rt, path, MAX_TEXT)?;
        let name = file.strip_suffix(SCRIPT_END.as_bytes()).unwrap_or(file);
        input.add(rt.alloc(), (location, name), path, text)?;
    }
    Ok(())
}

/// The names of a folder's files, with a NUL after each.
fn listing_of<R: Files + AllocGlobal>(rt: &R, folder: &str) -> io::Result<Vec<u8>> {
    let path = with_slash(rt.alloc(), folder)?;
    let mut reader = BufReader::with_capacity(
        rt.alloc(),
        LISTING_ROOM,
        rt.open_dir(path.as_str())?,
    )?;
    let mut listing = Vec::new(rt.alloc());
    reader.read_to_end(&mut listing)?;
    Ok(listing)
}

/// A path with a slash after it, so that a symbolic link to a folder is followed.
fn with_slash(alloc: Global, path: &str) -> Result<String, AllocError> {
    let mut with_slash = String::from_str(alloc, path)?;
    if !path.is_empty() && !path.ends_with('/') {
        with_slash.push('/')?;
    }
    Ok(with_slash)
}

/// The names in a listing that are `NAME.sieve`, with a NAME of one octet or more. They are in the
/// order of their octets.
fn file_names(alloc: Global, listing: &[u8]) -> Result<Vec<&[u8]>, AllocError> {
    let mut names: Vec<&[u8]> = Vec::new(alloc);
    for name in listing.split(|octet| *octet == 0) {
        if name.ends_with(SCRIPT_END.as_bytes()) && name.len() > SCRIPT_END.len() {
            names.push(name)?;
        }
    }
    names.sort_unstable();
    Ok(names)
}

/// The path of a file in a folder.
fn path_in(alloc: Global, folder: &str, file: &[u8]) -> Result<Vec<u8>, AllocError> {
    let mut path = Vec::from_slice(alloc, with_slash(alloc, folder)?.as_bytes())?;
    path.extend_from_slice(file)?;
    Ok(path)
}

/// Whether a plain file is at a path. Symbolic links are followed. A link to nothing is no plain
/// file.
fn is_plain<R: Files + AllocGlobal>(rt: &R, path: &[u8]) -> Result<bool, ReadFault> {
    match metadata_at(rt, path) {
        Ok(metadata) => Ok(metadata.is_file()),
        Err(e) if leads_nowhere(e.kind()) => Ok(false),
        Err(e) => Err(ReadFault::at(rt.alloc(), path, &e)),
    }
}

/// Whether an error says that a path leads to no file. Such a path is a link to nothing, goes
/// through a plain file, or is in a ring.
fn leads_nowhere(kind: ErrorKind) -> bool {
    kind == ErrorKind::NotFound
        || kind == ErrorKind::NotADirectory
        || kind == ErrorKind::FilesystemLoop
}

/// The metadata of the file at a path. A path has to be UTF-8 to be asked for.
fn metadata_at(rt: &impl Files, path: &[u8]) -> io::Result<Metadata> {
    match str::from_utf8(path) {
        Ok(path) => fs::metadata(rt, path),
        Err(_) => Err(io::Error::from(ErrorKind::InvalidFilename)),
    }
}
