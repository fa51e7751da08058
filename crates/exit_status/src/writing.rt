//! Files that are written as a whole: none is lost if a write fails or the program is ended, and no link that stands in the place of one is followed.

use std::alloc::Global;
use std::fs::{Metadata, OpenFile, OpenOptions};
use std::io::Write;
use std::os::unix::fs::{MetadataExt, OpenOptionsExt, lchown};
use std::rt::Files;
use std::{fs, io};

/// Why a file isn't replaced.
const NO_FILE: &str = "it is no regular file, and isn't replaced";

const OTHER_NAMES: &str =
    "it has other names, hard links, which would keep what it has; it isn't replaced";

const NEW_STANDS: &str =
    "there is a file of this name with '.new' behind it, which isn't overwritten";

/// Replaces a file, or that to which a link leads. The new one has its mode and, as far as the system lets, its owner and group.
///
/// # Errors
///
/// Why it isn't replaced: it is no regular file, it has other names, or the system lets no file be written beside it, under its name with `.new` behind
/// it, or be renamed. Then it is as it was.
pub fn replace_file<R: Files + Alloc<A = Global>>(
    rt: &R,
    file: &str,
    bytes: &[u8],
) -> io::Result<()> {
    let target = fs::canonicalize(rt, file)?;
    let old = fs::symlink_metadata(rt, target.as_path())?;
    expect_file(&old)?;
    if old.nlink() > 1 {
        return Err(io::Error::new(io::ErrorKind::Unsupported, OTHER_NAMES));
    }
    put_file(rt, target.as_path().as_str(), bytes, Some(&old))
}

/// Writes a file. If there is one it is replaced, and so is a link, and not that to which it leads.
///
/// # Errors
///
/// Why it isn't written: something else stands there, or the system lets no file be written beside it, under its name with `.new` behind it, or be
/// renamed. Then what was there is as it was.
pub fn write_file<R: Files + Alloc<A = Global>>(
    rt: &R,
    file: &str,
    bytes: &[u8],
) -> io::Result<()> {
    match fs::symlink_metadata(rt, file) {
        Ok(old) if old.is_symlink() => {}
        Ok(old) => expect_file(&old)?,
        Err(error) if error.kind() == io::ErrorKind::NotFound => {}
        Err(error) => return Err(error),
    }
    put_file(rt, file, bytes, None)
}

/// That a file is a regular one.
///
/// # Errors
///
/// What it is called if it is a folder, a pipe, a device or a socket.
pub fn expect_file(found: &Metadata) -> io::Result<()> {
    if found.is_file() {
        Ok(())
    } else if found.is_dir() {
        Err(io::Error::from(io::ErrorKind::IsADirectory))
    } else {
        Err(io::Error::new(io::ErrorKind::Unsupported, NO_FILE))
    }
}

/// Writes a new file beside this one and puts it in its place, with what is to be kept of an old one.
fn put_file<R: Files + Alloc<A = Global>>(
    rt: &R,
    file: &str,
    bytes: &[u8],
    old: Option<&Metadata>,
) -> io::Result<()> {
    let new = format!(in rt.alloc(); "{file}.new")?;
    let mut opened = open_new(rt, new.as_str(), old)?;
    let put = keep(rt, &opened, new.as_str(), old)
        .and_then(|_| opened.write_all(bytes))
        .and_then(|_| fs::rename(rt, new.as_str(), file));
    if put.is_err() {
        let _ = fs::remove_file(rt, new.as_str());
    }
    put
}

/// Opens a file that isn't there yet, which nobody else may read as long as it hasn't the mode of an old one.
fn open_new<R: Files>(rt: &R, new: &str, old: Option<&Metadata>) -> io::Result<R::File> {
    let mut options = OpenOptions::new();
    options.write(true).create_new(true);
    if old.is_some() {
        options.mode(0o600);
    }
    options.open(rt, new).map_err(|error| match error.kind() {
        io::ErrorKind::AlreadyExists => io::Error::new(error.kind(), NEW_STANDS),
        _ => error,
    })
}

/// Gives a new file the mode of an old one and, as far as the system lets, its owner and group.
fn keep<R: Files>(rt: &R, opened: &R::File, new: &str, old: Option<&Metadata>) -> io::Result<()> {
    let Some(old) = old else {
        return Ok(());
    };
    // Only the superuser may give a file away.
    let _ = lchown(rt, new, Some(old.uid()), Some(old.gid()));
    opened.set_permissions(old.permissions())
}
