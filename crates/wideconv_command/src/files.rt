//! Files that are replaced only once they are complete.

use std::fs::{OpenFile, OpenOptions};
use std::io::ErrorKind;
use std::rt::Files;
use std::{fs, io};

// How many names are tried for a file that does not exist.
const NAMES: u32 = 100;

// A file that is being written, and its names until it is complete and then, or `None` if it is written in place.
type Written<F> = (F, Option<(String, String)>);

// Creates a file beside this one, which has another name.
fn create_part<R: Files + AllocGlobal>(rt: &R, path: &str) -> io::Result<Written<R::File>> {
    // Nothing can fail between the creation of a file and its return, so that none is left.
    let target = path.to_string(rt.alloc())?;
    for number in 0..NAMES {
        let part = format!(in rt.alloc(); "{path}.part{number}")?;
        match OpenOptions::new()
            .write(true)
            .create_new(true)
            .open(rt, part.as_str())
        {
            Ok(file) => return Ok((file, Some((part, target)))),
            Err(error) if error.kind() == ErrorKind::AlreadyExists => {}
            Err(error) => return Err(error),
        }
    }
    Err(io::Error::from(ErrorKind::AlreadyExists))
}

/// Begins to write a file, and returns it with what [`finish`] needs. One that exists stays as it is until [`finish`]. What is no regular file, such as a device,
/// is written in place.
///
/// # Errors
///
/// Any error of the system, and an allocation that failed.
pub fn begin<R: Files + AllocGlobal>(rt: &R, path: &str) -> io::Result<Written<R::File>> {
    let old = match fs::metadata(rt, path) {
        Ok(old) => old,
        Err(error) if error.kind() == ErrorKind::NotFound => return create_part(rt, path),
        Err(error) => return Err(error),
    };
    if !old.is_file() {
        let file = OpenOptions::new().write(true).open(rt, path)?;
        return Ok((file, None));
    }
    let target = fs::canonicalize(rt, path)?;
    let (file, names) = create_part(rt, target.as_path().as_str())?;
    let _ = file.set_permissions(old.permissions());
    Ok((file, names))
}

/// Ends a file, which has its name only if it is complete. Otherwise it is removed.
///
/// # Errors
///
/// Any error of the system. The file is removed.
pub fn finish<R: Files>(
    rt: &R,
    file: R::File,
    names: Option<(String, String)>,
    is_complete: bool,
) -> io::Result<()> {
    let Some((part, path)) = names else {
        return Ok(());
    };
    let is_stored = if is_complete { file.sync_all() } else { Ok(()) };
    if is_complete && is_stored.is_ok() {
        let renamed = fs::rename(rt, part.as_str(), path.as_str());
        if renamed.is_err() {
            let _ = fs::remove_file(rt, part.as_str());
        }
        return renamed;
    }
    let _ = fs::remove_file(rt, part.as_str());
    is_stored
}
