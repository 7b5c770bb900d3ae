//! What is read and written.

use anyhow::{Context, Result, bail};
use std::fs::{File, Metadata};
use std::io::{ErrorKind, Read, Write};
use std::{fs, io, process};
use utoipa_check::Shown;

// How many names are tried for a new file.
const MOST_ATTEMPTS: usize = 100;

/// All that stands in a file, or in standard input where the name is `-`.
pub fn bytes_of(rt: &HostRuntime, name: &str) -> Result<Vec<u8>> {
    if name == "-" {
        let mut bytes = Vec::new(rt.alloc());
        rt.stdin().read_to_end(&mut bytes)?;
        return Ok(bytes);
    }
    Ok(fs::read(rt, name)?)
}

/// Writes to standard output, or to a file where one is named.
pub fn write(rt: &HostRuntime, output: Option<&str>, text: &str) -> Result<()> {
    match output {
        Some("-") | None => write_standard(rt, text).context("standard output"),
        Some(name) => write_file(rt, name, text).context(format_args!(
            "{} is not written",
            Shown(name)
        )),
    }
}

fn write_standard(rt: &HostRuntime, text: &str) -> io::Result<()> {
    match rt.stdout().write_all(text.as_bytes()) {
        // Who reads it has had enough, as `head` has.
        Err(error) if error.kind() == ErrorKind::BrokenPipe => Ok(()),
        written => written,
    }
}

// Writes a file whole, or leaves what was there. What is no file, as a device or a pipe, is written to as it is.
fn write_file(rt: &HostRuntime, name: &str, text: &str) -> Result<()> {
    match fs::metadata(rt, name) {
        Ok(found) if !found.is_file() => Ok(fs::write(rt, name, text)?),
        Ok(found) => {
            // Behind links, so that they stay.
            let path = fs::canonicalize(rt, name)?;
            replace(rt, path.as_str(), Some(&found), text)
        }
        Err(_) => {
            if fs::symlink_metadata(rt, name).is_ok() {
                bail!("it is a link that leads to nothing");
            }
            replace(rt, name, None, text)
        }
    }
}

// Makes a new file beside the named one, under a name that none has, and gives that too. A run that was broken off may have left one.
fn new_beside(rt: &HostRuntime, name: &str) -> Result<(String, File)> {
    let number = process::id(rt.process());
    for attempt in 0..MOST_ATTEMPTS {
        let beside = format!(in rt.alloc(); "{name}.{number}.{attempt}.new")?;
        match File::create_new(rt, beside.as_str()) {
            Ok(file) => return Ok((beside, file)),
            Err(error) if error.kind() == ErrorKind::AlreadyExists => {}
            Err(error) => return Err(error.into()),
        }
    }
    bail!("{MOST_ATTEMPTS} files of earlier runs stand beside it, as {name}.{number}.0.new")
}

// Writes a new file beside the named one, and puts it in its place. The new one has the permissions of the one that was there.
fn replace(rt: &HostRuntime, name: &str, there: Option<&Metadata>, text: &str) -> Result<()> {
    let (beside, file) = new_beside(rt, name)?;
    let written = fill(file, there, text).and_then(|()| fs::rename(rt, beside.as_str(), name));
    if written.is_err() {
        // What is told is why it was not written.
        let _ = fs::remove_file(rt, beside.as_str());
    }
    Ok(written?)
}

// Writes a new file, to the disk.
fn fill(file: File, there: Option<&Metadata>, text: &str) -> io::Result<()> {
    let mut file = file;
    file.write_all(text.as_bytes())?;
    if let Some(there) = there {
        file.set_permissions(there.permissions())?;
    }
    file.sync_all()
}
