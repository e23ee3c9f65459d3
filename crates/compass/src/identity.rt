//! Where names of the machine's files lead.
use std::fs;
use std::fs::Metadata;
use std::io::ErrorKind;
use std::os::unix::fs::MetadataExt;

/// A regular file, or one that isn't there yet.
#[derive(Clone, Copy, PartialEq, Eq)]
struct Identity<'a> {
    device: u64,
    /// The number, on its device, of the file; or of the folder that a file isn't in yet.
    number: u64,
    /// The name, in its folder, of a file that isn't there yet.
    last: Option<&'a str>,
}

impl<'a> Identity<'a> {
    fn new(found: &Metadata, last: Option<&'a str>) -> Identity<'a> {
        Identity {
            device: found.dev(),
            number: found.ino(),
            last,
        }
    }
}

/// Whether two names lead to one regular file, by whatever folders and links, or to one that isn't there yet.
pub fn lead_to_one(rt: &HostRuntime, one: &str, other: &str) -> bool {
    match identity_of(rt, one) {
        Some(identity) => identity_of(rt, other) == Some(identity),
        None => false,
    }
}

/// The file that a name leads to. None: it leads to what is no regular file, or can't be followed.
fn identity_of<'a>(rt: &HostRuntime, name: &'a str) -> Option<Identity<'a>> {
    match fs::metadata(rt, name) {
        Ok(found) if found.is_file() => Some(Identity::new(&found, None)),
        Ok(_) => None,
        Err(error) if error.kind() == ErrorKind::NotFound => {
            let (folder, last) = split(name);
            match fs::metadata(rt, folder) {
                Ok(found) => Some(Identity::new(&found, Some(last))),
                Err(_) => None,
            }
        }
        Err(_) => None,
    }
}

/// The folder of a name, and the last name in it.
fn split(name: &str) -> (&str, &str) {
    let Some((folder, last)) = name.rsplit_once('/') else {
        return (".", name);
    };
    if folder.is_empty() {
        ("/", last)
    } else {
        (folder, last)
    }
}
