//! Real files, and stores that are kept in them.
mod kept;
mod paths;

use std::fs;

/// Whether the file of this name has these bytes.
pub(crate) fn has_bytes(rt: &HostRuntime, path: &str, wanted: &[u8]) -> bool {
    match fs::read(rt, path) {
        Ok(bytes) => bytes.as_slice() == wanted,
        Err(_) => false,
    }
}
