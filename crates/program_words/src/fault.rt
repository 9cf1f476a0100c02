//! The line of a fault.

/// Writes a line to standard error.
pub fn tell(rt: &HostRuntime, line: &[u8]) {
    if let Ok(text) = std::str::from_utf8(line) {
        let _ = eprint!(rt; "{text}");
    }
}
