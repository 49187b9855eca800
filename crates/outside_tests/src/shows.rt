// What a test shows.
use std::process::Abort;

/// The test fails where this doesn't hold.
pub fn shows(rt: &impl Abort, holds: bool) {
    assert!(rt; holds);
}
