// What a test shows, and how it ends.
use std::mem::ManuallyDrop;
use std::process::Abort;

/// The test fails where this doesn't hold.
pub fn shows(rt: &impl Abort, holds: bool) {
    assert!(rt; holds);
}

/// The value stays where it is when the test ends, so no proof has to walk through its parts.
pub fn leave<T: Drop>(value: T) {
    let _left = ManuallyDrop::new(value);
}
