//! What tests assert of the rows of their tables. Two functions do so for all of them: in a loop over a table an assertion
//! with a message takes long to prove.

use std::process::Abort;

/// What a row tells is so.
pub fn expect_that<R: Abort>(rt: &R, is_so: bool, what: &str) {
    assert!(rt; is_so, "{what}");
}

/// All that a row tells is so, and not just the first few.
pub fn expect_all<R: Abort>(rt: &R, right: usize, all: usize, what: &str) {
    assert!(rt; right == all, "{what}: {right} are right");
}
