// crates.txt: YOURS: hub_views
use hub_views::{Form, lines_of};
use std::alloc::{AllocError, Global};

/// The lines of the first letters of a fifodir, each as an object of JSON with its number, and without a time.
pub fn first_objects(alloc: Global, name: &str, letters: &[u8]) -> Result<Vec<u8>, AllocError> {
    lines_of(alloc, Form::Json, "-", name, Some(0), letters)
}
