// Edits on messages as literal bytes, and what is printed.
use crate::first_failed;
use faim_message::{Form, decode};
use std::alloc::Global;
use std::test::Fail;

mod edges;
mod printed;
mod rows;

// The number of the first edit that the bytes fail on a test line, 0 where they fail none.
fn failed(alloc: Global, bytes: &[u8]) -> Result<u16, Fail> {
    match decode(alloc, bytes, Form::Input) {
        Ok(message) => Ok(first_failed(1, b'T', &message).map_or(0, |edit| edit.get())),
        Err(_) => Err("a submission".into()),
    }
}
