//! What a caller may do between two steps of a worker.

use std::sync::Wait;

/// What is called between two steps of a worker, in the worker's thread. The worker waits for it.
pub trait Gate {
    /// Before each place of the station list is measured. Workers and places count from 0.
    fn measuring<R: Wait>(&self, rt: &R, worker: u64, place: u64);

    /// After each claim of a morsel, and before the worker looks at the floor.
    fn claimed<R: Wait>(&self, rt: &R, worker: u64, morsel: u64);
}

/// The gate that does nothing.
#[derive(Drop)]
pub struct Open;

impl Gate for Open {
    fn measuring<R: Wait>(&self, _rt: &R, _worker: u64, _place: u64) {}

    fn claimed<R: Wait>(&self, _rt: &R, _worker: u64, _morsel: u64) {}
}
