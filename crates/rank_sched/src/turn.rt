//! Where a worker is in its turn.

/// Where a worker is in its turn: it claims a number, looks at the floor, and settles.
#[derive(Clone, Copy, Debug, PartialEq, Eq)]
pub enum Turn {
    /// It claims a number next.
    Idle,
    /// It has drawn this morsel.
    Claimed(u64),
    /// It has drawn this morsel, and has seen this floor.
    Looked(u64, Option<i64>),
    /// It has drawn this number, which is past the last morsel.
    Stopped(u64),
}
