// A disk whose reads fail by plan before they reach the disk below, so that a job can be tried against failures.
ghost use Rattle.std.specs.Prelude.{◌≤◌};

pub mod filling;
pub mod layer;

#[derive(Drop)]
pub struct Plan<D> {
    below: D,
    entries: Entries,
}

// The failures planned, at most 16 entries and no block twice.
#[derive(Clone, Copy)]
pub struct Entries {
    // Entries from `len` on mean nothing. No ArrayVec: callers have entries that are Copy, which an ArrayVec is not.
    table: [Entry; 16],
    len: usize,
    ghost within: { len ≤ 16 },
}

#[derive(Clone, Copy, PartialEq, Eq, Debug)]
pub struct Entry {
    pub block: usize,
    pub left: Left,
}

// The failures that an entry still has: none are left of one that is used up.
#[derive(Clone, Copy, PartialEq, Eq, Debug)]
pub enum Left {
    Times(u8),
    Dead,
}
