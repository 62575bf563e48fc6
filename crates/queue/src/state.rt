// What a queue holds.
ghost use Rattle.std.specs.Prelude.{◌≤◌, length, take};
ghost use Rattle.queue.specs.Heaps.{Heaped};

use crate::ordered::Total;

// The items that were put and not yet removed. They are the first `len` of `items`: the memory is the caller's, so that
// a queue takes none, and what lies past them means nothing.
#[derive(Drop)]
pub struct Queue<'a, T: Total> {
    pub(crate) items: &'a mut [T],
    pub(crate) len: usize,
    ghost within: { len ≤ length items.now },
    ghost sound: { Heaped T.Ordered.before (take len items.now) 0 (length (take len items.now)) },
}
