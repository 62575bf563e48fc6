// A disk that calls the one below again when it fails.
ghost use Rattle.std.specs.Prelude.{◌≤◌};

pub mod layer;

#[derive(Drop)]
pub struct Retry<D> {
    below: D,
    tries: Tries,
}

// How many calls below one read may make: 1 to 4. It is a struct of its own so that the number can be refused before
// there is a disk.
#[derive(Clone, Copy)]
pub struct Tries {
    count: usize,
    ghost some: { 1 ≤ count },
    ghost few: { count ≤ 4 },
}
