// The orders that a queue serves.
ghost use Rattle.std.specs.Prelude.{◌≡◌, Bool};
ghost use Rattle.std.specs.Cmp.{IsStrictWeakOrder};
ghost use Rattle.queue.specs.Order.{Untied};

// An order in which any two items compare: of two items at most one precedes the other, and where neither does they
// tie. Items that tie may differ.
pub trait Ordered: Copy {
    // whether the first of two items precedes the second
    ghost before: { Self → Self → Bool };

    fn precedes(&self, other: &Self) -> bool
        ensures { result ≡ before self.now other.now };

    ghost ranks: { IsStrictWeakOrder before };
}

// An order in which only equal items tie.
pub trait Total: Ordered {
    ghost untied: { Untied Self.Ordered.before };
}
