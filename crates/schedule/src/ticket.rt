// A lane's place in the rule's order.
ghost use Rattle.std.specs.Prelude.{◌≡◌, ◌+◌, ◌*◌, ◌/◌, ◌%◌, ◌^◌, ◌<◌, ◌≤◌, ℕ};

use std::marker::Model;

// A deadline and a head, by which the rule orders lanes, as one number: deadline times eight plus head. It makes the
// replay's turns twice as quick as a struct of two.
#[derive(Clone, Copy, PartialEq, Eq, PartialOrd, Ord)]
pub(crate) struct Ticket(u32);

impl Model for Ticket {
    ghost Value = { ℕ };

    ghost view = { λ t. t.0 };

    ghost inverse = { λ n. record { 0 = n } };
}

impl Ticket {
    pub(crate) fn new(due: u32, head: usize) -> Ticket
        requires { (due ≤ 2000000) × (head < 8) }
        ensures { result ≡ due * 8 + head }
    {
        Ticket(due * 8 + head as u32)
    }

    pub(crate) fn due(self) -> u32
        ensures { result ≡ self / 8 }
    {
        self.0 / 8
    }

    pub(crate) fn head(self) -> usize
        ensures { result ≡ self % 8 }
    {
        (self.0 % 8) as usize
    }

    // The ticket with its deadline `slots` later.
    pub(crate) fn later(self, slots: u32) -> Ticket
        requires { self + slots * 8 < 2 ^ 32 }
        ensures { result ≡ self + slots * 8 }
    {
        Ticket(self.0 + slots * 8)
    }
}
