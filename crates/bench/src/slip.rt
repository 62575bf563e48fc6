// A lease as a thing of its own: a slip must be given back, and is shown and given only while it is not.
ghost use Rattle.std.specs.Prelude.{◌≡◌, true};

// The lease, the bench and the party of a take. Take alone makes one, and give spends it.
pub struct Slip {
    pub(crate) numbers: SlipNumbers,
    pub(crate) spent: bool,
}

// The numbers of a slip.
#[derive(Clone, Copy, PartialEq, Eq, Debug)]
pub struct SlipNumbers {
    pub lease: u32,
    pub bench: u16,
    pub party: u32,
}

impl Drop for Slip {
    // Only a slip that was given back may be let go.
    fn drop(self)
        requires { self.spent ≡ true }
    {
        let Slip {
            numbers: _,
            spent: _,
        } = self;
    }
}
