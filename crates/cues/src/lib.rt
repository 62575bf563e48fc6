// Cues: what an operator asks of a bench ahead of time, one to a line of a cue list.
#![tactic(auto)]

pub mod lines;
pub mod reading;
pub mod text;
pub mod token;

// What a line says. Its numbers stand as they were written: a call whose numbers are outside their limits is refused
// when its slot has come.
#[derive(Clone, Copy, PartialEq, Eq, Debug)]
pub enum Cue {
    // `p B C`: the reads of block B fail C times, or always where C is 0.
    Plan { block: u32, count: u32 },
    // `S ..`: a call at slot S, at most 1,000,000.
    At { slot: u32, call: Call },
}

#[derive(Clone, Copy, PartialEq, Eq, PartialOrd, Ord, Debug)]
pub enum Call {
    // `S o H F n s p b k`: an order for head H, n blocks from F on.
    Order {
        head: u32,
        first: u32,
        count: u32,
        start: u32,
        period: u32,
        depth: u32,
        spare: u32,
    },
    // `S t H I Q`: party Q takes block I of head H.
    Take {
        head: u32,
        block: u32,
        party: u32,
    },
    // `S g Q E`: party Q gives lease E back.
    Give {
        party: u32,
        lease: u32,
    },
    // `S c H`: head H is closed.
    Close {
        head: u32,
    },
}
