// A call that waits for its slot. Calls run by slot, those of one slot in the order of their lines.
ghost use Rattle.std.specs.Prelude.{Some};
ghost use Rattle.cues.specs.Text.{cue_line};
ghost use Rattle.cues.specs.declared.Cue.TheVariants.{At};
ghost use Rattle.cuelists.specs.Dues.{due_before, due_keys};
ghost use Rattle.queue.specs.KeysLemmas.{ranks_by_keys, untied_by_keys};
ghost use Rattle.cuelists.specs.DuesLemmas.{same_due};

use cues::{Call, Cue};
use queue::{Ordered, Total};
use std::fmt;

#[derive(Clone, Copy, PartialEq, Eq, PartialOrd, Ord, Debug)]
pub struct Due {
    pub slot: u32,
    // The line of the list that asks for the call, from 1.
    pub line: usize,
    // No line asks for two calls, but a queue holds any items.
    pub call: Call,
}

impl Due {
    // What memory lent to a queue may hold before it is used.
    pub const FILLER: Due = Due {
        slot: 0,
        line: 0,
        call: Call::Close { head: 0 },
    };
}

// The line that asks for the call.
impl fmt::Display for Due {
    ghost output = { λ due. Some (cue_line (At due.slot due.call)) };

    fn fmt<W: fmt::Write>(&self, f: &mut fmt::Formatter<W>) -> fmt::Result {
        let cue = Cue::At {
            slot: self.slot,
            call: self.call,
        };
        write!(f, "{cue}")
    }
}

impl Ordered for Due {
    ghost before = { due_before };

    ghost ranks = { ranks_by_keys due_keys };

    fn precedes(&self, other: &Due) -> bool {
        self < other
    }
}

impl Total for Due {
    ghost untied = { untied_by_keys due_keys same_due };
}
