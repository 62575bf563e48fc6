// A cue as its line, without the line's end.
ghost use Rattle.std.specs.Prelude.{◌≡◌, Bool, IfOk, Some, Ok, string_bytes};
ghost use Rattle.cues.specs.Forms.{line_cue};
ghost use Rattle.cues.specs.Text.{cue_line, Writable};

use crate::{Call, Cue};
use std::alloc::{AllocError, Global};
use std::fmt;

impl Cue {
    // The cue as its line, which reads as this cue again where it may stand.
    pub fn to_line(&self, heap: Global) -> Result<String, AllocError>
        ensures value { IfOk result (λ text. string_bytes text ≡ cue_line self.now) }
        ensures reads { (begun : Bool) → Writable begun self.now → line_cue begun (cue_line self.now) ≡ Ok self.now }
    {
        format!(in heap; "{self}")
    }
}

impl fmt::Display for Cue {
    ghost output = { λ cue. Some (cue_line cue) };

    fn fmt<W: fmt::Write>(&self, f: &mut fmt::Formatter<W>) -> fmt::Result {
        match self {
            Cue::Plan { block, count } => write!(f, "p {block} {count}"),
            Cue::At { slot, call } => match call {
                Call::Order {
                    head,
                    first,
                    count,
                    start,
                    period,
                    depth,
                    spare,
                } => write!(
                    f,
                    "{slot} o {head} {first} {count} {start} {period} {depth} {spare}"
                ),
                Call::Take { head, block, party } => write!(f, "{slot} t {head} {block} {party}"),
                Call::Give { party, lease } => write!(f, "{slot} g {party} {lease}"),
                Call::Close { head } => write!(f, "{slot} c {head}"),
            },
        }
    }
}
