// A read that a tick may make, in the order in which the tick chooses: by deadline, then the lower head.
ghost use Rattle.queue.specs.Keys.{by_keys};
ghost use Rattle.queue.specs.Requests.{request_keys};
ghost use Rattle.queue.specs.KeysLemmas.{ranks_by_keys, untied_by_keys};
ghost use Rattle.queue.specs.ReadRequestTotalLemmas.{same_request};

use super::{Ordered, Total};

#[derive(Clone, Copy, PartialEq, Eq, PartialOrd, Ord, Debug)]
pub struct ReadRequest {
    // The slot by which the block must have been read.
    pub deadline: u32,
    pub head: u8,
    // The block's index in its order, from 0.
    pub block: u16,
}

impl Ordered for ReadRequest {
    ghost before = { by_keys request_keys };

    ghost ranks = { ranks_by_keys request_keys };

    fn precedes(&self, other: &ReadRequest) -> bool {
        self < other
    }
}

impl Total for ReadRequest {
    ghost untied = { untied_by_keys request_keys same_request };
}
