// What is left of a lane, as the replay and the scan use it.
ghost use Rattle.std.specs.Prelude.{◌≡◌, ◌+◌, ◌-◌, ◌*◌, ◌<◌, ◌≤◌, if◌then◌else◌, nat_eq};

use crate::Work;
use refusal::Refusal;

// Later than every release and deadline: the times of a lane with nothing left. It is a number, since with an
// `Option<u32>` for a release the replay takes 1.5 times as long as plain Rust does (287 µs for 190, measured there).
pub(crate) const NEVER: u32 = 2_000_000;

// Blocks `next` to `blocks` - 1 of a lane, with deadlines `period` apart from `start` on. The first `early` blocks are
// released at `admitted`, each later one `lead` slots before its deadline. `left` attempts are owed to block `next`,
// `each` to every later one. Releases do not fall, lie before their deadlines, and all of it ends by the last slot.
#[derive(Clone, Copy)]
pub(crate) struct Rest {
    pub(crate) start: u32,
    pub(crate) period: u32,
    pub(crate) early: u32,
    pub(crate) admitted: u32,
    pub(crate) lead: u32,
    pub(crate) next: u32,
    pub(crate) blocks: u32,
    pub(crate) left: u32,
    pub(crate) each: u32,
    ghost period_some: { 0 < period },
    ghost admitted_first: { admitted ≤ start },
    ghost lead_within: { admitted + lead ≤ start + early * period },
    ghost ends: { start + blocks * period ≤ 1000000 },
    ghost left_some: { 0 < left },
    ghost left_few: { left ≤ 16 },
    ghost each_some: { 0 < each },
    ghost each_few: { each ≤ 16 },
}

impl TryFrom<&Work> for Rest {
    type Error = Refusal;

    ghost use Rattle.schedule.specs.Rests.{RestIfProper};

    ghost try_from_gives = { λ w r. RestIfProper w.now r };

    // Refuses what cannot be left of a lane.
    fn try_from(w: &Work) -> Result<Rest, Refusal> {
        if !w.is_proper() {
            return Err(Refusal::Bounds);
        }
        let order = w.timing;
        Ok(Rest {
            start: order.start,
            period: order.period,
            early: order.depth,
            admitted: w.admitted,
            lead: (order.depth - 1) * order.period,
            next: w.next,
            blocks: order.count,
            left: 1 + order.spare - w.failed,
            each: 1 + order.spare,
        })
    }
}

impl Rest {
    ghost use Rattle.schedule.specs.Rests.{release_of, deadline_of, ready, due, served, shortened};
    ghost use Rattle.schedule.specs.Scan.{CutAt, top_start};

    // A lane with nothing left.
    pub(crate) const DONE: Rest = Rest {
        start: 0,
        period: 1,
        early: 0,
        admitted: 0,
        lead: 0,
        next: 0,
        blocks: 0,
        left: 1,
        each: 1,
    };

    // The first slot at which block `j`, whose deadline is `due`, may be read.
    pub(crate) fn release(&self, j: u32, due: u32) -> u32
        requires { due ≡ deadline_of self.now j }
        ensures { result ≡ release_of self.now j }
    {
        if j < self.early {
            self.admitted
        } else {
            due - self.lead
        }
    }

    // The deadline of block `j`.
    fn deadline(&self, j: u32) -> u32
        requires { j ≤ self.now.blocks }
        ensures { result ≡ deadline_of self.now j }
    {
        self.start + j * self.period
    }

    // The deadline of the next block, or `NEVER`.
    pub(crate) fn due(&self) -> u32
        ensures { result ≡ due self.now }
    {
        if self.next < self.blocks {
            self.deadline(self.next)
        } else {
            NEVER
        }
    }

    // The release of the next block, or `NEVER`.
    pub(crate) fn ready(&self) -> u32
        ensures { result ≡ ready self.now }
    {
        if self.next < self.blocks {
            self.release(self.next, self.deadline(self.next))
        } else {
            NEVER
        }
    }

    // Makes `m` attempts on the next block, of which more are left.
    pub(crate) fn spend(&mut self, m: u32)
        requires { m < self.old.left }
        ensures { self.new ≡ served self.old m }
    {
        self.left -= m;
    }

    // Makes all attempts on the next block.
    pub(crate) fn advance(&mut self)
        requires { self.old.next < self.old.blocks }
        ensures { self.new ≡ served self.old self.old.left }
    {
        self.next += 1;
        self.left = self.each;
    }

    // The lane without its blocks from `n` on.
    pub(crate) fn shorten(&self, n: u32) -> Rest
        ensures { result ≡ shortened self.now n }
    {
        let mut out = *self;
        out.blocks = n.min(self.blocks);
        out
    }

    // The lane without the blocks that are due past `h`.
    pub(crate) fn cut(&self, h: u32) -> Rest
        requires { h < 2000000 }
        ensures { CutAt h self.now result }
    {
        if h < self.start {
            return self.shorten(0);
        }
        self.shorten((h - self.start) / self.period + 1)
    }

    // Where the window of the last block starts, or `h` if that is past `h`.
    pub(crate) fn last_start(&self, slot: u32, h: u32) -> u32
        ensures { result ≡ top_start slot h self.now }
    {
        let last = self.blocks.saturating_sub(1);
        h.min(slot.max(self.release(last, self.deadline(last))))
    }

    // The attempts owed to the last block.
    pub(crate) fn last_owed(&self) -> u32
        requires { self.now.next < self.now.blocks }
        ensures { result ≡ (if nat_eq (self.now.blocks - 1) self.now.next then self.now.left else self.now.each) }
    {
        if self.blocks - 1 == self.next {
            self.left
        } else {
            self.each
        }
    }
}
