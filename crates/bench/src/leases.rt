// Taking, showing and giving back: the calls of those who use a block.
ghost use Rattle.std.specs.Prelude.{◌≡◌, ℕ, ◌<◌, true, false, not, is_some, List, IfOk, MatchResult, slice_index_or};
ghost use Rattle.std.specs.List.{position};
ghost use Rattle.history.specs.Calls.{answered, reported, leased, lease_told, honours, report, close, take_block, report_of, there};
ghost use Rattle.bench.specs.Model.{world};

use crate::lane::step;
use crate::quiet::any_live;
use crate::state::Bench;
use disk::Disk;
use history::{Event, Lane, Lease, Report, Stage};
use refusal::Refusal;

impl<D: Disk> Bench<D> {
    // What is told of the lane of a head.
    pub fn report(&self, head: u32) -> Result<Report, Refusal>
        ensures { (pool : List ℕ) → answered reported result ≡ (report (world D.Disk.meaning pool self.entry.now) head).1 }
    {
        if head > 7 {
            return Err(Refusal::Bounds);
        }
        let lane = self.lane(head)?;
        Ok(report_of(&lane))
    }
}

impl<D: Disk> Bench<D> {
    // Ends the lane of a head, if it is live, and empties the head: what is told of the lane then.
    pub fn close(&mut self, head: u32) -> Result<Report, Refusal>
        ensures answer { (pool : List ℕ) → answered reported result ≡ (close (world D.Disk.meaning pool self.entry.now) head).1 }
        ensures bench { (pool : List ℕ) → world D.Disk.meaning pool self.exit.now ≡ (close (world D.Disk.meaning pool self.entry.now) head).0 }
    {
        if head > 7 {
            return Err(Refusal::Bounds);
        }
        let mut lane = self.lane(head)?;
        step(&mut lane, Event::Close);
        self.lanes[head as usize] = None;
        self.live = any_live(&self.lanes);
        Ok(report_of(&lane))
    }
}

impl<D: Disk> Bench<D> {
    // The lane of a head.
    fn lane(&self, head: u32) -> Result<Lane, Refusal>
        requires { head < 8 }
        ensures { MatchResult result (λ l. slice_index_or self.entry.now.lanes head None ≡ Some l) (λ e. (slice_index_or self.entry.now.lanes head None ≡ None) × (e ≡ Refusal.HeadEmpty)) }
    {
        self.lanes[head as usize].ok_or(Refusal::HeadEmpty)
    }

    // Lends a block of a head's lane to a party: the lowest lease number that is free.
    pub fn take(&mut self, head: u32, block: u32, party: u32) -> Result<u8, Refusal>
        ensures answer { (pool : List ℕ) → answered leased result ≡ (take_block (world D.Disk.meaning pool self.entry.now) head block party false).1 }
        ensures bench { (pool : List ℕ) → world D.Disk.meaning pool self.exit.now ≡ (take_block (world D.Disk.meaning pool self.entry.now) head block party false).0 }
    {
        self.lend(head, block, party, false)
    }

    // The same, by slip or by number. A call names head, block and party once, so they are no struct.
    pub(crate) fn lend(
        &mut self,
        head: u32,
        block: u32,
        party: u32,
        slip: bool,
    ) -> Result<u8, Refusal>
        ensures answer { (pool : List ℕ) → answered (λ m. lease_told self.entry.now.number m party slip) result ≡ (take_block (world D.Disk.meaning pool self.entry.now) head block party slip).1 }
        ensures bench { (pool : List ℕ) → world D.Disk.meaning pool self.exit.now ≡ (take_block (world D.Disk.meaning pool self.entry.now) head block party slip).0 }
        ensures honoured { IfOk result (λ m. slip ≡ true → (pool : List ℕ) → honours (world D.Disk.meaning pool self.exit.now) (record { lease = m; bench = self.entry.now.number; party = party }) ≡ true) }
    {
        if head > 7 || block > 4095 || party > 3 {
            return Err(Refusal::Bounds);
        }
        let lane = self.lane(head)?;
        if !is_there(self.now, &lane, block) {
            return Err(Refusal::NotThere);
        }
        let number = first_vacant(&self.leases).ok_or(Refusal::LeasesOut)?;
        let lease = Lease {
            party,
            head,
            admitted: lane.admitted,
            index: block,
            block: lane.order.first + block,
            buffer: lane.buffers[(block % lane.order.timing.depth) as usize],
            slip,
        };
        // The lease holds up no lane but this one, which alone has its head.
        self.lapse = self.lapse.min(lane.order.timing.deadline(block + 1));
        // The next tick works it out anew.
        self.quiet = 0;
        self.leases[number] = Some(lease);
        Ok(number as u8)
    }
}

// Whether a block of the lane is there: the lane is live, the block is read and its burn has not ended.
fn is_there(slot: u32, lane: &Lane, block: u32) -> bool
    ensures { result ≡ there slot lane.now block }
{
    let Stage::Live = lane.stage else {
        return false;
    };
    block < lane.next && (slot as u64) < lane.order.timing.deadline(block + 1)
}

// The lowest lease number that is free.
fn first_vacant(leases: &[Option<Lease>]) -> Option<usize>
    ensures { result ≡ position (λ o. not (is_some o)) leases.now }
{
    leases.iter().position(|lease| lease.is_none())
}

fn report_of(lane: &Lane) -> Report
    ensures { result ≡ report_of lane.now }
{
    Report {
        stage: lane.stage,
        next: lane.next,
        failed: lane.failed,
    }
}
