// A list of calls on a new bench, performed one after the other. What holds after every such list is proved here.
ghost use Rattle.std.specs.Prelude.{◌≡◌, IfOk};
ghost use Rattle.history.specs.Calls.{new};
ghost use Rattle.history.specs.Laws.{BenchLaws, Start};
ghost use Rattle.bench.specs.Model.{world};
ghost use Rattle.bench.specs.Performing.{Obeys, Performs, lent};

use crate::order::Order;
pub use crate::slip::SlipNumbers;
use crate::state::Bench;
use disk::Disk;
use history::{Report, Tick};
use refusal::Refusal;
use std::alloc::{AllocError, Global};

// A call as a value. A list holds no slip: one that is given back is named by its numbers.
#[derive(Clone, Copy)]
pub enum Call {
    Admit(Order),
    Tick,
    // By slip or by number.
    Take {
        head: u32,
        block: u32,
        party: u32,
        slip: bool,
    },
    Give {
        party: u32,
        lease: u32,
    },
    GiveSlip(SlipNumbers),
    Close {
        head: u32,
    },
}

// What a call that was not refused answered.
#[derive(Clone, Copy, PartialEq, Eq, Debug)]
pub enum Answer {
    // An order is admitted, or a lease is back.
    Done,
    Ticked(Tick),
    Leased(u8),
    Slipped(SlipNumbers),
    Reported(Report),
}

// A bench after a list of calls, and what each of them answered.
#[derive(Drop)]
pub struct Performed<D> {
    pub bench: Bench<D>,
    pub answers: Vec<Result<Answer, Refusal>>,
}

// Performs a list of calls on a new bench of that number, over that disk and pool; the laws of a bench hold after it.
pub fn perform<D: Disk + Drop>(
    number: u16,
    disk: D,
    pool: &mut [u8],
    calls: &[Call],
    heap: Global,
) -> Result<Performed<D>, AllocError>
    ensures performs { IfOk result (λ p. Performs (new number (D.Disk.meaning disk) pool.old) calls.now p.answers.items (world D.Disk.meaning pool.new p.bench)) }
    ensures laws { Start (D.Disk.meaning disk) pool.old → BenchLaws number (D.Disk.meaning disk) pool.old }
{
    let mut bench = Bench::new(number, disk);
    let mut answers = Vec::new(heap);
    for call in calls {
        let answer = bench.obey(pool, call);
        answers.push(answer)?;
    }
    Ok(Performed { bench, answers })
}

impl<D: Disk> Bench<D> {
    // One call of a list.
    fn obey(&mut self, pool: &mut [u8], call: &Call) -> Result<Answer, Refusal>
        ensures { Obeys (world D.Disk.meaning pool.old self.entry.now) call.now result (world D.Disk.meaning pool.new self.exit.now) }
    {
        match *call {
            Call::Admit(order) => {
                self.admit(order)?;
                Ok(Answer::Done)
            }
            Call::Tick => Ok(Answer::Ticked(self.tick(pool)?)),
            Call::Take {
                head,
                block,
                party,
                slip,
            } => {
                let bench = self.number;
                let lease = self.lend(head, block, party, slip)?;
                Ok(lent(bench, party, slip, lease))
            }
            Call::Give { party, lease } => {
                self.give(party, lease)?;
                Ok(Answer::Done)
            }
            Call::GiveSlip(numbers) => {
                self.give_named(&numbers)?;
                Ok(Answer::Done)
            }
            Call::Close { head } => Ok(Answer::Reported(self.close(head)?)),
        }
    }
}

// A lease as a take answers it, by slip or by number.
fn lent(bench: u16, party: u32, slip: bool, lease: u8) -> Answer
    ensures { result ≡ lent bench party slip lease }
{
    if slip {
        Answer::Slipped(SlipNumbers {
            lease: lease as u32,
            bench,
            party,
        })
    } else {
        Answer::Leased(lease)
    }
}
