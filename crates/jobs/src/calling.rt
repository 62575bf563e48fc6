// One cue as a call of the bench.
ghost use Rattle.std.specs.Prelude.{◌≡◌, ℕ, List};
ghost use Rattle.refusal.specs.Told.{answer_number};
ghost use Rattle.history.specs.Calls.{answered, done, close};
ghost use Rattle.bench.specs.Model.{world};
ghost use Rattle.loglines.specs.Text.{log_line};
ghost use Rattle.jobs.specs.Lines.{cue_line, number_of};
ghost use Rattle.jobs.specs.Run.{called, ordered};

use bench::{Bench, Order};
use cues::Call;
use disk::Disk;
use history::Asked;
use loglines::LogLine;
use refusal::Refusal;
use schedule::Timing;

// Makes a cue's call at the slot that the bench is at, and answers its line of the log.
pub(crate) fn call<D: Disk>(bench: &mut Bench<D>, asked: &Call) -> LogLine
    ensures line { (pool : List ℕ) → log_line result ≡ cue_line bench.old.now asked.now (called (world D.Disk.meaning pool bench.old) asked.now).1 }
    ensures bench { (pool : List ℕ) → world D.Disk.meaning pool bench.new ≡ (called (world D.Disk.meaning pool bench.old) asked.now).0 }
{
    let slot = bench.slot();
    match *asked {
        Call::Order {
            head,
            first,
            count,
            start,
            period,
            depth,
            spare,
        } => {
            let timing = Timing {
                count,
                start,
                period,
                depth,
                spare,
            };
            let asked = Asked {
                head,
                first,
                timing,
            };
            let answer = order(bench, asked);
            LogLine::Order { slot, head, answer }
        }
        Call::Take { head, block, party } => {
            let answer = bench.take(head, block, party);
            LogLine::Take {
                slot,
                head,
                block,
                party,
                answer,
            }
        }
        Call::Give { party, lease } => {
            let answer = bench.give(party, lease);
            LogLine::Give {
                slot,
                party,
                lease,
                answer,
            }
        }
        Call::Close { head } => {
            let answer = close(bench, head);
            LogLine::Close { slot, head, answer }
        }
    }
}

// Admits what a cue asks for, where its numbers make an order.
fn order<D: Disk>(bench: &mut Bench<D>, asked: Asked) -> Result<(), Refusal>
    ensures answer { (pool : List ℕ) → answered (λ _. done) result ≡ (ordered (world D.Disk.meaning pool bench.old) asked).1 }
    ensures bench { (pool : List ℕ) → world D.Disk.meaning pool bench.new ≡ (ordered (world D.Disk.meaning pool bench.old) asked).0 }
{
    bench.admit(Order::new(asked)?)
}

// Closes a head. The log says no more of it than whether it was refused.
fn close<D: Disk>(bench: &mut Bench<D>, head: u32) -> Result<(), Refusal>
    ensures answer { (pool : List ℕ) → answer_number result ≡ number_of (close (world D.Disk.meaning pool bench.old) head).1 }
    ensures bench { (pool : List ℕ) → world D.Disk.meaning pool bench.new ≡ (close (world D.Disk.meaning pool bench.old) head).0 }
{
    bench.close(head).map(|_| ())
}
