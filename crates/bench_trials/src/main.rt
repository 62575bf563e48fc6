// Trials of a bench: the story of a preview that closes while a head burns, as a list of calls; and slips.
#![tactic(auto)]

use anyhow::anyhow;
use bench::performing::{Answer, Call, perform};
use bench::{Bench, Order};
use disk::Disk;
use disk::strip::Strip;
use history::{Asked, Tick, Ticked};
use layers::plan::{Entries, Plan};
use refusal::Refusal;
use schedule::Timing;
use std::io;

// The party that burns, and the preview.
const HEAD: u32 = 0;

const PREVIEW: u32 = 1;

fn main(rt: HostRuntime) -> anyhow::Result<()> {
    run(&rt)
}

// Block y of the disk has y + 1 in all of its 64 bytes; the first read of block 8 fails.
fn run(rt: &HostRuntime) -> anyhow::Result<()> {
    let mut bytes = Vec::new(rt.alloc());
    for block in 0..12u8 {
        for _ in 0..64 {
            bytes.push(block + 1)?;
        }
    }
    let mut pool = vec![in rt.alloc(); 0; 2048]?;
    let Ok(story) = story() else {
        return Err(anyhow!("no order"));
    };
    println!(rt; "while the preview is open:")?;
    play(rt, bytes.as_slice(), pool.as_mut_slice(), &story[0..9])?;
    println!(rt; "after it closed, in the slot before a read:")?;
    play(rt, bytes.as_slice(), pool.as_mut_slice(), &story)?;
    slips(rt, bytes.as_slice(), pool.as_mut_slice())
}

// Head 0 burns its block 0 from slot 4 on; the head and the preview both take it, at slot 5. Head 1's read of block 8
// fails in that slot, and so moves to slot 6. In between the preview gives its lease back, head 0 is closed, and an
// order for head 2 comes, whose blocks are read in the slots then.
fn story() -> Result<[Call; 18], Refusal> {
    let mut calls = [Call::Tick; 18];
    calls[0] = admit(0, 0, timing(2, 4, 8, 0))?;
    calls[6] = take(HEAD);
    calls[7] = take(PREVIEW);
    calls[8] = admit(1, 8, timing(1, 9, 4, 1))?;
    calls[10] = Call::Give {
        party: PREVIEW,
        lease: 1,
    };
    calls[11] = Call::Close { head: 0 };
    calls[12] = admit(2, 4, timing(2, 10, 4, 0))?;
    Ok(calls)
}

// `count` blocks from slot `start` on, `period` slots each, through two buffers.
fn timing(count: u32, start: u32, period: u32, spare: u32) -> Timing {
    Timing {
        count,
        start,
        period,
        depth: 2,
        spare,
    }
}

// An order for a head, from the block `first` of the disk on.
fn admit(head: u32, first: u32, timing: Timing) -> Result<Call, Refusal> {
    Ok(Call::Admit(Order::new(Asked {
        head,
        first,
        timing,
    })?))
}

// Block 0 of head 0, for a party.
fn take(party: u32) -> Call {
    Call::Take {
        head: 0,
        block: 0,
        party,
        slip: false,
    }
}

// Performs the calls on a new bench, and then shows the head its lease.
fn play(rt: &HostRuntime, bytes: &[u8], pool: &mut [u8], calls: &[Call]) -> anyhow::Result<()> {
    let mut entries = Entries::new();
    let _ = entries.add(8, 1);
    let Ok(strip) = Strip::new(bytes) else {
        return Err(anyhow!("no disk"));
    };
    let done = perform(0, Plan::new(strip, entries), pool, calls, rt.alloc())?;
    for answer in done.answers.as_slice() {
        tell(rt, answer)?;
    }
    match done.bench.show(HEAD, 0, pool) {
        Ok([first, .., last]) => println!(rt; "  the head is shown {first} to {last}")?,
        _ => println!(rt; "  the head is shown nothing")?,
    }
    Ok(())
}

fn tell(rt: &HostRuntime, answer: &Result<Answer, Refusal>) -> io::Result<()> {
    match answer {
        Err(refusal) => println!(rt; "  refused {}", refusal.number()),
        Ok(Answer::Ticked(Tick { did, .. })) => match did {
            Ticked::Idle => println!(rt; "  idle"),
            Ticked::Read { head, block } => println!(rt; "  read {head} {block}"),
            Ticked::Failed { head, block, .. } => println!(rt; "  failed {head} {block}"),
        },
        Ok(Answer::Leased(lease)) => println!(rt; "  lease {lease}"),
        Ok(_) => println!(rt; "  granted"),
    }
}

// The slip of a bench is shown and given back there; another bench refuses it.
fn slips(rt: &HostRuntime, bytes: &[u8], pool: &mut [u8]) -> anyhow::Result<()> {
    let (Ok(strip), Ok(other), Ok(order)) = (
        Strip::new(bytes),
        Strip::new(bytes),
        Order::new(Asked {
            head: 0,
            first: 5,
            timing: timing(1, 1, 4, 0),
        }),
    ) else {
        return Err(anyhow!("no bench"));
    };
    let mut bench = Bench::new(1, strip);
    let mut other = Bench::new(2, other);
    let _ = bench.admit(order);
    let _ = bench.tick(pool);
    println!(rt;
        "slips: {} {}",
        preview(&mut bench, pool),
        foreign(&mut bench, &mut other)
    )?;
    Ok(())
}

// A preview by slip, which is shown and given back: 0, or the refusal's number.
fn preview<D: Disk>(bench: &mut Bench<D>, pool: &[u8]) -> u8 {
    match bench.take_slip(0, 0, PREVIEW) {
        Ok(mut slip) => {
            let shown = number(bench.show_slip(&slip, pool));
            let _given = bench.give_slip(&mut slip);
            shown
        }
        Err(refusal) => refusal.number(),
    }
}

fn number(shown: Result<&[u8], Refusal>) -> u8 {
    match shown {
        Ok(_) => 0,
        Err(refusal) => refusal.number(),
    }
}

// A slip that another bench refuses is still to be given back: the refusal's number.
fn foreign<D: Disk, E: Disk>(bench: &mut Bench<D>, other: &mut Bench<E>) -> u8 {
    match bench.take_slip(0, 0, PREVIEW) {
        Ok(mut slip) => {
            match other.give_slip(&mut slip) {
                Ok(()) => 0,
                Err(refusal) => {
                    let _ = bench.give_slip(&mut slip);
                    refusal.number()
                }
            }
        }
        Err(refusal) => refusal.number(),
    }
}
