// Worked examples: the sum against the numbers that RFC 1071 prints in its section of numerical examples, and reads of
// a pile of layers, answer by answer.
#![tactic(auto)]

ghost use Rattle.trials.specs.Examples.{ExamplesHold};

use anyhow::anyhow;
use disk::Disk;
use disk::strip::Strip;
use image::sum::sum;
use layers::plan::{Entries, Plan};
use layers::retry::{Retry, Tries};
use refusal::Refusal;
use std::io;

fn main(rt: HostRuntime) -> anyhow::Result<()> {
    run(&rt)
}

fn run(rt: &HostRuntime) -> anyhow::Result<()> {
    examples_hold();
    sums(rt)?;
    pile(rt)
}

// The table of worked examples of the definitions holds.
fn examples_hold()
    ensures { ExamplesHold }
{}

// In order, with the bytes of each word swapped, and in two parts that meet in the middle of a word: the second part's
// sum is swapped before the two are added.
fn sums(rt: &HostRuntime) -> io::Result<()> {
    compare(
        rt,
        &[0x00, 0x01, 0xf2, 0x03, 0xf4, 0xf5, 0xf6, 0xf7],
        0xddf2,
    )?;
    compare(
        rt,
        &[0x01, 0x00, 0x03, 0xf2, 0xf5, 0xf4, 0xf7, 0xf6],
        0xf2dd,
    )?;
    compare(rt, &[0x00, 0x01, 0xf2], 0xf201)?;
    compare(rt, &[0x03, 0xf4, 0xf5, 0xf6, 0xf7], 0xf0eb)?;
    compare(rt, &[0xf2, 0x01, 0xeb, 0xf0], 0xddf2)
}

fn compare(rt: &HostRuntime, bytes: &[u8], printed: u32) -> io::Result<()> {
    let got = sum(bytes);
    let verdict = if got == printed {
        "as printed"
    } else {
        "DIFFERS"
    };
    print!(rt; "sum of")?;
    for byte in bytes {
        print!(rt; " {byte:02x}")?;
    }
    println!(rt; ": {got:04x}, {verdict}")
}

// Three blocks that begin with 1, 2 and 3; block 1 is to fail 5 times, and block 2 is dead; each read makes up to 2 calls.
fn pile(rt: &HostRuntime) -> anyhow::Result<()> {
    let mut bytes = [1; 192];
    bytes[64] = 2;
    bytes[128] = 3;
    let mut entries = Entries::new();
    let planned = entries.add(1, 5).is_ok()
        && entries.add(2, 0).is_ok()
        && entries.add(2, 1).is_err();
    println!(rt; "planned: {planned}")?;
    let (Ok(strip), Ok(tries)) = (Strip::new(&bytes), Tries::new(2)) else {
        return Err(anyhow!("no pile"));
    };
    let mut pile = Retry::new(Plan::new(strip, entries), tries);
    println!(rt; "size {}", pile.size())?;
    for block in [0, 1, 1, 1, 1, 2, 2, 3] {
        attempt(rt, &mut pile, block, 64)?;
    }
    attempt(rt, &mut pile, 0, 63)?;
    Ok(())
}

// One read into `room` bytes, at most 64: what it answers, and the memory's first byte after it.
fn attempt<D: Disk>(rt: &HostRuntime, disk: &mut D, block: usize, room: usize) -> io::Result<()> {
    let mut memory = [0; 64];
    let room = room.min(64);
    let answer = disk.read(block, &mut memory[0..room]);
    let first = memory[0];
    match answer {
        Ok(()) => println!(rt; "read {block}: granted, first byte {first}"),
        Err(Refusal::Faulted(fault)) => {
            println!(rt;
                "read {block}: {} {} {}, first byte {first}",
                fault.number(),
                fault.tag,
                fault.block
            )
        }
        Err(refusal) => println!(rt; "read {block}: {}, first byte {first}", refusal.number()),
    }
}
