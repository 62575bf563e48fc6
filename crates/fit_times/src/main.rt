// Times `schedule::overfull` over eight lanes of 4,096 blocks. What it answers goes to standard output, and
// how long it took, which differs from run to run, to standard error.
#![tactic(auto)]

use schedule::{Timing, Work, overfull};
use std::io;
use std::time::Instant;

// Eight lanes that differ in their starts.
#[derive(Clone, Copy)]
struct Case {
    name: &'static str,
    period: u32,
    spare: u32,
    starts: [u32; 8],
}

const ALIKE: [u32; 8] = [1000, 1000, 1000, 1000, 1000, 1000, 1000, 1000];

const RISING: [u32; 8] = [1000, 1005, 1010, 1015, 1020, 1025, 1030, 1035];

const MIXED: [u32; 8] = [1025, 1010, 1035, 1000, 1020, 1005, 1030, 1015];

static CASES: [Case; 6] = [
    Case {
        name: "period 40, 3 spare, starts alike",
        period: 40,
        spare: 3,
        starts: ALIKE,
    },
    Case {
        name: "period 40, 3 spare, starts rise",
        period: 40,
        spare: 3,
        starts: RISING,
    },
    Case {
        name: "period 40, 3 spare, starts mixed",
        period: 40,
        spare: 3,
        starts: MIXED,
    },
    Case {
        name: "period 136, 15 spare, starts alike",
        period: 136,
        spare: 15,
        starts: ALIKE,
    },
    Case {
        name: "period 136, 15 spare, starts mixed",
        period: 136,
        spare: 15,
        starts: MIXED,
    },
    Case {
        name: "period 39, 4 spare, starts mixed",
        period: 39,
        spare: 4,
        starts: MIXED,
    },
];

fn main(rt: HostRuntime) -> io::Result<()> {
    for case in &CASES {
        let work = case
            .starts
            .map(|start| new_lane(case.period, case.spare, start));
        time(&rt, case.name, &work)?;
    }
    Ok(())
}

fn new_lane(period: u32, spare: u32, start: u32) -> Work {
    Work {
        timing: Timing {
            count: 4096,
            start,
            period,
            depth: 2,
            spare,
        },
        admitted: 0,
        next: 0,
        failed: 0,
    }
}

// Tells the answer, and the least time of fifty calls.
fn time(rt: &HostRuntime, name: &str, work: &[Work; 8]) -> io::Result<()> {
    let mut least = u128::MAX;
    for _ in 0..50 {
        let start = Instant::now(rt)?;
        let _ = overfull(0, work);
        least = least.min(start.elapsed(rt)?.as_nanos());
    }
    match overfull(0, work) {
        Ok(None) => println!(rt; "{name}: fits")?,
        Ok(Some(span)) => println!(rt; "{name}: overfull ({}, {})", span.l, span.h)?,
        Err(_) => println!(rt; "{name}: outside the limits")?,
    }
    eprintln!(rt; "{name}: {least} ns")
}
