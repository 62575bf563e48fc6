// Whole jobs, each a cue list over one bed image, run and held against the log that it should give.
#![tactic(auto)]

use jobs::run;
use std::fs;

// The bed has 120 records, of which number 77 is damaged. The logs were worked out by another program.
const JOBS: [&str; 10] = [
    "preview",
    "eight",
    "leases",
    "refusals",
    "far",
    "dead",
    "late_plan",
    "twice_planned",
    "wrong_word",
    "many",
];

fn main(rt: HostRuntime) -> anyhow::Result<()> {
    run_all(&rt)
}

fn run_all(rt: &HostRuntime) -> anyhow::Result<()> {
    let bed = fs::read(rt, "bed.img")?;
    for name in JOBS {
        try_job(rt, name, bed.as_slice())?;
    }
    let long = vec![in rt.alloc(); b'0'; 65537]?;
    tell(
        rt,
        "a list too long",
        gives(rt, Some(bed.as_slice()), long.as_slice(), b"18 0 0\n")?,
    )?;
    tell(
        rt,
        "no image",
        gives(rt, None, long.as_slice(), b"15 0 0\n")?,
    )
}

// Whether a job gives that log.
fn gives(
    rt: &HostRuntime,
    bed: Option<&[u8]>,
    cues: &[u8],
    expected: &[u8],
) -> anyhow::Result<bool> {
    let log = run(bed, cues, rt.alloc())?;
    Ok(log.as_slice() == expected)
}

// Runs NAME.cues and compares with NAME.log.
fn try_job(rt: &HostRuntime, name: &str, bed: &[u8]) -> anyhow::Result<()> {
    let cues = fs::read(rt, format!(in rt.alloc(); "{name}.cues")?)?;
    let expected = fs::read(rt, format!(in rt.alloc(); "{name}.log")?)?;
    tell(
        rt,
        name,
        gives(rt, Some(bed), cues.as_slice(), expected.as_slice())?,
    )
}

fn tell(rt: &HostRuntime, name: &str, same: bool) -> anyhow::Result<()> {
    let verdict = if same { "as expected" } else { "DIFFERS" };
    println!(rt; "{name}: {verdict}")?;
    Ok(())
}
