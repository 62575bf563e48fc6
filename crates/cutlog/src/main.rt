// Runs a cue list from standard input over the bed image in bed.img of the current folder, and prints the log.
#![tactic(auto)]

use jobs::run;
use std::fs;
use std::io::{Read, Write};

fn main(rt: HostRuntime) -> anyhow::Result<()> {
    cut(&rt)
}

fn cut(rt: &HostRuntime) -> anyhow::Result<()> {
    // A file that cannot be read is a missing image.
    let image = fs::read(rt, "bed.img").ok();
    let mut cues = Vec::new(rt.alloc());
    rt.stdin().read_to_end(&mut cues)?;
    let log = run(
        image.as_ref().map(|bytes| bytes.as_slice()),
        cues.as_slice(),
        rt.alloc(),
    )?;
    rt.stdout().write_all(log.as_slice())?;
    Ok(())
}
