// Checks a cue list before a job: reads it from standard input and prints the number, line and place of its first
// fault, or its calls in the order in which they would run, a line each, and how many they are.
#![tactic(auto)]

use cuelists::check::check_list;
use std::io::Read;

fn main(rt: HostRuntime) -> anyhow::Result<()> {
    let mut input = Vec::new(rt.alloc());
    rt.stdin().read_to_end(&mut input)?;
    let text = check_list(rt.alloc(), input.as_slice())?;
    rt.print(text)?;
    Ok(())
}
