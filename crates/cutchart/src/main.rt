// Shows a job to the service engineer: reads its log from standard input and writes its chart, an SVG, to standard
// output; or, where a line is no line of a log, number, line and place of the first wrong word.
#![tactic(auto)]

use charts::chart::chart_log;
use std::io::Read;

fn main(rt: HostRuntime) -> anyhow::Result<()> {
    let mut input = Vec::new(rt.alloc());
    rt.stdin().read_to_end(&mut input)?;
    let text = chart_log(rt.alloc(), input.as_slice())?;
    rt.print(text)?;
    Ok(())
}
