// Makes bed.img in the current folder from raw rows on standard input: 64 bytes a row, the last filled with zeros.
#![tactic(auto)]

use image::bed::bed;
use std::fs;
use std::io::Read;

fn main(rt: HostRuntime) -> anyhow::Result<()> {
    run(&rt)
}

fn run(rt: &HostRuntime) -> anyhow::Result<()> {
    let heap = rt.alloc();
    let mut rows = Vec::new(heap);
    rt.stdin().read_to_end(&mut rows)?;
    match bed(heap, rows.as_slice())? {
        Ok(bytes) => {
            fs::write(rt, "bed.img", bytes.as_slice())?;
            println!(rt; "bed.img: {} records", bytes.len() / 70)?;
        }
        Err(_) if rows.is_empty() => println!(rt; "no rows on standard input: nothing written")?,
        Err(_) => println!(rt; "more than 4096 rows on standard input: nothing written")?,
    }
    Ok(())
}
