// Plays the sheet on standard input, and writes what it prints to standard output.
#![tactic(auto)]

use player::{bytes_enough, play};
use std::io::{Read, Write};

fn main(rt: HostRuntime) -> anyhow::Result<()> {
    let mut sheet = Vec::new(rt.alloc());
    rt.stdin().take(bytes_enough()).read_to_end(&mut sheet)?;
    let mut printed = Vec::new(rt.alloc());
    play(&sheet, &mut printed)?;
    rt.stdout().write_all(&printed)?;
    Ok(())
}
