// Replays a trace from standard input on a lift machine, and writes a record for each line.
#![tactic(auto)]

use promise::lift::new_lift;
use promise::set_up;
use replay::replay;
use std::io;
use std::io::{Read, Write};

#[cfg(test)]
mod tests;

fn main(rt: HostRuntime) -> io::Result<()> {
    let heap = rt.alloc();
    let mut trace = Vec::new(heap);
    rt.stdin().read_to_end(&mut trace)?;
    let done = replay(heap, set_up(new_lift()), &trace)?;
    rt.stdout().write_all(&done.records)
}
