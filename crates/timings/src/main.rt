#![tactic(auto)]
//! `timings`: how long single calls take, each beside a plain one in the same run. With no words it
//! does nothing. Each word is the name of a measurement, `locks`, `tries`, `looks`, `heaps`, `spaced`,
//! `squares`, `drops`, `cold` or `returns`, whose two times it prints, in picoseconds a turn. `heaps`, `spaced` and
//! `squares` search and free where the numbers of the segments rise by one, by three and as the squares.
//! In `drops` and `cold` a turn is a page, and in `returns` a note that is given and taken. `cold` is
//! `drops` behind 8 MiB of other memory.

mod heap_steps;
mod queue_steps;
mod segment_steps;

use crate::heap_steps::{Numbers, drops, heaps};
use crate::queue_steps::returns;
use crate::segment_steps::{Times, locks, looks, tries};
use std::{env, io};

fn main(rt: HostRuntime) -> io::Result<()> {
    let alloc = rt.alloc();
    let names = env::args(&rt)?.skip(1).collect::<Vec<String>>(alloc)?;
    for name in &names {
        let times = match name.as_str() {
            "locks" => locks(&rt, alloc)?,
            "tries" => tries(&rt, alloc)?,
            "looks" => looks(&rt, alloc)?,
            "heaps" => heaps(&rt, alloc, Numbers::ByOne)?,
            "spaced" => heaps(&rt, alloc, Numbers::ByThree)?,
            "squares" => heaps(&rt, alloc, Numbers::Squares)?,
            "drops" => drops(&rt, alloc, 0)?,
            "cold" => drops(&rt, alloc, 1_048_576)?,
            "returns" => returns(&rt, &rt, alloc)?,
            _ => continue,
        };
        let Times { ours, plain } = times;
        println!(rt; "{name} {ours} plain {plain}")?;
    }
    Ok(())
}
