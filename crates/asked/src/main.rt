// Asks the questions of good and of damaged tables, and prints a line for each: the question, its number and its value.
#![tactic(auto)]

mod comparing;
mod cutting;
mod damaging;
mod finding;
mod reading;
mod show;
mod table;

use std::io;

fn main(rt: HostRuntime) -> io::Result<()> {
    let t = table::good();
    reading::all(&rt, &t)?;
    finding::all(&rt, &t)?;
    cutting::all(&rt, &t)?;
    damaging::all(&rt, &t)?;
    comparing::all(&rt)
}
