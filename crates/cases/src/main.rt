// Cases that are run: what the writer refuses, with the output that it leaves; a full gap table; requests; decimals.
#![tactic(auto)]

use std::io::Stdout;
use window::{Failure, Gathered};

mod asking;
mod decimals;
mod refused;
mod said;
mod table;

// The lines of all cases are written together.
pub type Lines = Gathered<Stdout, 4096>;

fn main(rt: HostRuntime) {
    let mut lines = Gathered::new(rt.stdout());
    refused::cases(&mut lines);
    table::cases(&mut lines);
    asking::cases(&mut lines);
    decimals::cases(&mut lines);
    if let Err(why) = lines.flush_all() {
        Failure::Output(why).tell(&rt, "cases");
    }
}
