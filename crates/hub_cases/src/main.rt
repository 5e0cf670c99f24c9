// Walks each call of the hub through every one of its answers, each pair of neighbouring refusals with both reasons there,
// a ring that fills and turns, and each way out of shape. The file stdout beside this has what must come, to be laid beside
// the paper.
#![tactic(auto)]

mod copying;
mod fetching;
mod hubs;
mod shapes;
mod starting;
mod submitting;

use std::io;

fn main(rt: HostRuntime) -> io::Result<()> {
    starting::walk(&rt)?;
    submitting::walk(&rt)?;
    fetching::walk(&rt)?;
    copying::walk(&rt)?;
    shapes::walk(&rt)
}
