// Walks each call of the machine through every one of its answers, each pair of neighbouring refusals with both reasons
// there, and each way out of shape. The file stdout beside this has what must come, to be laid beside the paper.
#![tactic(auto)]

mod asking;
mod copying;
mod issuing;
mod machines;
mod noting;
mod recording;
mod shapes;
mod starting;

use std::io;

fn main(rt: HostRuntime) -> io::Result<()> {
    starting::walk(&rt)?;
    issuing::walk(&rt)?;
    noting::walk(&rt)?;
    asking::walk(&rt)?;
    recording::walk(&rt)?;
    copying::walk(&rt)?;
    shapes::walk(&rt)
}
