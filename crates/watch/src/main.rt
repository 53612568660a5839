// Replays the incident that the handover is built against (01, P8): two depots lose their links to the order server, and in the old
// matrix, handed to the new engine, each goes on confirming the other's route. One screen to a step.
#![tactic(auto)]

mod matrix;
mod network;
mod scenes;
mod showing;
mod telling;

use std::io;

fn main(rt: HostRuntime) -> io::Result<()> {
    scenes::words(&rt)?;
    scenes::before(&rt)?;
    scenes::lost(&rt)?;
    scenes::swept(&rt)?;
    scenes::from_fresh(&rt)?;
    scenes::settled(&rt)?;
    scenes::closing(&rt)
}
