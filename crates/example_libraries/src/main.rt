//! Uses the libraries: an 8080 runs over devices of one's own, and object files are read, linked, placed and printed.
#![tactic(auto)]

mod counting;
mod devices;
mod images;
mod placing;

use anyhow::Result;

fn main(rt: HostRuntime) -> Result<()> {
    counting::print_count(&rt)?;
    placing::print_image(&rt)
}
