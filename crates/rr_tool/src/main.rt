//! The program `rr`: it runs a script of several nodes, checks lines of the line protocol, or
//! serves as a node. What it does with its process is [`rr_server::run`].
#![tactic(auto)]

use rr_server::run;
use std::process::ExitCode;

fn main(rt: HostRuntime) -> ExitCode {
    let ending = run(&rt);
    // If this can't be printed, the status still says how the run ended.
    let _printed = ending.print(&rt);
    ExitCode::from(ending.status())
}
