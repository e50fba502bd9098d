//! Recombines the shares on standard input, and prints the element that they make up.
#![tactic(auto)]

use programs::serve;
use std::process::ExitCode;

// Only `main` names the runtime.
fn main(rt: HostRuntime) -> anyhow::Result<ExitCode> {
    Ok(serve(
        rt.alloc(),
        office::answer,
        &mut rt.stdin(),
        &mut rt.stdout(),
        &mut rt.stderr(),
    )?)
}
