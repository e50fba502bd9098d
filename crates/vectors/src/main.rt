//! Works the cases on standard input, and prints a line with the result of each.
#![tactic(auto)]

use programs::serve;
use std::process::ExitCode;

// Only `main` names the runtime.
fn main(rt: HostRuntime) -> anyhow::Result<ExitCode> {
    Ok(serve(
        rt.alloc(),
        cases::answer,
        &mut rt.stdin(),
        &mut rt.stdout(),
        &mut rt.stderr(),
    )?)
}
