// The start of the program `layouts`: it ends with the status that the library answers.
#![tactic(auto)]

use std::process::ExitCode;

fn main(rt: HostRuntime) -> ExitCode {
    layouts::layouts_run(&rt)
}
