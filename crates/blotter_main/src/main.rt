//! The program `blotter`, thin: it asks `blot_arguments` what its command line wants, hands its streams to the library
//! of its own name, and ends with the status of the run. What a run does is proved in that library; here stand
//! what is told on standard error, the file, the port, and `main`.
#![tactic(auto)]

mod asking;
mod failure;
mod journals;
mod keeping;
mod running;
mod sockets;
mod staffing;

use running::run;
use std::io::IsTerminal;
use std::process::ExitCode;

// Runs the program over the streams of its process.
fn main(rt: HostRuntime) -> ExitCode {
    let mut input = rt.stdin();
    let mut output = rt.stdout();
    let mut errors = rt.stderr();
    let prompts = input.is_terminal() && output.is_terminal();
    let outcome = run(
        &rt,
        &rt,
        &rt,
        &rt,
        prompts,
        &mut input,
        &mut output,
        &mut errors,
    );
    ExitCode::from(outcome.status())
}
