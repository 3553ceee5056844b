//! A program for the tests of a journal on a real file. `journal_rows FILE BATCHES ROWS` takes the file up, tells how many numbered
//! rows it found, and appends batches of the rows that follow, each told once it is durable.
#![tactic(auto)]

mod rows;
mod running;

use running::run;
use std::process::ExitCode;

fn main(rt: HostRuntime) -> ExitCode {
    match run(&rt) {
        Ok(true) => ExitCode::SUCCESS,
        _ => ExitCode::FAILURE,
    }
}
