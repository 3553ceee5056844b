//! Rows of unit calls of the byte side. Each row of `stdin` is a call; it is written again with what it answers, so that
//! `stdout` is the transcript of all. Rows of the same kind stand together below a line that begins with `#`.
#![tactic(auto)]

mod decimals;
mod frames;
mod messages;
mod rows;
mod sessions;
mod state;
mod texts;
mod times;
mod writing;

use rows::answer;
use state::State;
use std::io;

fn main(rt: HostRuntime) -> io::Result<()> {
    let Some(mut state) = State::new(rt.alloc()) else {
        return Ok(());
    };
    for line in rt.lines(rt.alloc()) {
        let row = line?;
        let mut shown = String::new(rt.alloc());
        answer(&mut state, &mut shown, row.as_str())?;
        println!(rt; "{row}{shown}")?;
    }
    Ok(())
}
