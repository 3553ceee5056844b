//! The command line as `clap` reads and explains it.

use crate::help::{
    ABOUT_ASK, ABOUT_AUDIT, ABOUT_DESK, ABOUT_REPLAY, ABOUT_SERVE, AFTER_ASK, AFTER_AUDIT,
    AFTER_DESK, AFTER_REPLAY, AFTER_SERVE, ASK_EXAMPLE, AUDIT_EXAMPLE, DESK_EXAMPLE, EXAMPLE,
    SERVE_EXAMPLE,
};
use clap::builder::ValueParser;
use clap::{Arg, Command};
use std::alloc::{AllocError, Global};

/// The version of the program, which `blotter --version` tells.
pub const VERSION: &str = "1.3.2";
/// The subcommand that replays a capture.
pub const REPLAY: &str = "replay";
/// The subcommand that keeps a desk for its operator.
pub const DESK: &str = "desk";
/// The subcommand that tells the audit trail of a capture.
pub const AUDIT: &str = "audit";
/// The subcommand that serves brokers as they connect.
pub const SERVE: &str = "serve";
/// The subcommand that asks a served day.
pub const ASK: &str = "ask";
/// The option with one's own CompID.
pub const OWN: &str = "own";
/// The option with the trading day.
pub const DAY: &str = "day";
/// The option with the file that holds a capture.
pub const CAPTURE: &str = "capture";
/// The option with the file that keeps a day.
pub const JOURNAL: &str = "journal";
/// The option with the socket that operators come by.
pub const OPERATORS: &str = "operators";
/// The option with an operator's name.
pub const NAME: &str = "name";
/// The option with the TCP port.
pub const PORT: &str = "port";
/// The largest TCP port.
pub const PORT_MAX: u16 = 65_535;
/// The option with the number of lanes.
pub const LANES: &str = "lanes";
/// The most lanes.
pub const LANES_MAX: u16 = 1_000;
/// The option with the number of connections of a round.
pub const SESSIONS: &str = "sessions";
/// The most connections of a round.
pub const SESSIONS_MAX: u16 = 1_000;
/// The option with the number of rounds.
pub const ROUNDS: &str = "rounds";
/// The most rounds of a day.
pub const ROUNDS_MAX: u16 = 1_000;
/// The peers, after the options.
pub const PEER: &str = "peer";
/// The socket that a client connects to.
pub const PATH: &str = "path";

/// The whole command line. Help that nobody asked for is the answer to no words at all.
pub fn command<'a>(alloc: Global) -> Result<Command<'a>, AllocError> {
    let blotter = Command::new(alloc, "blotter")
        .bin_name("blotter")?
        .version(VERSION)
        .about(
            "Keeps a middle office's record of a trading day from its brokers' FIX 4.4 drop copies.",
        )
        .subcommand_required(true)
        .arg_required_else_help(true);
    let blotter = with_subcommand(blotter, replay_command(alloc))?;
    let blotter = with_subcommand(blotter, desk_command(alloc))?;
    let blotter = with_subcommand(blotter, audit_command(alloc))?;
    let blotter = with_subcommand(blotter, serve_command(alloc))?;
    with_subcommand(blotter, ask_command(alloc))
}

// A command with a further subcommand, or out of memory.
fn with_subcommand<'a>(
    command: Command<'a>,
    subcommand: Result<Command<'a>, AllocError>,
) -> Result<Command<'a>, AllocError> {
    match subcommand {
        Ok(subcommand) => command.subcommand(subcommand),
        Err(fault) => {
            drop(command);
            Err(fault)
        }
    }
}

// The subcommand that replays a capture, with its options and its help.
fn replay_command<'a>(alloc: Global) -> Result<Command<'a>, AllocError> {
    Command::new(alloc, REPLAY)
        .about("Reads a capture from standard input and prints the report of a day")
        .long_about(ABOUT_REPLAY)
        .after_help(EXAMPLE)
        .after_long_help(AFTER_REPLAY)
        .arg_required_else_help(true)
        .arg(own_option(alloc))?
        .arg(day_option(alloc))?
        .arg(peer_words(alloc))
}

// The subcommand that keeps a desk for its operator, with its options and its help.
fn desk_command<'a>(alloc: Global) -> Result<Command<'a>, AllocError> {
    Command::new(alloc, DESK)
        .about("Reads a capture from a file and answers an operator's lines from standard input")
        .long_about(ABOUT_DESK)
        .after_help(DESK_EXAMPLE)
        .after_long_help(AFTER_DESK)
        .arg_required_else_help(true)
        .arg(own_option(alloc))?
        .arg(capture_option(alloc)?)?
        .arg(journal_option(alloc).help(
            "A file with a journal, in place of a capture; it may be in use, and stays as it is",
        ))?
        .arg(peer_words(alloc))
}

// The subcommand that tells the audit trail of a capture, with its options and its help.
fn audit_command<'a>(alloc: Global) -> Result<Command<'a>, AllocError> {
    Command::new(alloc, AUDIT)
        .about(
            "Tells what became of each message of the capture on standard input: the audit trail",
        )
        .long_about(ABOUT_AUDIT)
        .after_help(AUDIT_EXAMPLE)
        .after_long_help(AFTER_AUDIT)
        .arg_required_else_help(true)
        .arg(own_option(alloc))?
        .arg(journal_option(alloc).help(
            "A file with a journal, whose messages are told of in place of standard input's",
        ))?
        .arg(peer_words(alloc))
}

// The subcommand that serves brokers as they connect, with its options and its help.
fn serve_command<'a>(alloc: Global) -> Result<Command<'a>, AllocError> {
    Command::new(alloc, SERVE)
        .about(
            "Serves the brokers that connect over TCP, answers an operator's lines, and prints the day's report",
        )
        .long_about(ABOUT_SERVE)
        .after_help(SERVE_EXAMPLE)
        .after_long_help(AFTER_SERVE)
        .arg_required_else_help(true)
        .arg(own_option(alloc))?
        .arg(day_option(alloc))?
        .arg(port_option(alloc))?
        .arg(lanes_option(alloc)?)?
        .arg(sessions_option(alloc))?
        .arg(rounds_option(alloc)?)?
        .arg(kept_option(alloc)?)?
        .arg(operators_option(alloc)?)?
        .arg(peer_words(alloc))
}

// The subcommand that asks a served day, with its option and its help.
fn ask_command<'a>(alloc: Global) -> Result<Command<'a>, AllocError> {
    Command::new(alloc, ASK)
        .about("Asks a day that is served, over the socket that its operators come by")
        .long_about(ABOUT_ASK)
        .after_help(ASK_EXAMPLE)
        .after_long_help(AFTER_ASK)
        .arg_required_else_help(true)
        .arg(path_word(alloc))?
        .arg(name_option(alloc))
}

// The option with the TCP port.
fn port_option<'a>(alloc: Global) -> Arg<'a> {
    Arg::new(alloc, PORT)
        .long(PORT)
        .value_name("PORT")
        .required(true)
        .value_parser(ValueParser::unsigned(1, u64::from(PORT_MAX)))
        .help("The TCP port on 127.0.0.1 that brokers connect to, 1 to 65535")
}

// The option with the number of lanes. Rounds have none, so it goes with none of their options.
fn lanes_option<'a>(alloc: Global) -> Result<Arg<'a>, AllocError> {
    Arg::new(alloc, LANES)
        .long(LANES)
        .value_name("LANES")
        .value_parser(ValueParser::unsigned(1, u64::from(LANES_MAX)))
        .help(
            "How many connections are served at once, 1 to 1000 [default: twice the peers and two more]",
        )
        .conflicts_with(SESSIONS)?
        .conflicts_with(ROUNDS)
}

// The option with the number of connections of a round.
fn sessions_option<'a>(alloc: Global) -> Arg<'a> {
    Arg::new(alloc, SESSIONS)
        .long(SESSIONS)
        .value_name("SESSIONS")
        .value_parser(ValueParser::unsigned(1, u64::from(SESSIONS_MAX)))
        .help(
            "Serves in rounds: how many connections a round waits for and serves at once, 1 to 1000",
        )
}

// The option with the number of rounds.
fn rounds_option<'a>(alloc: Global) -> Result<Arg<'a>, AllocError> {
    Arg::new(alloc, ROUNDS)
        .long(ROUNDS)
        .value_name("ROUNDS")
        .default_value("1")
        .value_parser(ValueParser::unsigned(1, u64::from(ROUNDS_MAX)))
        .help("How many rounds there are, 1 to 1000, with --sessions alone")
        .requires_arg(SESSIONS)
}

// The option with the file that holds a capture, in place of a journal.
fn capture_option<'a>(alloc: Global) -> Result<Arg<'a>, AllocError> {
    Arg::new(alloc, CAPTURE)
        .long(CAPTURE)
        .value_name("FILE")
        .help("The file with the capture, as examples/first_trade.fix")
        .required_unless_present(JOURNAL)?
        .conflicts_with(JOURNAL)
}

// The option with the file that keeps a day, without what it's told to be for.
fn journal_option<'a>(alloc: Global) -> Arg<'a> {
    Arg::new(alloc, JOURNAL).long(JOURNAL).value_name("FILE")
}

// The option with the file that an open day is kept in. A day of rounds keeps none.
fn kept_option<'a>(alloc: Global) -> Result<Arg<'a>, AllocError> {
    journal_option(alloc)
        .help(
            "The file that the day is kept in, so that it outlives a crash: made anew, or gone on with",
        )
        .conflicts_with(SESSIONS)?
        .conflicts_with(ROUNDS)
}

// The option with the socket that operators come by. A day of rounds has none.
fn operators_option<'a>(alloc: Global) -> Result<Arg<'a>, AllocError> {
    Arg::new(alloc, OPERATORS)
        .long(OPERATORS)
        .value_name("PATH")
        .help(
            "The socket that operators come by, each with `blotter ask PATH`, in place of standard input",
        )
        .conflicts_with(SESSIONS)?
        .conflicts_with(ROUNDS)
}

// The socket that a client connects to.
fn path_word<'a>(alloc: Global) -> Arg<'a> {
    Arg::new(alloc, PATH).value_name("PATH").required(true).help(
        "The socket that the operators of the day come by, as its server was told",
    )
}

// The option with an operator's name.
fn name_option<'a>(alloc: Global) -> Arg<'a> {
    Arg::new(alloc, NAME).long(NAME).value_name("NAME").help(
        "Your name, 1 to 64 printable ASCII characters [default: the environment's USER]",
    )
}

// The option with one's own CompID.
fn own_option<'a>(alloc: Global) -> Arg<'a> {
    Arg::new(alloc, OWN)
        .long(OWN)
        .value_name("OWN")
        .required(true)
        .help("Your own CompID: the TargetCompID(56) of what the brokers send you")
}

// The option with the trading day. `clap` itself tells what is wrong with most words that are no day; it refuses no word that is one.
fn day_option<'a>(alloc: Global) -> Arg<'a> {
    Arg::new(alloc, DAY)
        .long(DAY)
        .value_name("YYYYMMDD")
        .required(true)
        .value_parser(ValueParser::unsigned(0, 99_991_231))
        .help("The trading day of the report, as 20240105")
}

// The peers, one word each.
fn peer_words<'a>(alloc: Global) -> Arg<'a> {
    Arg::new(alloc, PEER)
        .value_name("PEER")
        .required(true)
        .num_args(1..)
        .help("The CompID of each broker to read, once: the SenderCompID(49) of what it sends you")
}
