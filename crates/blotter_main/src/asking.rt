//! The client of a served day: its operator's name, the socket, and what is told of a failure.
ghost use Rattle.std.specs.Prelude.{◌≢◌, IfErr, OnOk};
ghost use Rattle.std.specs.Io.KnownBytes.{IsAtEnd};
ghost use Rattle.blot_stream.specs.declared.outcome.Outcome.TheVariants.{BadWords};
ghost use Rattle.blotter_main.specs.Failure.{outcome_of};
ghost use Rattle.blotter_main.specs.Running.{DidAsk};

use crate::failure::{Failure, system_words};
use blot_ask::{AskFault, ask};
use blot_types::Text64;
use blotter::ReplayFault;
use std::alloc::Global;
use std::env::{self, Env, VarError};
use std::io::{self, ErrorKind, Read, Write};
use std::net::Net;
use std::os::unix::net::UnixStream;
use std::str;

/// Asks a day that is served, over the socket at this path, the lines of the input. Without a name it is the environment's USER. With
/// `prompts` a prompt says when a line is wanted.
pub(crate) fn ask_server<S: Env + AllocGlobal, T: Net, R: Read, W: Write>(
    system: &S,
    rt: &T,
    path: String,
    name: Option<Text64>,
    prompts: bool,
    input: &mut R,
    output: &mut W,
) -> Result<(), Failure>
    ensures asked { OnOk result (DidAsk prompts (R.remaining input.old) (W.contents output.old) (W.contents output.new)) }
    ensures read_to_the_end { OnOk result (IsAtEnd (R.remaining input.new)) }
    ensures words { IfErr result (λ failure. outcome_of failure ≢ BadWords) }
{
    let name = named(system, name)?;
    let server = match UnixStream::connect(rt, path.as_str()) {
        Ok(server) => server,
        Err(error) => return Err(unconnected(system.alloc(), &error, path)),
    };
    let (mut requests, mut answers) = (&server, &server);
    match ask(
        system.alloc(),
        &name,
        prompts,
        input,
        output,
        &mut requests,
        &mut answers,
    ) {
        Ok(()) => Ok(()),
        Err(fault) => Err(unasked(system.alloc(), fault, path, &name)),
    }
}

// The name of an operator: the one that is given, or else the environment's.
fn named<S: Env + AllocGlobal>(system: &S, name: Option<Text64>) -> Result<Text64, Failure>
    ensures words { IfErr result (λ failure. outcome_of failure ≢ BadWords) }
{
    if let Some(name) = name {
        return Ok(name);
    }
    match env::var(system, "USER") {
        Ok(user) => match Text64::read(user.as_bytes()) {
            Some(name) => Ok(name),
            None => Err(Failure::NoName),
        },
        Err(VarError::OutOfMemory) => Err(Failure::NoMemory),
        Err(_) => Err(Failure::NoName),
    }
}

// Why a socket can't be connected to.
fn unconnected(alloc: Global, error: &io::Error, path: String) -> Failure
    ensures words { outcome_of result ≢ BadWords }
{
    match error.kind() {
        ErrorKind::OutOfMemory => Failure::NoMemory,
        ErrorKind::ConnectionRefused => Failure::NoServer(path),
        _ => match system_words(alloc, error) {
            Ok(why) => Failure::NoFile(path, why),
            Err(_) => Failure::NoMemory,
        },
    }
}

// Why a conversation stopped.
fn unasked(alloc: Global, fault: AskFault, path: String, name: &Text64) -> Failure
    ensures words { outcome_of result ≢ BadWords }
{
    match fault {
        AskFault::Input => Failure::Stopped(ReplayFault::Read),
        AskFault::Output => Failure::Stopped(ReplayFault::Write),
        AskFault::Taken => match shown(alloc, name) {
            Ok(name) => Failure::NameTaken(name),
            Err(failure) => failure,
        },
        AskFault::Full => match shown(alloc, name) {
            Ok(name) => Failure::NoSeat(name),
            Err(failure) => failure,
        },
        AskFault::Strange => Failure::NoBlotter(path),
        AskFault::Gone => Failure::ServerGone,
        AskFault::NoMemory => Failure::NoMemory,
    }
}

// A name, which is ASCII.
fn shown(alloc: Global, name: &Text64) -> Result<String, Failure>
    ensures words { IfErr result (λ failure. outcome_of failure ≢ BadWords) }
{
    Ok(String::from_str(alloc, str::from_utf8(name.bytes()).unwrap_or("?"))?)
}
