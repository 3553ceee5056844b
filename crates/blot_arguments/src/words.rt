//! The words of the command line: what they ask for.
ghost use Rattle.std.specs.Prelude.{◌≡◌, ◌↔◌, ◌≢◌, Ok, None, Some, IfErr, IfOk, IfSome, IsOk, IsSome, IsSomeAnd, IsTrue, true, false, codes, is_none, is_some, length, map, option_map};
ghost use Rattle.clap.specs.Matches.{first_value, found_of};
ghost use Rattle.blot_time.specs.Day.{day_of};
ghost use Rattle.blot_types.specs.Text.{is_text};
ghost use Rattle.blot_arguments.specs.declared.command_line.TheConstants.{LANES_MAX};
ghost use Rattle.blot_arguments.specs.Words.{AreApartIn, HasPeers, IsApart, IsAsk, IsAudit, IsCount, IsCountOrNone, IsDayWord, IsOpen, IsOwnWord, IsPeerList, IsReplay, IsDesk, IsServe, RulesOut, is_audit, is_open, own_of, own_word, count_of, count_word, count_words, counts_named, day_named, day_word, capture_in, capture_named, capture_word, default_lanes, journal_in, journal_named, journal_word, lanes_by, lanes_named, name_named, name_word, operators_named, operators_word, path_named, path_word, peer_words, peers_of, port_named, sessions_word};

use crate::command_line::{
    ASK, AUDIT, CAPTURE, DAY, DESK, JOURNAL, LANES, LANES_MAX, NAME, OPERATORS, OWN, PATH, PEER,
    PORT, PORT_MAX, REPLAY, ROUNDS, ROUNDS_MAX, SERVE, SESSIONS, SESSIONS_MAX, command,
};
use crate::peers::{is_among, read_comp_id, read_peers};
use crate::refusal::{Refusal, refusal_of};
use blot_time::Day;
use blot_types::Text64;
use clap::ArgMatches;
use std::alloc::Global;
use std::convert::AsStr;
use std::env::{self, Env};
use std::io::ErrorKind;

/// What the command line asks for.
#[derive(Debug, Drop)]
pub enum Words {
    /// The report of a day, of the capture on standard input.
    Replay {
        own: Text64,
        day: Day,
        peers: Vec<Text64>,
    },
    /// The answers to the lines on standard input, of what a file holds.
    Desk {
        own: Text64,
        from: DeskSource,
        peers: Vec<Text64>,
    },
    /// What became of each message of the capture on standard input, or of the journal in this file.
    Audit {
        own: Text64,
        journal: Option<String>,
        peers: Vec<Text64>,
    },
    /// The brokers that connect, each whenever it likes, the answers to the lines on standard input, or of the operators that come by
    /// this socket, if one is named, and the report of a day, which is kept in this file, if one is named.
    Open {
        own: Text64,
        day: Day,
        port: u16,
        lanes: u16,
        journal: Option<String>,
        operators: Option<String>,
        peers: Vec<Text64>,
    },
    /// The same with brokers that connect in rounds.
    Serve {
        own: Text64,
        day: Day,
        port: u16,
        sessions: u16,
        rounds: u16,
        peers: Vec<Text64>,
    },
    /// The answers of a served day to the lines on standard input, over this socket, to an operator of this name, or else of the
    /// name that the environment has.
    Ask {
        path: String,
        name: Option<Text64>,
    },
}

/// The file that a desk answers by.
#[derive(Debug, Drop)]
pub enum DeskSource {
    /// The file that holds a capture.
    Capture(String),
    /// The file that keeps a day.
    Journal(String),
}

/// The words that the system gives, the program's name first.
pub fn given<S: Env + AllocGlobal>(system: &S) -> Result<Vec<String>, Refusal> {
    match env::args(system) {
        Ok(words) => Ok(words.collect(system.alloc())?),
        Err(error) if error.kind() == ErrorKind::OutOfMemory => Err(Refusal::NoMemory),
        Err(_) => Err(Refusal::NotUtf8),
    }
}

/// What these words ask for, the first of which is the program's name.
pub fn parse<S: AsStr>(alloc: Global, words: &[S]) -> Result<Words, Refusal>
    ensures peers { IfOk result HasPeers }
    ensures apart { IfOk result AreApartIn }
{
    let matches = match command(alloc)?.try_get_matches_from(words) {
        Ok(matches) => matches,
        Err(error) => return Err(refusal_of(alloc, error)),
    };
    let asked = read_words(alloc, &matches);
    drop(matches);
    asked
}

// The words of the command line, as `clap` found them.
fn read_words(alloc: Global, matches: &ArgMatches<'_>) -> Result<Words, Refusal>
    ensures peers { IfOk result HasPeers }
    ensures apart { IfOk result AreApartIn }
{
    if let Some(matches) = matches.subcommand_matches(REPLAY) {
        return read_replay(alloc, matches);
    }
    if let Some(matches) = matches.subcommand_matches(DESK) {
        return read_desk(alloc, matches);
    }
    if let Some(matches) = matches.subcommand_matches(AUDIT) {
        return read_audit(alloc, matches);
    }
    if let Some(matches) = matches.subcommand_matches(SERVE) {
        return read_server(alloc, matches);
    }
    match matches.subcommand_matches(ASK) {
        Some(matches) => read_ask(alloc, matches),
        None => Err(Refusal::Missing("command")),
    }
}

// The words of a replay, as `clap` found them.
fn read_replay(alloc: Global, matches: &ArgMatches<'_>) -> Result<Words, Refusal>
    ensures own { IfOk result (λ words. own_word matches.now ≡ Some (own_of words)) }
    ensures day { IfOk result (λ words. IfSome (day_word matches.now) (λ word. option_map Ok (day_named words) ≡ Some (day_of word))) }
    ensures named { IfOk result (λ words. peer_words matches.now ≡ Some (peers_of words)) }
    ensures peers { IfOk result (λ words. IsPeerList (peers_of words)) }
    ensures apart { IfOk result AreApartIn }
    ensures refused { IfErr result (RulesOut (IsReplay matches.now)) }
{
    let own = read_own(alloc, matches)?;
    let day = read_day(alloc, matches)?;
    let Some(named) = matches.get_strs(PEER) else {
        return Err(Refusal::Missing(PEER));
    };
    let peers = read_peers(alloc, named)?;
    Ok(Words::Replay { own, day, peers })
}

// The words of a desk, as `clap` found them.
fn read_desk(alloc: Global, matches: &ArgMatches<'_>) -> Result<Words, Refusal>
    ensures own { IfOk result (λ words. own_word matches.now ≡ Some (own_of words)) }
    ensures capture { IfOk result (λ words. capture_word matches.now ≡ capture_named words) }
    ensures journal { IfOk result (λ words. journal_word matches.now ≡ journal_named words) }
    ensures named { IfOk result (λ words. peer_words matches.now ≡ Some (peers_of words)) }
    ensures peers { IfOk result (λ words. IsPeerList (peers_of words)) }
    ensures apart { IfOk result AreApartIn }
    ensures refused { IfErr result (RulesOut (IsDesk matches.now)) }
{
    let own = read_own(alloc, matches)?;
    let Some(named) = matches.get_strs(PEER) else {
        return Err(Refusal::Missing(PEER));
    };
    let peers = read_peers(alloc, named)?;
    check_apart(alloc, matches, &own, &peers)?;
    let from = read_source(alloc, matches)?;
    Ok(Words::Desk { own, from, peers })
}

// The file that a desk answers by, as `clap` found it: of a capture or of a journal.
fn read_source(alloc: Global, matches: &ArgMatches<'_>) -> Result<DeskSource, Refusal>
    ensures capture { IfOk result (λ from. capture_word matches.now ≡ capture_in from) }
    ensures journal { IfOk result (λ from. journal_word matches.now ≡ journal_in from) }
    ensures refused { IfErr result (RulesOut (is_some (capture_word matches.now) ≢ is_some (journal_word matches.now))) }
{
    match (matches.get_str(CAPTURE), matches.get_str(JOURNAL)) {
        (Some(file), None) => Ok(DeskSource::Capture(String::from_str(alloc, file)?)),
        (None, Some(file)) => Ok(DeskSource::Journal(String::from_str(alloc, file)?)),
        (Some(_), Some(_)) => Err(Refusal::Together(CAPTURE, JOURNAL)),
        (None, None) => Err(Refusal::Missing(CAPTURE)),
    }
}

// Nothing, unless a journal is named and one's own CompID is among the peers: what the blotter sends would be taken for a peer's there.
fn check_apart(
    alloc: Global,
    matches: &ArgMatches<'_>,
    own: &Text64,
    peers: &[Text64],
) -> Result<(), Refusal>
    ensures apart { IfOk result (λ _. IfSome (journal_word matches.now) (λ _. IsApart own.now peers.now)) }
    ensures refused { IfErr result (RulesOut (IfSome (journal_word matches.now) (λ _. IsApart own.now peers.now))) }
{
    if matches.get_str(JOURNAL).is_none() || !is_among(own, peers) {
        return Ok(());
    }
    let word = matches.get_str(OWN).unwrap_or(OWN);
    Err(Refusal::OwnIsPeer(String::from_str(alloc, word)?))
}

// The file that an option names, if it is there, as `clap` found it.
fn read_file(
    alloc: Global,
    matches: &ArgMatches<'_>,
    id: &'static str,
) -> Result<Option<String>, Refusal>
    ensures value { IfOk result (λ named. first_value (found_of matches.now) id.now ≡ option_map (λ file. file.bytes.items) named) }
    ensures refused { IfErr result (λ refusal. refusal ≡ Refusal.NoMemory) }
{
    match matches.get_str(id) {
        Some(file) => Ok(Some(String::from_str(alloc, file)?)),
        None => Ok(None),
    }
}

// The words of an audit, as `clap` found them.
fn read_audit(alloc: Global, matches: &ArgMatches<'_>) -> Result<Words, Refusal>
    ensures audit { IfOk result (λ words. is_audit words ≡ true) }
    ensures own { IfOk result (λ words. own_word matches.now ≡ Some (own_of words)) }
    ensures journal { IfOk result (λ words. journal_word matches.now ≡ journal_named words) }
    ensures named { IfOk result (λ words. peer_words matches.now ≡ Some (peers_of words)) }
    ensures peers { IfOk result (λ words. IsPeerList (peers_of words)) }
    ensures apart { IfOk result AreApartIn }
    ensures refused { IfErr result (RulesOut (IsAudit matches.now)) }
{
    let own = read_own(alloc, matches)?;
    let Some(named) = matches.get_strs(PEER) else {
        return Err(Refusal::Missing(PEER));
    };
    let peers = read_peers(alloc, named)?;
    check_apart(alloc, matches, &own, &peers)?;
    let journal = read_file(alloc, matches, JOURNAL)?;
    Ok(Words::Audit {
        own,
        journal,
        peers,
    })
}

// The words of a server, as `clap` found them: of an open day, unless connections of a round are counted.
fn read_server(alloc: Global, matches: &ArgMatches<'_>) -> Result<Words, Refusal>
    ensures open { IfOk result (λ words. is_open words ≡ is_none (sessions_word matches.now)) }
    ensures peers { IfOk result (λ words. IsPeerList (peers_of words)) }
    ensures apart { IfOk result AreApartIn }
{
    match matches.get_str(SESSIONS) {
        Some(_) => read_serve(alloc, matches),
        None => read_open(alloc, matches),
    }
}

// The words of an open day, as `clap` found them.
fn read_open(alloc: Global, matches: &ArgMatches<'_>) -> Result<Words, Refusal>
    ensures open { IfOk result (λ words. is_open words ≡ true) }
    ensures own { IfOk result (λ words. own_word matches.now ≡ Some (own_of words)) }
    ensures day { IfOk result (λ words. IfSome (day_word matches.now) (λ word. option_map Ok (day_named words) ≡ Some (day_of word))) }
    ensures port { IfOk result (λ words. port_named words ≡ option_map count_of (count_word matches.now (codes "port"))) }
    ensures lanes { IfOk result (λ words. lanes_named words ≡ Some (lanes_by (count_word matches.now (codes "lanes")) (length (peers_of words)))) }
    ensures journal { IfOk result (λ words. journal_word matches.now ≡ journal_named words) }
    ensures operators { IfOk result (λ words. operators_word matches.now ≡ operators_named words) }
    ensures named { IfOk result (λ words. peer_words matches.now ≡ Some (peers_of words)) }
    ensures peers { IfOk result (λ words. IsPeerList (peers_of words)) }
    ensures apart { IfOk result AreApartIn }
    ensures refused { IfErr result (RulesOut (IsOpen matches.now)) }
{
    let own = read_own(alloc, matches)?;
    let day = read_day(alloc, matches)?;
    let port = read_count(matches, PORT, PORT_MAX)?;
    let Some(named) = matches.get_strs(PEER) else {
        return Err(Refusal::Missing(PEER));
    };
    let lanes = read_lanes(matches, named.len())?;
    let peers = read_peers(alloc, named)?;
    check_apart(alloc, matches, &own, &peers)?;
    let journal = read_file(alloc, matches, JOURNAL)?;
    let operators = read_file(alloc, matches, OPERATORS)?;
    Ok(Words::Open {
        own,
        day,
        port,
        lanes,
        journal,
        operators,
        peers,
    })
}

// The words of a day of rounds, as `clap` found them.
fn read_serve(alloc: Global, matches: &ArgMatches<'_>) -> Result<Words, Refusal>
    ensures rounds { IfOk result (λ words. is_open words ≡ false) }
    ensures own { IfOk result (λ words. own_word matches.now ≡ Some (own_of words)) }
    ensures day { IfOk result (λ words. IfSome (day_word matches.now) (λ word. option_map Ok (day_named words) ≡ Some (day_of word))) }
    ensures counts { IfOk result (λ words. counts_named words ≡ map (option_map count_of) (count_words matches.now)) }
    ensures journal { IfOk result (λ words. journal_word matches.now ≡ journal_named words) }
    ensures operators { IfOk result (λ words. operators_word matches.now ≡ operators_named words) }
    ensures named { IfOk result (λ words. peer_words matches.now ≡ Some (peers_of words)) }
    ensures peers { IfOk result (λ words. IsPeerList (peers_of words)) }
    ensures apart { IfOk result AreApartIn }
    ensures refused { IfErr result (RulesOut (IsServe matches.now)) }
{
    let own = read_own(alloc, matches)?;
    let day = read_day(alloc, matches)?;
    let port = read_count(matches, PORT, PORT_MAX)?;
    let sessions = read_count(matches, SESSIONS, SESSIONS_MAX)?;
    let rounds = read_count(matches, ROUNDS, ROUNDS_MAX)?;
    if matches.get_str(JOURNAL).is_some() {
        return Err(Refusal::Together(JOURNAL, SESSIONS));
    }
    if matches.get_str(OPERATORS).is_some() {
        return Err(Refusal::Together(OPERATORS, SESSIONS));
    }
    let Some(named) = matches.get_strs(PEER) else {
        return Err(Refusal::Missing(PEER));
    };
    let peers = read_peers(alloc, named)?;
    Ok(Words::Serve {
        own,
        day,
        port,
        sessions,
        rounds,
        peers,
    })
}

// The words of a client, as `clap` found them.
fn read_ask(alloc: Global, matches: &ArgMatches<'_>) -> Result<Words, Refusal>
    ensures ask { IfOk result (λ words. IsSome (path_named words)) }
    ensures path { IfOk result (λ words. path_word matches.now ≡ path_named words) }
    ensures name { IfOk result (λ words. name_word matches.now ≡ name_named words) }
    ensures refused { IfErr result (RulesOut (IsAsk matches.now)) }
{
    let Some(path) = matches.get_str(PATH) else {
        return Err(Refusal::Missing(PATH));
    };
    let name = read_name(alloc, matches)?;
    let path = String::from_str(alloc, path)?;
    Ok(Words::Ask { path, name })
}

// An operator's name, if one is given.
fn read_name(alloc: Global, matches: &ArgMatches<'_>) -> Result<Option<Text64>, Refusal>
    ensures value { IfOk result (λ name. name_word matches.now ≡ name) }
    ensures refused { IfErr result (RulesOut (IfSome (name_word matches.now) (λ name. IsTrue (is_text name)))) }
{
    let Some(word) = matches.get_str(NAME) else {
        return Ok(None);
    };
    match Text64::read(word.as_bytes()) {
        Some(name) => Ok(Some(name)),
        None => Err(Refusal::NoName(String::from_str(alloc, word)?)),
    }
}

// One's own CompID.
fn read_own(alloc: Global, matches: &ArgMatches<'_>) -> Result<Text64, Refusal>
    ensures value { IfOk result (λ own. own_word matches.now ≡ Some own) }
    ensures refused { IfErr result (RulesOut (IsOwnWord matches.now)) }
{
    match matches.get_str(OWN) {
        Some(word) => read_comp_id(alloc, word),
        None => Err(Refusal::Missing(OWN)),
    }
}

// The trading day.
fn read_day(alloc: Global, matches: &ArgMatches<'_>) -> Result<Day, Refusal>
    ensures value { IfOk result (λ day. IfSome (day_word matches.now) (λ word. day_of word ≡ Ok day)) }
    ensures refused { IfErr result (RulesOut (IsDayWord matches.now)) }
{
    let Some(word) = matches.get_str(DAY) else {
        return Err(Refusal::Missing(DAY));
    };
    match Day::read(word.as_bytes()) {
        Ok(day) => Ok(day),
        Err(_) => Err(Refusal::NoDay(String::from_str(alloc, word)?)),
    }
}

// The count that an option's word is, if it is one from 1 to the most.
fn read_count(matches: &ArgMatches<'_>, id: &'static str, most: u16) -> Result<u16, Refusal>
    ensures some { IsOk result ↔ IsSomeAnd (count_word matches.now id.now) (IsCount most) }
    ensures value { IfOk result (λ count. option_map count_of (count_word matches.now id.now) ≡ Some count) }
{
    match matches.get_one::<u16>(id) {
        Some(count) if 1 <= count && count <= most => Ok(count),
        _ => Err(Refusal::OutOfRange(id)),
    }
}

// The number of lanes: the count that the option's word is, or without one what so many peers have by default.
fn read_lanes(matches: &ArgMatches<'_>, peers: usize) -> Result<u16, Refusal>
    ensures value { IfOk result (λ lanes. lanes ≡ lanes_by (count_word matches.now (codes "lanes")) peers) }
    ensures refused { IfErr result (RulesOut (IsCountOrNone LANES_MAX (count_word matches.now (codes "lanes")))) }
{
    match matches.get_str(LANES) {
        Some(_) => read_count(matches, LANES, LANES_MAX),
        None => Ok(default_lanes(peers)),
    }
}

// How many lanes so many peers have by default: two for each, since its connection that is gone may not have ended when it
// comes back, and two more.
fn default_lanes(peers: usize) -> u16
    ensures { result ≡ default_lanes peers }
{
    if peers < usize::from(LANES_MAX) / 2 {
        2 * peers as u16 + 2
    } else {
        LANES_MAX
    }
}
