//! What a session does as time passes, and at the end of the day.
ghost use Rattle.std.specs.Prelude.{◌≡◌, ◌^◌, ◌<◌};
ghost use Rattle.blot_session.specs.Rows.{asked_row, beat_row, heartbeat_row, passed, patience, quiet_row, stop_row, tick_row};

use crate::CloseReason;
use crate::outbound::Outbound;
use crate::row::Row;
use crate::state::{LinkState, Live, State};
use blot_time::Moment;

/// What a session does at a moment. Only one that is logged on, with heartbeats, does anything.
#[tactic(auto, unfolding(crate::specs::Rows::tick_row))]
pub(crate) fn tick_row(state: State, now: Moment) -> Row
    ensures { result ≡ tick_row state now }
{
    let link = state.link;
    match link {
        LinkState::On(live) => beat_row(state, live, now),
        _ => Row::silent(state),
    }
}

/// What a session does at the end of the day. Only one that is logged on does anything, and only once.
#[tactic(auto, unfolding(crate::specs::Rows::stop_row))]
pub(crate) fn stop_row(state: State) -> Row
    ensures { result ≡ stop_row state }
{
    let link = state.link;
    match link {
        LinkState::On(live) if !live.leaving => Row::sends(Outbound::Logout, state.leaving()),
        _ => Row::silent(state),
    }
}

// A connection that is on.
#[tactic(auto, unfolding(crate::specs::Rows::beat_row))]
fn beat_row(state: State, live: Live, now: Moment) -> Row
    ensures { result ≡ beat_row state live now }
{
    if live.heartbeat == 0 {
        return Row::silent(state);
    }
    match live.asked {
        Some(asked) => asked_row(state, live, asked, now),
        None => quiet_row(state, live, now),
    }
}

// A TestRequest is out: a peer that stays silent for as long again is given up.
#[tactic(auto, unfolding(crate::specs::Rows::asked_row))]
fn asked_row(state: State, live: Live, asked: Moment, now: Moment) -> Row
    ensures { result ≡ asked_row state live asked now }
{
    if passed(asked, patience(live.heartbeat), now) {
        return Row::silent(state).closing(CloseReason::Silent);
    }
    heartbeat_row(state, live, now)
}

// No TestRequest is out: one is sent to a peer that was silent for too long.
#[tactic(auto, unfolding(crate::specs::Rows::quiet_row))]
fn quiet_row(state: State, live: Live, now: Moment) -> Row
    ensures { result ≡ quiet_row state live now }
{
    if passed(live.received, patience(live.heartbeat), now) {
        return Row::sends(Outbound::TestRequest, state.asking(now));
    }
    heartbeat_row(state, live, now)
}

// A Heartbeat is due where nothing was sent for HeartBtInt.
#[tactic(auto, unfolding(crate::specs::Rows::heartbeat_row))]
fn heartbeat_row(state: State, live: Live, now: Moment) -> Row
    ensures { result ≡ heartbeat_row state live now }
{
    if passed(live.sent, u64::from(live.heartbeat), now) {
        return Row::sends(Outbound::Heartbeat { id: None }, state);
    }
    Row::silent(state)
}

// How long a peer may be silent, in seconds: HeartBtInt and a fifth of it. FIX 4.4 volume 2 asks for "some reasonable
// transmission time" on top.
fn patience(heartbeat: u32) -> u64
    ensures value { result ≡ patience heartbeat }
    ensures range { result < 2 ^ 33 }
{
    let heartbeat = u64::from(heartbeat);
    heartbeat + heartbeat / 5
}

// Whether so many seconds have passed. A clock that goes back passes none.
fn passed(since: Moment, seconds: u64, now: Moment) -> bool
    requires { seconds < 2 ^ 33 }
    ensures { result ≡ passed since seconds now }
{
    let since = i128::from(since.millis());
    let wait = i128::from(seconds * 1000);
    let now = i128::from(now.millis());
    since + wait <= now
}
