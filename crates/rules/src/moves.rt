// The state of a session, and how a coordinated one moves (RFC 6428, Figure 7).
ghost use Rattle.std.specs.Prelude.{◌≡◌};
ghost use Rattle.rules.specs.States.{from_down, from_neighbor_down, from_init, from_up, moved, received, heard_input, reported, is_locked, down_by_neighbor, is_coming_up, stored, state_of};

use crate::{Input, State};

fn from_down(input: Input) -> State
    ensures { result ≡ from_down input }
{
    match input {
        Input::GotDown => State::Init,
        Input::GotInit => State::Up,
        _ => State::Down,
    }
}

fn from_neighbor_down(input: Input) -> State
    ensures { result ≡ from_neighbor_down input }
{
    match input {
        Input::GotDown => State::Init,
        Input::GotInit => State::Up,
        _ => State::NeighborDown,
    }
}

fn from_init(input: Input) -> State
    ensures { result ≡ from_init input }
{
    match input {
        Input::GotDown => State::Init,
        Input::GotInit | Input::GotUp => State::Up,
        Input::GotAdminDown => State::NeighborDown,
        Input::Timer | Input::LinkDown | Input::LockReport => State::Down,
        Input::Crossed => State::Down, // not in the figure
    }
}

fn from_up(input: Input) -> State
    ensures { result ≡ from_up input }
{
    match input {
        Input::GotInit | Input::GotUp => State::Up,
        Input::GotDown | Input::GotAdminDown => State::NeighborDown,
        Input::Timer | Input::LinkDown | Input::LockReport | Input::Crossed => State::Down,
    }
}

// The moving table of a coordinated session.
pub fn coordinated_move(from: State, input: Input) -> State
    ensures { result ≡ moved from input }
{
    match from {
        State::AdminDown => State::AdminDown,
        State::Down => from_down(input),
        State::NeighborDown => from_neighbor_down(input),
        State::Init => from_init(input),
        State::Up => from_up(input),
    }
}

// The state of a heard CC, 0 to 3, as an input.
fn received_input(state: u8) -> Input
    ensures { result ≡ received state }
{
    match state {
        0 => Input::GotAdminDown,
        1 => Input::GotDown,
        2 => Input::GotInit,
        _ => Input::GotUp,
    }
}

// The state of a heard CC as the session takes it: TIMER while it is held down.
pub fn heard_input(held: bool, state: u8) -> Input
    ensures { result ≡ heard_input held state }
{
    if held {
        return Input::Timer;
    }
    received_input(state)
}

// The number of a state in reports and messages.
pub fn report_number(s: State) -> u8
    ensures { result ≡ reported s }
{
    match s {
        State::AdminDown => 0,
        State::Down | State::NeighborDown => 1,
        State::Init => 2,
        State::Up => 3,
    }
}

pub fn locked(s: State) -> bool
    ensures { result ≡ is_locked s }
{
    matches!(s, State::AdminDown)
}

pub fn down_by_neighbor(s: State) -> bool
    ensures { result ≡ down_by_neighbor s }
{
    matches!(s, State::NeighborDown)
}

// INIT or UP.
pub fn coming_up(s: State) -> bool
    ensures { result ≡ is_coming_up s }
{
    matches!(s, State::Init | State::Up)
}

// The number of a state in a stored record.
pub fn stored_number(s: State) -> u8
    ensures { result ≡ stored s }
{
    match s {
        State::AdminDown => 0,
        State::Down => 1,
        State::Init => 2,
        State::Up => 3,
        State::NeighborDown => 4,
    }
}

// The state of a stored number; every number above 3 is NeighborDown.
impl From<u8> for State {
    ghost from_gives = { λ n s. s ≡ state_of n };

    fn from(n: u8) -> State {
        match n {
            0 => State::AdminDown,
            1 => State::Down,
            2 => State::Init,
            3 => State::Up,
            _ => State::NeighborDown,
        }
    }
}
