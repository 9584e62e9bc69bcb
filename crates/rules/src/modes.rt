// What the mode of a session decides: how it moves (RFC 6428, Figures 8 and 9 beside Figure 7), whether
// it can have a loss, and what it asks of the far end.
ghost use Rattle.std.specs.Prelude.{◌≡◌};
ghost use Rattle.rules.specs.Modes.{mode_of, source_up_input, source_input, sink_input, input_in, moved_in, exposed, required_interval};

use crate::moves::coordinated_move;
use crate::{Input, Mode, State};

// The mode of its number; every number above 1 is a sink's.
impl From<u8> for Mode {
    ghost from_gives = { λ n m. m ≡ mode_of n };

    fn from(n: u8) -> Mode {
        match n {
            0 => Mode::Coordinated,
            1 => Mode::Source,
            _ => Mode::Sink,
        }
    }
}

fn source_up_input(input: Input) -> Input
    ensures { result ≡ source_up_input input }
{
    match input {
        Input::GotAdminDown => Input::GotAdminDown,
        _ => Input::GotUp,
    }
}

fn source_input(from: State, input: Input) -> Input
    ensures { result ≡ source_input from input }
{
    match from {
        State::Up => source_up_input(input),
        _ => input,
    }
}

fn sink_input(input: Input) -> Input
    ensures { result ≡ sink_input input }
{
    match input {
        Input::GotUp => Input::GotInit,
        _ => input,
    }
}

fn input_in(mode: Mode, from: State, input: Input) -> Input
    ensures { result ≡ input_in mode from input }
{
    match mode {
        Mode::Coordinated => input,
        Mode::Source => source_input(from, input),
        Mode::Sink => sink_input(input),
    }
}

// How a session of the mode moves. One table serves all three, since three of its size at every move
// would be too much code to be put in place.
pub fn move_by(mode: Mode, from: State, input: Input) -> State
    ensures { result ≡ moved_in mode from input }
{
    coordinated_move(from, input_in(mode, from, input))
}

// Whether a session can have a loss, by its two numbers: it is asked behind the dates, which few
// sessions are past.
pub fn is_exposed(mode: u8, state: u8) -> bool
    ensures { result ≡ exposed mode state }
{
    state != 0 && (state != 3 || mode != 1)
}

// The required receive interval that a session of the mode writes.
pub fn required_interval(mode: Mode, period: u32) -> u32
    ensures { result ≡ required_interval mode period }
{
    match mode {
        Mode::Source => 0,
        Mode::Coordinated | Mode::Sink => period,
    }
}
