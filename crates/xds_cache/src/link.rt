// Whether a client has a stream, as types of state.

/// Whether a client is on a stream.
pub trait LinkState {
    ghost use Rattle.std.specs.Prelude.{Bool};

    ghost IS_UP: { Bool };

    const IS_UP: bool;
}

/// The client has no stream.
#[derive(Clone, Copy, Debug)]
pub struct Down;

/// The client is on a stream.
#[derive(Clone, Copy, Debug)]
pub struct Up;

impl LinkState for Down {
    ghost use Rattle.std.specs.Prelude.{false};

    ghost IS_UP = { false };

    const IS_UP: bool = false;
}

impl LinkState for Up {
    ghost use Rattle.std.specs.Prelude.{true};

    ghost IS_UP = { true };

    const IS_UP: bool = true;
}
