//! The two sides.

ghost use Rattle.std.specs.Prelude.{◌≡◌};
ghost use Rattle.sshneg.specs.Markers.{other};

/// One of the two ends of a connection. Of an endpoint it is its role, of a delivery the receiver.
#[derive(Clone, Copy, Debug, PartialEq, Eq)]
pub enum Side {
    /// The side that connects.
    Client,
    /// The side that accepts.
    Server,
}

impl Side {
    /// The other side. Takes no memory.
    pub fn other(self) -> Side
        ensures { result ≡ other self }
    {
        match self {
            Side::Client => Side::Server,
            Side::Server => Side::Client,
        }
    }
}
