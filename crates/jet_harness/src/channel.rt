// What is at the two sides of a ring.
ghost use Rattle.std.specs.Prelude.{◌≡◌};
ghost use Rattle.jet_harness.specs.Channels.{same_port, same_giver, same_taker, wire_channel, file_channel};

use jet_layout::{Port, Taker, Wire};

/// What gives the items of a ring.
#[derive(Clone, Copy, Debug, PartialEq, Eq)]
pub enum Giver {
    /// An output of a tasklet.
    Output(Port),
    /// A file, whose items the coordinator gives.
    File,
}

/// A ring by what gives its items and what takes them.
#[derive(Clone, Copy, Debug, PartialEq, Eq)]
pub struct Channel {
    pub giver: Giver,
    pub taker: Taker,
}

impl Channel {
    /// The ring of a wire.
    pub fn of_wire(wire: Wire) -> Channel
        ensures { result ≡ wire_channel wire }
    {
        Channel {
            giver: Giver::Output(wire.giver),
            taker: wire.taker,
        }
    }

    /// The ring of a file whose items this input takes.
    pub fn of_file(port: Port) -> Channel
        ensures { result ≡ file_channel port }
    {
        Channel {
            giver: Giver::File,
            taker: Taker::Input(port),
        }
    }
}

// Whether two ports are the same.
fn same_port(one: Port, other: Port) -> bool
    ensures { result ≡ same_port one other }
{
    one.task == other.task && one.number == other.number
}

/// Whether two givers are the same.
pub(crate) fn same_giver(one: Giver, other: Giver) -> bool
    ensures { result ≡ same_giver one other }
{
    match (one, other) {
        (Giver::Output(one), Giver::Output(other)) => same_port(one, other),
        (Giver::File, Giver::File) => true,
        _ => false,
    }
}

/// Whether two takers are the same.
pub(crate) fn same_taker(one: Taker, other: Taker) -> bool
    ensures { result ≡ same_taker one other }
{
    match (one, other) {
        (Taker::Input(one), Taker::Input(other)) => same_port(one, other),
        (Taker::Sink, Taker::Sink) => true,
        _ => false,
    }
}
