//! A client behind two devices.
ghost use Rattle.std.specs.Prelude.{◌≡◌};
ghost use Rattle.live_history.specs.Client.{connection_first, connection_input, connection_output};

use crate::client::Client;
use devices::{Failed, Pull, Push, SendError, send};
use std::snapshot::Snapshot;

/// A client behind two devices: turns come from one, and replies go to the other.
#[derive(Drop)]
pub struct Connection<I, O> {
    input: I,
    output: O,
    first_input: Snapshot<I>,
    first_output: Snapshot<O>,
}

impl<I: Pull, O: Push> Connection<I, O> {
    /// Before a talk.
    pub fn new(input: I, output: O) -> Self
        ensures input { connection_input I.state result ≡ I.state input }
        ensures output { connection_output O.state result ≡ O.state output }
        ensures first { connection_first I.state O.state result
            ≡ record { input = I.state input; output = O.state output } }
    {
        let first_input = Snapshot::of(&input);
        let first_output = Snapshot::of(&output);
        Connection {
            input,
            output,
            first_input,
            first_output,
        }
    }
}

impl<I: Pull, O: Push> Client for Connection<I, O> {
    ghost input = { connection_input I.state };

    ghost output = { connection_output O.state };

    ghost first = { connection_first I.state O.state };

    fn read(&mut self, slice: &mut [u8]) -> Result<usize, Failed> {
        self.input.pull(slice)
    }

    fn send(&mut self, bytes: &[u8]) -> Result<(), SendError> {
        send(&mut self.output, bytes)
    }
}
