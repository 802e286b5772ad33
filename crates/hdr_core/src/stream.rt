ghost use Rattle.std.specs.Prelude.{◌≡◌, None};
ghost use Rattle.hdr_core.specs.Faults.{fault_count};

use crate::errors::CallErr;
use crate::faults::Faults;
use crate::sink::Sink;
use std::io::{Error, ErrorKind, Write};

/// A stream of the system, as standard output. It doesn't say what it was told.
///
/// A write that takes nothing of a piece is a fault. Of the
/// rest no proof speaks: that what the stream takes arrives.
#[derive(Drop)]
pub struct StdSink<W> {
    stream: W,
    faults: Faults,
}

impl<W: Write + Drop> StdSink<W> {
    pub fn of(stream: W) -> StdSink<W>
        ensures { ⟦<StdSink<W> as Sink>⟧.faults result ≡ 0 }
    {
        StdSink {
            stream,
            faults: Faults::none(),
        }
    }
}

impl<W: Write + Drop> Sink for StdSink<W> {
    ghost told = { λ _. None };

    ghost faults = { λ sink. fault_count sink.faults };

    fn write(&mut self, piece: &[u8]) -> Result<usize, CallErr> {
        match self.stream.write(piece) {
            Ok(0) if !piece.is_empty() => Err(
                self.faults.refuse(&Error::from(ErrorKind::WriteZero)),
            ),
            Ok(count) => Ok(count),
            Err(error) => Err(self.faults.refuse(&error)),
        }
    }
}
