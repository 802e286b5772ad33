use std::io;
use std::io::{Stderr, Stdout, Write};

/// Standard output or standard error, as one type: a run takes two sinks of one type.
#[derive(Drop)]
pub enum StandardStream {
    Output(Stdout),
    Error(Stderr),
}

impl Write for StandardStream {
    fn write(&mut self, piece: &[u8]) -> io::Result<usize> {
        match self {
            StandardStream::Output(stream) => stream.write(piece),
            StandardStream::Error(stream) => stream.write(piece),
        }
    }

    fn flush(&mut self) -> io::Result<()> {
        match self {
            StandardStream::Output(stream) => stream.flush(),
            StandardStream::Error(stream) => stream.flush(),
        }
    }
}
