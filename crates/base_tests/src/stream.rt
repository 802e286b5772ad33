use hdr_core::{CallErr, StdSink, write_whole};
use std::io::{self, Write};

/// A stream that takes few bytes at a time.
#[derive(Drop)]
struct Slow {
    most: usize,
    taken: usize,
}

impl Write for Slow {
    fn write(&mut self, piece: &[u8]) -> io::Result<usize> {
        let count = piece.len().min(self.most);
        self.taken = self.taken.saturating_add(count);
        Ok(count)
    }

    fn flush(&mut self) -> io::Result<()> {
        Ok(())
    }
}

#[test]
fn writes_in_parts_and_refuses_to_write_nothing(rt: HostRuntime) {
    let table = [(3, Ok(()), 7), (9, Ok(()), 7), (0, Err(CallErr::Failed), 0)];
    for (most, answer, taken) in table {
        let mut slow = Slow { most, taken: 0 };
        let written = write_whole(b"seventy", &mut StdSink::of(&mut slow));
        assert!(rt; written == answer, "{most}");
        assert!(rt; slow.taken == taken, "{most}");
    }
}
