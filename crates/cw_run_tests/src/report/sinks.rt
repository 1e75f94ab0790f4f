//! A text on sinks with little room, and on a sink that fails.

use crate::report::Taken;
use cw_report::{Counted, Sink, write_text};
use cw_text::Fault;
use std::alloc::{AllocError, Global};
use std::io;
use std::io::{Cursor, Write};

// Writes a text to a sink with this room.
fn text_to_room(alloc: Global, text: &[u8], room: usize) -> Result<Taken, AllocError> {
    let mut bytes = vec![in alloc; 0; room]?;
    let mut sink = Counted::new(Cursor::new(bytes.as_mut_slice()));
    let told = write_text(&mut sink, text);
    let failures = sink.failures();
    let taken = sink.into_inner().position();
    bytes.truncate(taken as usize);
    Ok(Taken {
        bytes,
        told,
        failures,
    })
}

const TEXT: &[u8] = b"return 1\n";

#[test]
fn a_full_sink_has_a_beginning(rt: HostRuntime) -> Result<(), AllocError> {
    for room in 0..12 {
        let taken = text_to_room(rt.alloc(), TEXT, room)?;
        assert!(rt; taken.is_beginning(TEXT, room), "{room}");
    }
    Ok(())
}

// A sink that fails at each write and at each flush.
#[derive(Drop)]
struct Broken;

impl Write for Broken {
    fn write(&mut self, _bytes: &[u8]) -> io::Result<usize> {
        Err(io::Error::from(io::ErrorKind::BrokenPipe))
    }

    fn flush(&mut self) -> io::Result<()> {
        Err(io::Error::from(io::ErrorKind::BrokenPipe))
    }
}

#[test]
fn a_failed_write_is_told_once(rt: HostRuntime) {
    let mut sink = Counted::new(Broken);
    assert!(rt; write_text(&mut sink, b"").is_ok());
    assert_eq!(rt; sink.failures(), 0);
    let told = write_text(&mut sink, TEXT);
    assert!(rt; matches!(told, Err(Fault::Write)));
    assert_eq!(rt; sink.failures(), 1);
}

#[test]
fn a_flush_that_fails_is_told_and_not_counted(rt: HostRuntime) {
    let mut sink = Counted::new(Broken);
    assert!(rt; sink.flush().is_err());
    assert_eq!(rt; sink.failures(), 0);
}
