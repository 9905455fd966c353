//! Standard input and output of a session. The replies are held together. They are written out
//! before the program waits for more input.

use std::alloc::Global;
use std::cell::RefCell;
use std::io;
use std::io::{BufWriter, ErrorKind, Read, Write};

/// The number of octets that are held before they are written.
const HELD_ROOM: usize = 65_536;

/// An output that is asked nothing more after it has failed. Each later write and flush is an
/// error.
#[derive(Drop)]
pub(crate) struct Output<W> {
    device: W,
    failed: bool,
}

/// An output whose octets are held together.
pub(crate) type Held<W> = BufWriter<Output<W>>;

impl<W: Write + Drop> Output<W> {
    /// Holds the octets for an output together. An error is out of memory.
    pub(crate) fn held(alloc: Global, device: W) -> io::Result<Held<W>> {
        let output = Output {
            device,
            failed: false,
        };
        BufWriter::with_capacity(alloc, HELD_ROOM, output)
    }
}

impl<W: Write> Write for Output<W> {
    fn write(&mut self, buf: &[u8]) -> io::Result<usize> {
        if self.failed {
            return Err(io::Error::from(ErrorKind::BrokenPipe));
        }
        let answer = self.device.write(buf);
        // An interruption is no failure: the buffer tries again.
        self.failed = match &answer {
            Ok(written) => *written == 0,
            Err(e) => e.kind() != ErrorKind::Interrupted,
        };
        answer
    }

    fn flush(&mut self) -> io::Result<()> {
        if self.failed {
            return Err(io::Error::from(ErrorKind::BrokenPipe));
        }
        let answer = self.device.flush();
        self.failed = answer.is_err();
        answer
    }
}

/// Takes replies into a buffer that it shares.
#[derive(Drop)]
pub(crate) struct ReplyWriter<'a, W: Write + Drop> {
    held: &'a RefCell<Held<W>>,
}

impl<'a, W: Write + Drop> ReplyWriter<'a, W> {
    pub(crate) fn new(held: &'a RefCell<Held<W>>) -> ReplyWriter<'a, W> {
        ReplyWriter { held }
    }
}

impl<W: Write + Drop> Write for ReplyWriter<'_, W> {
    fn write(&mut self, buf: &[u8]) -> io::Result<usize> {
        self.held.try_borrow_mut()?.write(buf)
    }

    fn flush(&mut self) -> io::Result<()> {
        self.held.try_borrow_mut()?.flush()
    }
}

/// Gives requests. Before each read the replies that are held are written out. So a client that
/// waits for them before its next request gets them. If they can't be written, nothing is read.
#[derive(Drop)]
pub(crate) struct Requests<'a, R, W: Write + Drop> {
    input: R,
    held: &'a RefCell<Held<W>>,
}

impl<'a, R: Read, W: Write + Drop> Requests<'a, R, W> {
    pub(crate) fn new(input: R, held: &'a RefCell<Held<W>>) -> Requests<'a, R, W> {
        Requests { input, held }
    }
}

impl<R: Read, W: Write + Drop> Read for Requests<'_, R, W> {
    fn read(&mut self, buf: &mut [u8]) -> io::Result<usize> {
        self.held.try_borrow_mut()?.flush()?;
        self.input.read(buf)
    }
}
