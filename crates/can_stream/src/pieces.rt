//! Readers and writers that work in pieces and stop on request, for tests of streams.
ghost use Rattle.std.specs.Prelude.{◌≡◌, false, IfOk};
ghost use Rattle.can_stream.specs.Wrapped.{read_failed, read_ended, write_failed};

use crate::sink::ToWrite;
use crate::source::FromRead;
use std::alloc::Global;
use std::io;
use std::io::{Error, ErrorKind, Read, Write};

/// More bytes than a usual test writes.
pub const ROOM: usize = 1_000_000;

/// What a reader or a writer returns at its end.
#[derive(Clone, Copy)]
pub enum Stop {
    Nothing,
    Fails(ErrorKind),
}

impl Stop {
    fn answer(self) -> io::Result<usize>
        ensures { IfOk result (λ n. n ≡ 0) }
    {
        match self {
            Stop::Nothing => Ok(0),
            Stop::Fails(kind) => Err(Error::from(kind)),
        }
    }
}

/// Returns its text in pieces of at most `size` bytes, then stops. It counts the calls after that.
#[derive(Drop)]
pub struct Pieces<'a> {
    pub text: &'a [u8],
    pub size: usize,
    pub stop: Stop,
    pub stops: u32,
}

impl Read for Pieces<'_> {
    fn read(&mut self, buf: &mut [u8]) -> io::Result<usize> {
        let count = self.size.min(self.text.len()).min(buf.len());
        if count == 0 {
            self.stops = self.stops.saturating_add(1);
            return self.stop.answer();
        }
        let (piece, rest) = self.text.split_at(count);
        buf[..count].copy_from_slice(piece);
        self.text = rest;
        Ok(count)
    }
}

/// Takes at most `size` bytes a write until it has `room` bytes, then stops. It counts the calls after
/// that.
#[derive(Drop)]
pub struct Taker {
    pub taken: Vec<u8>,
    pub size: usize,
    pub room: usize,
    pub stop: Stop,
    pub stops: u32,
}

impl Write for Taker {
    fn write(&mut self, buf: &[u8]) -> io::Result<usize> {
        let room = self.room.saturating_sub(self.taken.len());
        let count = self.size.min(room).min(buf.len());
        if count == 0 {
            self.stops = self.stops.saturating_add(1);
            return self.stop.answer();
        }
        self.taken.extend_from_slice(&buf[..count])?;
        Ok(count)
    }

    fn flush(&mut self) -> io::Result<()> {
        Ok(())
    }
}

/// Returns a source with these pieces, which has neither failed nor ended.
pub fn reader_of(text: &[u8], size: usize, stop: Stop) -> FromRead<Pieces<'_>>
    ensures unfailed { read_failed result ≡ false }
    ensures unended { read_ended result ≡ false }
{
    FromRead::new(Pieces {
        text,
        size,
        stop,
        stops: 0,
    })
}

/// Returns a sink that takes these pieces, and has not failed.
pub fn writer_of(alloc: Global, size: usize, room: usize, stop: Stop) -> ToWrite<Taker>
    ensures { write_failed result ≡ false }
{
    ToWrite::new(Taker {
        taken: Vec::new(alloc),
        size,
        room,
        stop,
        stops: 0,
    })
}
