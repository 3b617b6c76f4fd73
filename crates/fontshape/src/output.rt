//! Where lines are written.
use crate::failure::Failure;
use std::alloc::Global;
use std::io::{BufWriter, Write};

/// What takes a text part by part.
pub trait sink {
    /// Takes the next part.
    fn put(&mut self, alloc: Global, part: &str) -> Result<(), Failure>;
}

/// A file or standard output, and what is said of it if it can't be written.
#[derive(Drop)]
pub struct Output<'a, W: Write + Drop> {
    name: &'a str,
    writer: BufWriter<W>,
}

impl<'a, W: Write + Drop> Output<'a, W> {
    /// Writes to this one, through a buffer.
    pub fn new(alloc: Global, name: &'a str, writer: W) -> Result<Output<'a, W>, Failure> {
        match BufWriter::new(alloc, writer) {
            Ok(writer) => Ok(Output { name, writer }),
            Err(_) => Err(Failure::Memory),
        }
    }

    /// Writes some bytes.
    pub fn write(&mut self, alloc: Global, bytes: &[u8]) -> Result<(), Failure> {
        match self.writer.write_all(bytes) {
            Ok(()) => Ok(()),
            Err(error) => Err(Failure::write(alloc, self.name, error)),
        }
    }

    /// Hands on what is written.
    pub fn flush(&mut self, alloc: Global) -> Result<(), Failure> {
        match self.writer.flush() {
            Ok(()) => Ok(()),
            Err(error) => Err(Failure::write(alloc, self.name, error)),
        }
    }
}

impl<'a, W: Write + Drop> sink for Output<'a, W> {
    fn put(&mut self, alloc: Global, part: &str) -> Result<(), Failure> {
        self.write(alloc, part.as_bytes())
    }
}
