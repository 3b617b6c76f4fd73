//! Why the program gives up, what it says of it, and the status that it ends with.
ghost use Rattle.std.specs.Prelude.{◌≡◌, ◌≤◌, ◌⊎◌};

use clap::Error;
use clap::error::ErrorKind;
use shape_pipeline::ShapeError;
use std::alloc::{AllocError, Global};
use std::io;

/// Why the program gives up.
#[derive(Drop)]
pub enum Failure {
    /// `clap` refuses the arguments, or they ask for help or for the version: it has the words.
    Usage(Error),
    /// An argument is not as it should be.
    Argument(String),
    /// A file is not as it should be.
    File(String),
    /// A text was refused.
    Refused(String),
    /// A growth of memory was refused.
    Memory,
    /// Nobody reads on what is written.
    Closed,
}

impl Failure {
    /// The value of an option that doesn't take it, and what it takes.
    pub fn value(alloc: Global, option: &str, value: &str, wanted: &str) -> Failure {
        match format!(in alloc; "invalid value '{value}' for '--{option}': {wanted}") {
            Ok(text) => Failure::Argument(text),
            Err(_) => Failure::Memory,
        }
    }

    /// Two options that exclude each other.
    pub fn both(alloc: Global, one: &str, other: &str) -> Failure {
        match format!(in alloc; "{one} can't be used with {other}") {
            Ok(text) => Failure::Argument(text),
            Err(_) => Failure::Memory,
        }
    }

    /// What is wrong with a file.
    pub fn file(alloc: Global, name: &str, wrong: &str) -> Failure {
        match format!(in alloc; "{name}: {wrong}") {
            Ok(text) => Failure::File(text),
            Err(_) => Failure::Memory,
        }
    }

    /// A file, which holds these bytes, without the font of this number.
    pub fn no_font(alloc: Global, name: &str, bytes: &[u8], number: u32) -> Failure {
        if bytes.starts_with(b"wOFF") {
            return Failure::file(alloc, name, "a compressed font (WOFF); unpack it first");
        }
        if bytes.starts_with(b"wOF2") {
            return Failure::file(alloc, name, "a compressed font (WOFF2); unpack it first");
        }
        if number == 0 {
            return Failure::file(alloc, name, "not a font file");
        }
        match format!(in alloc; "{name}: no font has the number {number} there") {
            Ok(text) => Failure::File(text),
            Err(_) => Failure::Memory,
        }
    }

    /// A file that can't be read or written.
    pub fn io(alloc: Global, name: &str, error: io::Error) -> Failure {
        match format!(in alloc; "{name}: {error}") {
            Ok(text) => Failure::File(text),
            Err(_) => Failure::Memory,
        }
    }

    /// A write that failed; where nobody reads on, as `head` after its lines, there is nothing to
    /// say.
    pub fn write(alloc: Global, name: &str, error: io::Error) -> Failure {
        match error.kind() {
            io::ErrorKind::BrokenPipe => Failure::Closed,
            _ => Failure::io(alloc, name, error),
        }
    }

    /// The argument with this number, counted from 1, that isn't UTF-8 from this byte on.
    pub fn malformed(alloc: Global, number: usize, at: usize) -> Failure {
        match format!(in alloc;
            "argument {number} isn't UTF-8 from its byte {at} on: give the text by --text-file or --unicodes"
        ) {
            Ok(text) => Failure::Argument(text),
            Err(_) => Failure::Memory,
        }
    }

    /// A line that was refused.
    pub fn line(alloc: Global, number: usize, error: ShapeError) -> Failure {
        if let ShapeError::Memory = error {
            return Failure::Memory;
        }
        match format!(in alloc;
            "line {number}: the text is too long, or its glyphs would be too many"
        ) {
            Ok(text) => Failure::Refused(text),
            Err(_) => Failure::Memory,
        }
    }

    /// The status that the program ends with: 2 if the arguments are wrong, 1 for a file or for
    /// want of memory, 3 for a text that was refused, and 0 only after help and the version, and
    /// where nobody reads on.
    pub fn status(&self) -> u8
        ensures within { result ≤ 3 }
        ensures usage { (e : _) → self.now ≡ Failure.Usage e → (result ≡ 0) ⊎ (result ≡ 2) }
        ensures argument { (text : _) → self.now ≡ Failure.Argument text → result ≡ 2 }
        ensures file { (text : _) → self.now ≡ Failure.File text → result ≡ 1 }
        ensures refused { (text : _) → self.now ≡ Failure.Refused text → result ≡ 3 }
        ensures memory { self.now ≡ Failure.Memory → result ≡ 1 }
        ensures closed { self.now ≡ Failure.Closed → result ≡ 0 }
    {
        match self {
            Failure::Usage(error) if !error.use_stderr() => 0,
            Failure::Closed => 0,
            Failure::Usage(_) => 2,
            Failure::Argument(_) => 2,
            Failure::File(_) | Failure::Memory => 1,
            Failure::Refused(_) => 3,
        }
    }

    /// What is said of it, except for what `clap` says.
    pub fn text(&self) -> &str {
        match self {
            Failure::Usage(_) | Failure::Closed => "",
            Failure::Argument(text) | Failure::File(text) | Failure::Refused(text) => text.as_str(),
            Failure::Memory => "out of memory",
        }
    }
}

impl From<AllocError> for Failure {
    fn from(_error: AllocError) -> Failure {
        Failure::Memory
    }
}

impl From<Error> for Failure {
    fn from(error: Error) -> Failure {
        if error.kind() == ErrorKind::OutOfMemory {
            Failure::Memory
        } else {
            Failure::Usage(error)
        }
    }
}
