//! A screen that keeps what is printed.
use std::alloc::{AllocError, Global};
use std::cell::Cell;
use std::fmt::Display;
use std::io;

/// What was printed, with `error: ` before each line that went to the standard error. The text keeps its room, so that
/// printing allocates only where that is too short.
#[derive(Drop)]
pub struct Screen {
    text: Cell<Option<String>>,
}

impl Screen {
    /// With room for more than is printed in a test.
    pub fn new(alloc: Global) -> Result<Screen, AllocError> {
        let text = Cell::new(Some(String::with_capacity(alloc, 4096)?));
        Ok(Screen { text })
    }

    fn append<D: Display + Drop>(&self, mark: &str, value: D, end: &str) -> io::Result<()> {
        let Some(mut text) = self.text.take() else {
            return Err(io::ErrorKind::Unsupported.into());
        };
        let written = write!(text, "{mark}{value}{end}");
        self.text.set(Some(text));
        written.map_err(|_| io::ErrorKind::OutOfMemory.into())
    }

    /// What was printed. Nothing can be printed after it, and there is no text any more.
    pub fn text(&self) -> Option<String> {
        self.text.take()
    }
}

impl Print for Screen {
    fn print<D: Display + Drop>(&self, value: D) -> io::Result<()> {
        self.append("", value, "")
    }

    fn println<D: Display + Drop>(&self, value: D) -> io::Result<()> {
        self.append("", value, "\n")
    }

    fn write_all(&self, _bytes: &[u8]) -> io::Result<()> {
        Err(io::ErrorKind::Unsupported.into())
    }
}

impl Eprint for Screen {
    fn eprint<D: Display + Drop>(&self, _value: D) -> io::Result<()> {
        Err(io::ErrorKind::Unsupported.into())
    }

    fn eprintln<D: Display + Drop>(&self, value: D) -> io::Result<()> {
        self.append("error: ", value, "\n")
    }
}
