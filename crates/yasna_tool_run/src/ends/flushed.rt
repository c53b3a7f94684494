//! The sign that a flush reached an end.
ghost use Rattle.std.specs.Prelude.{IfOk};
ghost use Rattle.std.specs.Io.KnownBytes.{Keeps};

use std::io;
use std::io::Write;

/// An end was flushed, and returned `Ok`. Only `of` makes one.
#[derive(Drop)]
pub struct Flushed {
    reached: (),
}

impl Flushed {
    /// Flushes an end.
    pub fn of<E: Write>(end: &mut E) -> io::Result<Flushed>
        ensures { Keeps (E.contents end.old) (E.contents end.new) }
    {
        end.flush()?;
        Ok(Flushed { reached: () })
    }
}
