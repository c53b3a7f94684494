//! What messages name of an input.

use std::fmt;

/// What messages begin with: the name of the input, if there are several, and the number of a block of PEM, from 1 on.
#[derive(Clone, Copy)]
pub struct Origin<'a> {
    /// The name.
    pub name: Option<&'a str>,
    /// The number.
    pub block: Option<usize>,
}

impl fmt::Display for Origin<'_> {
    fn fmt<W: fmt::Write>(&self, f: &mut fmt::Formatter<W>) -> fmt::Result {
        if let Some(name) = self.name {
            write!(f, "{name}: ")?;
        }
        if let Some(block) = self.block {
            write!(f, "block {block}: ")?;
        }
        Ok(())
    }
}
