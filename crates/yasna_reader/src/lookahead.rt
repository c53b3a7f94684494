//! The next tag (X.690, 8.1.2), by which users read a CHOICE (8.13) or test whether a part is there.

use crate::state::ReaderState;
use yasna_base::bytes::identifier::read_identifier;
use yasna_base::error::{ASN1Error, ASN1Result};
use yasna_base::tag::Tag;

impl<'a> ReaderState<'a> {
    ghost use Rattle.yasna_reader.specs.Lookahead.{LooksAhead};

    /// The tag of the next element, which isn't consumed (X.690, 8.1.2). An implicit tag that waits changes nothing.
    ///
    /// Returns `Eof` if nothing is left, and the error of an identifier that is malformed. No such Err is sticky.
    #[inline(always)]
    pub fn lookahead_tag(&self) -> ASN1Result<Tag>
        ensures { LooksAhead self.now.failed self.now.left result }
    {
        if let Some(error) = self.failed {
            return Err(error);
        }
        match read_identifier(self.cursor.left) {
            Ok((tag, _, _)) => Ok(tag),
            Err(kind) => Err(ASN1Error::new(kind)),
        }
    }
}
