//! An example of `Private` and strings of octets: a SEQUENCE under a private tag in place of its own.
//!
//! ```text
//! Badge ::= [PRIVATE 5] IMPLICIT SEQUENCE {
//!     serial  INTEGER,
//!     holder  TeletexString,
//!     note    ObjectDescriptor OPTIONAL,
//!     label   BMPString OPTIONAL }
//! ```
ghost use Rattle.std.specs.Prelude.{◌≡◌, refl};

use crate::values::Assigned;
use yasna_notation::{Implicit, Optional, Sequence};
use yasna_notation_types::{BmpString, ObjectDescriptor, Private, TeletexString};

type Ends = (Optional<ObjectDescriptor>, (Optional<BmpString>, ()));

/// A badge. The holder's name and the note are octets, the label is a text.
pub struct Badge;

impl Assigned for Badge {
    type Notation = Implicit<Private<5>, Sequence<(i64, (TeletexString, Ends))>>;

    ghost unambiguous = { refl };
}
