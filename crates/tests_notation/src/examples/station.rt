//! An example of `SIZE`, `FROM` and ranges: a station with its name and place.
//!
//! ```text
//! Station ::= SEQUENCE {
//!     call      IA5String (SIZE (1..8)) (FROM ("A".."Z" | "0".."9")),
//!     country   PrintableString (SIZE (2)),
//!     latitude  INTEGER (-90..90) }
//! ```
ghost use Rattle.std.specs.Prelude.{◌≡◌, refl};

use crate::values::Assigned;
use yasna_notation::{Bounded, Ia5String, PrintableString, Sequence};
use yasna_notation_constraints::{
    Both, CharacterRange, FromCharacters, IntegerFromTo, SizeFromTo, SizeIs,
};

type CapitalsAndDigits = (CharacterRange<65, 90>, (CharacterRange<48, 57>, ()));

// One to eight capitals and digits.
type Call = Bounded<Ia5String, Both<SizeFromTo<1, 8>, FromCharacters<CapitalsAndDigits>>>;

// Two characters.
type Country = Bounded<PrintableString, SizeIs<2>>;

// Degrees from -90 to 90.
type Latitude = Bounded<i64, IntegerFromTo<{ -90 }, 90>>;

/// A station.
pub struct Station;

impl Assigned for Station {
    type Notation = Sequence<(Call, (Country, (Latitude, ())))>;

    ghost unambiguous = { refl };
}
