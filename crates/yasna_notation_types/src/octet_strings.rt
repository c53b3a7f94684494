//! Strings of which `yasna` reads no text: the octets under their tag, as X.690, 8.23 has them.
//!
//! Their octets are of character sets that escape sequences choose (ISO 2022), or of UCS-4, or of a free form. Nothing is asked of them.

use crate::tag_names::Universal;
use yasna_notation::Implicit;

/// ObjectDescriptor (X.680, 48): the octets of a text that describes an object.
pub type ObjectDescriptor = Implicit<Universal<7>, Vec<u8>>;

/// TeletexString, or T61String: its octets.
pub type TeletexString = Implicit<Universal<20>, Vec<u8>>;

/// VideotexString: its octets.
pub type VideotexString = Implicit<Universal<21>, Vec<u8>>;

/// GraphicString: its octets.
pub type GraphicString = Implicit<Universal<25>, Vec<u8>>;

/// GeneralString: its octets.
pub type GeneralString = Implicit<Universal<27>, Vec<u8>>;

/// UniversalString: its octets, four a character, the highest first.
pub type UniversalString = Implicit<Universal<28>, Vec<u8>>;
