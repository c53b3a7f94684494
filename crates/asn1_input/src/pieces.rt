//! The pieces of bytes: elements one after the other.
ghost use Rattle.std.specs.Prelude.{◌≡◌, ◌≤◌, ◌<◌, length, IfSome};
ghost use Rattle.asn1_input.specs.Pieces.{IsFirstPiece};

use yasna_base::mode::BERMode;
use yasna_bytes::bytes::cursor::Cursor;
use yasna_bytes::bytes::walk::raw_element;

/// The first piece of bytes, and the bytes after it.
///
/// It is the element in BER that begins there (X.690, 8.1). If none does, it is all of the bytes.
pub fn first_piece(bytes: &[u8]) -> (&[u8], &[u8])
    ensures piece { IsFirstPiece bytes.now result.0.now result.1.now }
    ensures shorter { 1 ≤ length result.1.now → length result.1.now < length bytes.now }
{
    match raw_element(Cursor::start(bytes, BERMode::Ber)) {
        Ok((element, rest)) => (element.bytes, rest),
        Err(_) => (bytes, &[]),
    }
}

/// The pieces of bytes, one after the other. Bytes that are none are one piece.
#[derive(Drop)]
pub struct Pieces<'a> {
    left: Option<&'a [u8]>,
}

impl<'a> Pieces<'a> {
    /// The pieces of these bytes.
    pub fn new(bytes: &'a [u8]) -> Pieces<'a> {
        Pieces { left: Some(bytes) }
    }
}

// The bytes after a piece, if there are any.
fn rest_of(rest: &[u8]) -> Option<&[u8]>
    ensures { IfSome result (λ left. (left.now ≡ rest.now) × (1 ≤ length rest.now)) }
{
    if rest.is_empty() { None } else { Some(rest) }
}

impl<'a> Iterator for Pieces<'a> {
    ghost use Rattle.std.specs.Iterator.{at_most};
    ghost use Rattle.asn1_input.specs.Pieces.{size_of_rest};

    type Item = &'a [u8];

    ghost remaining = { λ s. at_most (size_of_rest s.left) };

    fn next(&mut self) -> Option<&'a [u8]> {
        let here = self.left?;
        let (piece, rest) = first_piece(here);
        self.left = rest_of(rest);
        Some(piece)
    }
}
