//! How a call that reads is made, and made twice where it is asked whether its error is kept.

use crate::encodings::{construct_in, parse_in};
use crate::leaf::Leaf;
use crate::line::Case;
use crate::parts::Element;
use crate::reads::Read;
use crate::text::Text;
use std::alloc::{AllocError, Global};
use yasna::{ASN1ErrorKind, ASN1Result, BERMode, BERReader, parse_ber_general};

/// Appends what a call that reads returns on these bytes, and says whether there is one of this name.
pub fn append_outcome(mode: BERMode, case: Case, bytes: &[u8], text: &mut Text) -> bool {
    let (Some(first), Some(second)) = (
        Read::named(case.call),
        Read::named(case.second.unwrap_or(case.call)),
    ) else {
        return false;
    };
    let alloc = text.allocator();
    match parse(alloc, mode, first, bytes) {
        Ok(element) => {
            append_shown(mode, &element, text);
            true
        }
        Err(error) => {
            text.reject(error.kind());
            let both = Both {
                alloc,
                first,
                second,
            };
            !(case.marked || case.second.is_some())
                || both.append_mark(mode, bytes, error.kind(), case.second.is_some(), text)
        }
    }
}

/// What a call reads of these bytes by the parse of this mode.
pub fn parse(alloc: Global, mode: BERMode, read: Read, bytes: &[u8]) -> ASN1Result<Element> {
    parse_in(alloc, mode, bytes, |reader| read.read(alloc, reader))
}

/// Appends `ok`, an element and what is written of it.
pub fn append_shown(mode: BERMode, element: &Element, text: &mut Text) {
    text.push("ok ");
    element.show(text);
    text.push_encoding(encoding_of(text.allocator(), mode, element));
}

/// Appends `ok`, a value and what is written of it.
pub fn append_leaf(mode: BERMode, leaf: Leaf, text: &mut Text) {
    if let Some(element) = Element::alone(leaf, text) {
        append_shown(mode, &element, text);
    }
}

/// What is written of an element.
pub fn encoding_of(alloc: Global, mode: BERMode, element: &Element) -> ASN1Result<Vec<u8>> {
    construct_in(alloc, mode, |writer| element.write(writer))
}

// Two calls, one after the other; the same one twice where no second is named.
#[derive(Clone, Copy)]
struct Both {
    alloc: Global,
    first: Read,
    second: Read,
}

// Why two calls were rejected, if they were.
#[derive(Clone, Copy)]
struct Kinds {
    first: Option<ASN1ErrorKind>,
    second: Option<ASN1ErrorKind>,
}

impl Both {
    // Appends whether the error of a call is sticky: both calls are made in a SEQUENCE of these bytes, which hold no more than a
    // length of one byte can say; in CER, where it would have no length, without one.
    fn append_mark(
        self,
        mode: BERMode,
        bytes: &[u8],
        kind: ASN1ErrorKind,
        differs: bool,
        text: &mut Text,
    ) -> bool {
        let length = match u8::try_from(bytes.len()) {
            Ok(length) if length <= 127 => length,
            _ if mode == BERMode::Cer => 0,
            _ => return false,
        };
        match sequence_of(self.alloc, mode, length, bytes) {
            Ok(whole) => text.push(self.mark(mode, &whole, kind, differs)),
            Err(_) => text.out_of_memory = true,
        }
        true
    }

    // Whether the error of a call is sticky, by both calls in these bytes.
    fn mark(self, mode: BERMode, whole: &[u8], kind: ASN1ErrorKind, differs: bool) -> &'static str {
        let mut kinds = Kinds {
            first: None,
            second: None,
        };
        let parsed = kind_of(parse_ber_general(
            self.alloc,
            whole,
            mode,
            |reader| self.read(reader, &mut kinds),
        ));
        kinds.mark(parsed, kind, differs)
    }

    // Makes both calls, in CER in no SEQUENCE.
    fn read(self, reader: BERReader, kinds: &mut Kinds) -> ASN1Result<()> {
        if reader.mode() == BERMode::Cer {
            kinds.first = kind_of(self.first.read(self.alloc, reader));
            kinds.second = kind_of(self.second.read(self.alloc, reader));
            return Ok(());
        }
        reader.read_sequence(move |seq| {
            kinds.first = kind_of(self.first.read(self.alloc, seq.next()));
            kinds.second = kind_of(self.second.read(self.alloc, seq.next()));
            Ok(())
        })
    }
}

// The bytes after the header of a SEQUENCE of this length; in CER alone.
fn sequence_of(
    alloc: Global,
    mode: BERMode,
    length: u8,
    bytes: &[u8],
) -> Result<Vec<u8>, AllocError> {
    let mut whole = Vec::new(alloc);
    if mode != BERMode::Cer {
        whole.extend_from_slice(&[48, length])?;
    }
    whole.extend_from_slice(bytes)?;
    Ok(whole)
}

impl Kinds {
    // Whether an error is sticky. It consumed something if the second call and the parse around both return it too. It consumed
    // nothing if another call takes what is there, or if this one is rejected again and the parse is not.
    fn mark(
        self,
        parsed: Option<ASN1ErrorKind>,
        kind: ASN1ErrorKind,
        differs: bool,
    ) -> &'static str {
        if self.first != Some(kind) {
            return " refused otherwise";
        }
        match (self.second, parsed) {
            (Some(second), Some(whole)) if second == kind && whole == kind => " consumed",
            (None, None) => " unconsumed",
            (Some(second), None | Some(ASN1ErrorKind::Extra)) if second == kind && !differs =>
                " unconsumed",
            _ => " neither consumed nor unconsumed",
        }
    }
}

/// Why a call was rejected, if it was.
pub fn kind_of<T: Drop>(outcome: ASN1Result<T>) -> Option<ASN1ErrorKind> {
    match outcome {
        Ok(_) => None,
        Err(error) => Some(error.kind()),
    }
}
