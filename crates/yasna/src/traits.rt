//! The traits of types that are read and written as a whole.
//!
//! A type names its grammar, its encoding in each canonical mode and which values are equal, and proves the laws that tie them.
//! The laws of the types that come with the crate have names in `yasna_base`; those of a type made of others follow from theirs.
ghost use Rattle.std.specs.Prelude.{◌≡◌, ⊤, ℕ, List, Bool, None, Result};
ghost use Rattle.yasna_base.specs.declared.error.ASN1Error.{ASN1Error};
ghost use Rattle.yasna_base.specs.declared.mode.BERMode.{BERMode};
ghost use Rattle.yasna_base.specs.Coding.{IsCoding};
ghost use Rattle.yasna_base.specs.Canonical.{IsWritten};
ghost use Rattle.yasna_base.specs.Grammar.{Grammar, Members, Encoding, Depth};
ghost use Rattle.yasna_reader.specs.Decodes.{Decodes, RepeatsError};
ghost use Rattle.yasna_reader.specs.State.{Reading, Does};
ghost use Rattle.yasna_writer.specs.Prepend.{Prepends, KnownLength};
ghost use Rattle.yasna_writer.specs.View.{Writes};

use yasna_base::error::ASN1Result;
use yasna_base::mode::BERMode;
use yasna_reader::BERReader;
use yasna_writer::{DERWriter, PrependBuffer};

/// A type that is read from BER, DER and CER.
///
/// A struct that is a SEQUENCE of its fields gets it from the tuple of them, by `Shaped` and `FromShape`.
pub trait BERDecodable: Sized + Drop {
    // Which bytes encode a value, in a mode within a number of levels.
    ghost encodes: { Grammar Self };

    // Which bytes encode some value.
    ghost elements: { Members };

    // Whether reading a value may allocate.
    ghost may_allocate: { Bool };

    // Which values are equal.
    ghost same: { Self → Self → Type 0 };

    // What `decode_ber` does besides its contract, as which error it returns.
    ghost reads: { Does Self } = { λ _ _ _. ⊤ };

    /// Reads a value of this type. No implicit tag may wait.
    ///
    /// A sticky error is returned, and nothing else happens.
    fn decode_ber(reader: BERReader) -> ASN1Result<Self>
        requires { reader.old.tag ≡ None }
        ensures decodes { reader.old.failed ≡ None → Decodes may_allocate encodes elements reader.old result reader.new }
        ensures failed { RepeatsError reader.old result reader.new }
        ensures reads { reads reader.old result reader.new };

    // Encodings are prefix-free, equal bytes encode equal values, and what is read within some levels is read within more.
    ghost coding: { IsCoding same encodes elements };
}

/// A type that is written in DER and CER, by one `encode_der`.
///
/// A struct gets it from its shape, by `EncodeShape`.
pub trait DEREncodable {
    // The encoding of a value in a canonical mode.
    ghost encoding: { Encoding Self };

    // The depth of that encoding.
    ghost depth: { Depth Self };

    // Which values have an encoding.
    ghost encodable: { Self → Type 0 };

    /// Writes a value of this type. No implicit tag may wait.
    ///
    /// `Err` is `OutOfMemory`, that of the writer or one of the type's own. A sticky error stays.
    fn encode_der(&self, writer: DERWriter<'_>) -> ASN1Result<()>
        requires can { encodable self.now }
        requires untagged { writer.old.tag ≡ None }
        ensures { Writes (encoding writer.old.mode self.now) writer.old writer.new result };

    /// Prepends a value of this type to a buffer, in its mode: the bytes that `encode_der` appends.
    ///
    /// `Err` is `OutOfMemory`. A type without a body of its own is written by `encode_der` separately.
    fn prepend_der(&self, out: &mut PrependBuffer) -> ASN1Result<()>
        requires { encodable self.now }
        ensures { Prepends (encoding out.old.mode self.now) out.old out.new result }
    {
        let mut writer = out.writer();
        let written = self.encode_der(&mut writer);
        out.prepend_written(writer, written)
    }

    /// The length of the encoding in a canonical mode, if it is known.
    ///
    /// The functions `encode_der` and `encode_cer` call `prepend_der` of a value whose length is known, into a block of just that length.
    /// `None` lets them call the method `encode_der` for all of it. So a type that returns `Some` has a body of its own for `prepend_der` too.
    fn encoded_len(&self, mode: BERMode) -> Option<usize>
        requires { encodable self.now }
        ensures { KnownLength (encoding mode self.now) result }
    {
        let _ = mode;
        None
    }
}

/// A type that DER and CER read only from its one encoding there, which BER reads too.
///
/// It has no function: an impl proves the law. A type has it if its shape has it, and it is read and written as its shape.
pub trait DERCanonical: BERDecodable + DEREncodable {
    // The encoding is read, in its mode and in BER; a canonical mode reads nothing else; what BER reads can be written;
    // equal values are written alike.
    ghost written: { IsWritten Self.same Self.encodes Self.encoding Self.depth Self.encodable };
}
