//! Raw elements, whose contents are written as they are (X.690, 8.1): calls of users.
ghost use Rattle.yasna_base.specs.Identifier.{tag_or};
ghost use Rattle.yasna_base.specs.Raw.{raw_encoding};
ghost use Rattle.yasna_base.specs.TaggedDerValue.{raw_of};
ghost use Rattle.yasna_writer.specs.Header.{raw_header};
ghost use Rattle.yasna_writer.specs.State.{Appended};
ghost use Rattle.yasna_writer.specs.View.{Wrote};

use crate::header::Header;
use crate::state::Writer;
use yasna_base::models::TaggedDerValue;
use yasna_base::{ASN1Result, BERMode, PCBit};

impl Writer {
    /// Writes a raw element (X.690, 8.1): its identifier, or that of the implicit tag with its bit, the length of its payload in the
    /// fewest bytes, and its payload as it is.
    ///
    /// In CER a constructed one has indefinite length: 128 is in place of its length, and its payload has to end with two zeros.
    pub fn write_tagged_der(&mut self, value: &TaggedDerValue) -> ASN1Result<()>
        ensures { Wrote (raw_encoding (tag_or self.old.tag (raw_of value.now).tag) self.old.mode (raw_of value.now)) self.old self.new result }
    {
        if let Some(error) = self.failed() {
            return Err(error);
        }
        let tag = self.take_tag(value.tag());
        let payload = value.value();
        let length = payload.len();
        self.append_raw_header(Header { tag, length }, value.pcbit())?;
        self.append(payload)
    }

    // Appends the identifier and the length before a payload that is written as it is, or fails with a sticky `OutOfMemory`.
    #[inline(always)]
    fn append_raw_header(&mut self, header: Header, bit: PCBit) -> ASN1Result<()>
        ensures { Appended (raw_header self.old.mode bit header) self.old self.new result }
    {
        let Header { tag, length } = header;
        match (self.mode(), bit) {
            (BERMode::Cer, PCBit::Constructed) => self.append_indefinite_header(tag, length),
            _ => self.append_header(header, bit),
        }
    }

    /// Writes bytes as they are. An implicit tag that waits is ignored, and used up.
    ///
    /// The caller vouches that they are one element in the mode of the writing.
    #[inline(always)]
    pub fn write_der(&mut self, der: &[u8]) -> ASN1Result<()>
        ensures { Wrote der.now self.old self.new result }
    {
        if let Some(error) = self.failed() {
            return Err(error);
        }
        self.untag();
        self.append(der)
    }
}
