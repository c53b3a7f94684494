//! Diagnostics of elements, and the conformance of the whole to encoding rules.
ghost use Rattle.std.specs.Prelude.{◌≡◌, if◌then◌else◌, true, Some, None};
ghost use Rattle.yasna_base.specs.declared.mode.BERMode.{BERMode};
ghost use Rattle.asn1show_printer.specs.Conformance.{conforms, excludes, is_of_module, AreMet, IsNoted};
ghost use Rattle.asn1show_printer.specs.Lines.{modes_text};

use yasna_base::mode::BERMode;

/// A diagnostic: why an element is not DER, or not BER.
#[derive(Clone, Copy)]
pub enum Diagnostic {
    /// The length takes more octets than it needs (X.690, 10.1).
    LongLength,
    /// The length is indefinite (X.690, 10.1).
    Indefinite,
    /// A string is cut into segments (X.690, 10.2).
    Segments,
    /// A TRUE isn't all ones (X.690, 11.1).
    Truth,
    /// The unused bits of a BIT STRING aren't zeros (X.690, 11.2.1).
    Padding,
    /// A SET OF isn't in the order of its elements' octets (X.690, 11.6).
    Order,
    /// A SET isn't in the order of its elements' tags, nor in that of their octets, by which a SET OF goes (X.690, 10.3 and 11.6).
    TagOrder,
    /// A time isn't canonical (X.690, 11.7 and 11.8).
    Time,
    /// A time is in no known zone (X.690, 11.7.1).
    Local,
    /// A type that has no parts is constructed.
    HasParts,
    /// A type that has parts is primitive.
    HasNoParts,
    /// A segment isn't of the expected type.
    Segment,
    /// A segment follows one with unused bits, which only the last may have (X.690, 8.6.4).
    AfterUnusedBits,
    /// A BOOLEAN isn't one octet.
    Boolean,
    /// A number has no octets or nine equal leading bits.
    Number,
    /// A NULL has contents.
    Null,
    /// A BIT STRING has no count of unused bits, or one that doesn't fit.
    Bits,
    /// An object identifier has no components.
    NoComponent,
    /// A component of an object identifier isn't in the fewest octets (X.690, 8.19.2).
    LongComponent,
    /// The last component of an object identifier is cut off.
    CutComponent,
    /// A text has a character that its type hasn't.
    Characters,
    /// A text isn't a time.
    NoTime,
    /// A constructed element has a definite length, which CER doesn't accept (X.690, 9.1).
    Definite,
    /// A string isn't cut into segments as CER cuts it (X.690, 9.2).
    Uncut,
    /// The type of the module has no such element there.
    NotInModule,
    /// A part is missing that the type of the module has.
    Missing,
    /// A part of a SET is there twice.
    Repeated,
    /// A number is out of the bounds of its type (X.680, 51.4).
    Bounds,
    /// The size isn't one that the type has (X.680, 51.5).
    Size,
    /// No item of an ENUMERATED has the number.
    Item,
    /// A part is encoded although its value is that of its DEFAULT (X.690, 11.5).
    Default,
    /// Zeros are after the last one of named bits (X.690, 11.2.2).
    LastZeros,
}

impl Diagnostic {
    /// The text of a diagnostic.
    pub fn text(self) -> &'static str {
        match self {
            Diagnostic::LongLength => "not DER: the length isn't the shortest",
            Diagnostic::Indefinite => "not DER: indefinite length",
            Diagnostic::Segments => "not DER: cut into segments",
            Diagnostic::Truth => "not DER: TRUE isn't FF",
            Diagnostic::Padding => "not DER: unused bits aren't zeros",
            Diagnostic::Order => "not DER: a SET OF out of order",
            Diagnostic::TagOrder => "not DER: a SET out of order by tags, and by octets",
            Diagnostic::Time => "not DER: the time isn't canonical",
            Diagnostic::Local => "not DER: local time",
            Diagnostic::HasParts => "not BER: constructed, where the type is primitive",
            Diagnostic::HasNoParts => "not BER: primitive, where the type is constructed",
            Diagnostic::Segment => "not BER: a segment of another type",
            Diagnostic::AfterUnusedBits => "not BER: a segment after unused bits",
            Diagnostic::Boolean => "not BER: a BOOLEAN that isn't one octet",
            Diagnostic::Number => "not BER: a number in too many octets or none",
            Diagnostic::Null => "not BER: a NULL with contents",
            Diagnostic::Bits => "not BER: no count of unused bits that fits",
            Diagnostic::NoComponent => "not BER: an identifier without components",
            Diagnostic::LongComponent => "not BER: a component in more octets than it needs",
            Diagnostic::CutComponent => "not BER: the last component is cut off",
            Diagnostic::Characters => "not BER: a character that the type hasn't",
            Diagnostic::NoTime => "not BER: no time",
            Diagnostic::Definite => "not CER: definite length",
            Diagnostic::Uncut => "not CER: not cut into segments of 1000 octets",
            Diagnostic::NotInModule => "not in the module",
            Diagnostic::Missing => "not in the module: a part is missing",
            Diagnostic::Repeated => "not in the module: a part is there twice",
            Diagnostic::Bounds => "not in the module: a number out of its bounds",
            Diagnostic::Size => "not in the module: another size",
            Diagnostic::Item => "not in the module: a number of no item",
            Diagnostic::Default => "not DER: the value is the default",
            Diagnostic::LastZeros => "not DER: zeros after the last one of named bits",
        }
    }

    /// Whether the element isn't as the module says.
    pub fn is_of_module(self) -> bool
        ensures { result ≡ is_of_module self }
    {
        matches!(
            self,
            Diagnostic::NotInModule
                | Diagnostic::Missing
                | Diagnostic::Repeated
                | Diagnostic::Bounds
                | Diagnostic::Size
                | Diagnostic::Item
        )
    }

    /// Whether an element with this diagnostic isn't in a mode.
    pub fn excludes(self, mode: BERMode) -> bool
        ensures { result ≡ excludes self mode }
    {
        match self {
            // CER orders an untagged CHOICE by the least of its tags (X.690, 9.3), which no element shows.
            Diagnostic::Indefinite | Diagnostic::Segments | Diagnostic::TagOrder => {
                mode == BERMode::Der
            }
            Diagnostic::Definite | Diagnostic::Uncut => mode == BERMode::Cer,
            Diagnostic::NotInModule
            | Diagnostic::Missing
            | Diagnostic::Repeated
            | Diagnostic::Bounds
            | Diagnostic::Size
            | Diagnostic::Item => false,
            Diagnostic::Default
            | Diagnostic::LastZeros
            | Diagnostic::LongLength
            | Diagnostic::Truth
            | Diagnostic::Padding
            | Diagnostic::Order
            | Diagnostic::Time
            | Diagnostic::Local => mode != BERMode::Ber,
            _ => true,
        }
    }
}

/// The diagnostic, unless this is so.
pub fn unless(is_so: bool, diagnostic: Diagnostic) -> Option<Diagnostic>
    ensures { result ≡ if is_so then None else Some diagnostic }
{
    if is_so { None } else { Some(diagnostic) }
}

/// The encoding rules that elements conform to, as far as can be known without a schema.
#[derive(Clone, Copy)]
pub struct Conformance {
    ber: bool,
    der: bool,
    cer: bool,
}

impl Conformance {
    /// The conformance of no elements: they conform to each mode.
    pub fn new() -> Conformance
        ensures { (m : BERMode) → conforms result m ≡ true }
    {
        Conformance {
            ber: true,
            der: true,
            cer: true,
        }
    }

    /// Drops the encoding rules that a diagnostic excludes.
    pub fn note(&mut self, diagnostic: Diagnostic)
        ensures { IsNoted self.old diagnostic self.new }
    {
        self.ber = self.ber && !diagnostic.excludes(BERMode::Ber);
        self.der = self.der && !diagnostic.excludes(BERMode::Der);
        self.cer = self.cer && !diagnostic.excludes(BERMode::Cer);
    }

    /// Drops the encoding rules that further elements don't conform to.
    pub fn meet(&mut self, further: Conformance)
        ensures { AreMet self.old further self.new }
    {
        self.ber = self.ber && further.ber;
        self.der = self.der && further.der;
        self.cer = self.cer && further.cer;
    }

    /// Whether the elements conform to a mode.
    pub fn includes(self, mode: BERMode) -> bool
        ensures { result ≡ conforms self mode }
    {
        match mode {
            BERMode::Ber => self.ber,
            BERMode::Der => self.der,
            BERMode::Cer => self.cer,
        }
    }

    /// The names of the encoding rules.
    pub fn modes(self) -> &'static str
        ensures { result.now ≡ modes_text self }
    {
        match (self.ber, self.der, self.cer) {
            (false, _, _) => "none",
            (true, false, false) => "BER",
            (true, true, false) => "BER, DER",
            (true, false, true) => "BER, CER",
            (true, true, true) => "BER, DER, CER",
        }
    }
}
