//! Defaults that are known by a test (X.680, 25.9): of OBJECT IDENTIFIER, OCTET STRING, strings, and elements of any type.
ghost use Rattle.std.specs.Prelude.{◌≡◌, Bool, List, ℕ};
ghost use Rattle.std.specs.Str.{bytes_eq, chars};
ghost use Rattle.yasna_base.specs.Raw.{RawValue};
ghost use Rattle.yasna_base.specs.TaggedDerValue.{raw_of};
ghost use Rattle.yasna_base.specs.Text.{characters};
ghost use Rattle.yasna_notation.specs.Laws.{octets_of};
ghost use Rattle.yasna_notation_constraints.specs.TestedDefaults.{IsOneValue, some_passes, is_element, one_list, one_seen, one_element};

use std::marker::PhantomData;
use yasna_base::models::{ObjectIdentifier, TaggedDerValue};
use yasna_base::{PCBit, Tag};
use yasna_notation::{
    Bound, Bounded, Explicit, Ia5String, Implicit, Notation, NumericString, PrintableString,
    TagName, VisibleString,
};

/// A default that is tested, and never made.
pub trait TestedDefault<N: Notation> {
    // The test for the default.
    ghost is: { N.Value → Bool };

    /// Whether a value is the default.
    fn is_default(value: &N::Value) -> bool
        ensures { result ≡ is value.now };

    // The values that pass are equal, and what equals one of them passes.
    ghost one: { IsOneValue N.means.same is };
}

impl<T: TagName, N: Notation, D: TestedDefault<N>> TestedDefault<Explicit<T, N>> for D {
    ghost is = { D.is };

    #[inline(always)]
    fn is_default(value: &N::Value) -> bool {
        D::is_default(value)
    }

    ghost one = { D.one };
}

impl<T: TagName, N: Notation, D: TestedDefault<N>> TestedDefault<Implicit<T, N>> for D {
    ghost is = { D.is };

    #[inline(always)]
    fn is_default(value: &N::Value) -> bool {
        D::is_default(value)
    }

    ghost one = { D.one };
}

impl<N: Notation, C: Bound<N>, D: TestedDefault<N>> TestedDefault<Bounded<N, C>> for D {
    ghost is = { D.is };

    #[inline(always)]
    fn is_default(value: &N::Value) -> bool {
        D::is_default(value)
    }

    ghost one = { D.one };
}

/// Whether a part that may be omitted is there, and is the default.
#[inline(always)]
pub fn is_some_default<N: Notation, D: TestedDefault<N>>(value: &Option<N::Value>) -> bool
    ensures { result ≡ some_passes D.is value.now }
{
    match value {
        Some(part) => D::is_default(part),
        None => false,
    }
}

/// An object identifier that a module names.
pub trait IdentifierValue {
    // Its components.
    ghost components: { List ℕ };

    /// Its components, the root first.
    fn components() -> &'static [u64]
        ensures { result.now ≡ components };
}

/// `DEFAULT K`, of an OBJECT IDENTIFIER.
pub struct Identifier<K> {
    named: PhantomData<K>,
}

impl<K: IdentifierValue> TestedDefault<ObjectIdentifier> for Identifier<K> {
    ghost is = { λ v. bytes_eq v K.components };

    #[inline(always)]
    fn is_default(value: &ObjectIdentifier) -> bool {
        value.components().as_slice() == K::components()
    }

    ghost one = { one_list K.components };
}

/// The octets of an OCTET STRING that a module names.
pub trait OctetsValue {
    // The octets.
    ghost octets: { List ℕ };

    /// The octets.
    fn octets() -> &'static [u8]
        ensures { result.now ≡ octets };
}

/// `DEFAULT K`, of an OCTET STRING.
pub struct Octets<K> {
    named: PhantomData<K>,
}

impl<K: OctetsValue> TestedDefault<Vec<u8>> for Octets<K> {
    ghost is = { λ v. bytes_eq v.items K.octets };

    #[inline(always)]
    fn is_default(value: &Vec<u8>) -> bool {
        value.as_slice() == K::octets()
    }

    ghost one = { one_seen octets_of (λ v w. (λ e. e, λ e. e)) (λ o. bytes_eq o K.octets) (one_list K.octets) };
}

/// A text that a module names.
pub trait TextValue {
    // The text in UTF-8.
    ghost text: { List ℕ };

    /// The text.
    fn text() -> &'static str
        ensures { result.now ≡ text };
}

/// `DEFAULT K`, of a character string.
pub struct Text<K> {
    named: PhantomData<K>,
}

// Whether a string has these characters.
fn has_text(value: &String, text: &str) -> bool
    ensures { result ≡ bytes_eq (characters value.now) (chars text.now) }
{
    value.as_str() == text
}

impl<K: TextValue> TestedDefault<String> for Text<K> {
    ghost is = { λ v. bytes_eq (characters v) (chars K.text) };

    #[inline(always)]
    fn is_default(value: &String) -> bool {
        has_text(value, K::text())
    }

    ghost one = { one_seen characters (λ v w. (λ e. e, λ e. e)) (λ c. bytes_eq c (chars K.text)) (one_list (chars K.text)) };
}

impl<K: TextValue> TestedDefault<PrintableString> for Text<K> {
    ghost is = { λ v. bytes_eq (characters v) (chars K.text) };

    #[inline(always)]
    fn is_default(value: &String) -> bool {
        has_text(value, K::text())
    }

    ghost one = { one_seen characters (λ v w. (λ e. e, λ e. e)) (λ c. bytes_eq c (chars K.text)) (one_list (chars K.text)) };
}

impl<K: TextValue> TestedDefault<Ia5String> for Text<K> {
    ghost is = { λ v. bytes_eq (characters v) (chars K.text) };

    #[inline(always)]
    fn is_default(value: &String) -> bool {
        has_text(value, K::text())
    }

    ghost one = { one_seen characters (λ v w. (λ e. e, λ e. e)) (λ c. bytes_eq c (chars K.text)) (one_list (chars K.text)) };
}

impl<K: TextValue> TestedDefault<NumericString> for Text<K> {
    ghost is = { λ v. bytes_eq (characters v) (chars K.text) };

    #[inline(always)]
    fn is_default(value: &String) -> bool {
        has_text(value, K::text())
    }

    ghost one = { one_seen characters (λ v w. (λ e. e, λ e. e)) (λ c. bytes_eq c (chars K.text)) (one_list (chars K.text)) };
}

impl<K: TextValue> TestedDefault<VisibleString> for Text<K> {
    ghost is = { λ v. bytes_eq (characters v) (chars K.text) };

    #[inline(always)]
    fn is_default(value: &String) -> bool {
        has_text(value, K::text())
    }

    ghost one = { one_seen characters (λ v w. (λ e. e, λ e. e)) (λ c. bytes_eq c (chars K.text)) (one_list (chars K.text)) };
}

/// An element of any type that a module names, as it is in DER.
pub trait ElementValue {
    // The element.
    ghost element: { RawValue };

    /// Its tag.
    fn tag() -> Tag
        ensures { result ≡ element.tag };

    /// Whether it is constructed.
    fn pcbit() -> PCBit
        ensures { result ≡ element.bit };

    /// Its contents.
    fn contents() -> &'static [u8]
        ensures { result.now ≡ element.payload };
}

/// `DEFAULT K`, of an element of any type. Others are compared with it as they came.
pub struct Element<K> {
    named: PhantomData<K>,
}

impl<K: ElementValue> TestedDefault<TaggedDerValue> for Element<K> {
    ghost is = { λ v. is_element K.element (raw_of v) };

    #[inline(always)]
    fn is_default(value: &TaggedDerValue) -> bool {
        value.tag() == K::tag() && value.pcbit() == K::pcbit() && value.value() == K::contents()
    }

    ghost one = { one_seen raw_of (λ v w. (λ e. e, λ e. e)) (is_element K.element) (one_element K.element) };
}
