//! Permitted alphabets (X.680, 51.7): `FROM ("a".."z" | "0".."9")` of a character string.
ghost use Rattle.std.specs.Prelude.{◌≡◌, ◌||◌, ℕ, List, Bool, false};
ghost use Rattle.std.specs.List.{list_all};
ghost use Rattle.std.specs.Str.{chars};
ghost use Rattle.yasna_base.specs.Text.{characters};
ghost use Rattle.yasna_notation.specs.Bounded.{from_to, passes_alike};

use std::marker::PhantomData;
use yasna_notation::{
    Bound, Bounded, Explicit, Ia5String, Implicit, Notation, NumericString, PrintableString,
    TagName, VisibleString,
};

/// A notation whose values are texts.
pub trait HasCharacters: Notation {
    // The characters of a value.
    ghost characters: { Self.Value → List ℕ };

    /// The text of a value.
    fn text(value: &Self::Value) -> &str
        ensures { chars result.now ≡ characters value.now };

    // Equal values have the same characters.
    ghost spelled: { (v w : Self.Value) → Self.means.same v w → characters v ≡ characters w };
}

/// Characters, as pairs of ranges that end in `()`: `(CharacterRange<97, 122>, (CharacterRange<48, 57>, ()))`.
pub trait Alphabet {
    // The characters, by their code points.
    ghost has: { ℕ → Bool };

    /// Whether a character is one of them.
    fn has(character: char) -> bool
        ensures { result ≡ has character };
}

impl Alphabet for () {
    ghost has = { λ c. false };

    #[inline(always)]
    fn has(_character: char) -> bool {
        false
    }
}

/// The characters from one to another, with both, by their code points.
pub struct CharacterRange<const FIRST: u32, const LAST: u32>;

impl<W: Alphabet, const FIRST: u32, const LAST: u32> Alphabet for (CharacterRange<FIRST, LAST>, W) {
    ghost has = { λ c. (from_to FIRST LAST c || W.has c) };

    #[inline(always)]
    fn has(character: char) -> bool {
        let code = u32::from(character);
        (code >= FIRST && code <= LAST) || W::has(character)
    }
}

/// `FROM (A)`: texts of these characters only.
pub struct FromCharacters<A> {
    alphabet: PhantomData<A>,
}

impl<N: HasCharacters, A: Alphabet> Bound<N> for FromCharacters<A> {
    ghost passes = { λ v. list_all A.has (N.characters v) };

    #[inline(always)]
    fn lets(value: &N::Value) -> bool {
        has_each::<A>(N::text(value))
    }

    ghost alike = { λ v w e. passes_alike (list_all A.has) (N.spelled v w e) };
}

// Whether an alphabet has each character of a text.
fn has_each<A: Alphabet>(text: &str) -> bool
    ensures { result ≡ list_all A.has (chars text.now) }
{
    text.chars().all(|character| A::has(character))
}

impl HasCharacters for String {
    ghost characters = { characters };

    #[inline(always)]
    fn text(value: &String) -> &str {
        value.as_str()
    }

    ghost spelled = { λ v w e. e };
}

impl HasCharacters for PrintableString {
    ghost characters = { characters };

    #[inline(always)]
    fn text(value: &String) -> &str {
        value.as_str()
    }

    ghost spelled = { λ v w e. e };
}

impl HasCharacters for Ia5String {
    ghost characters = { characters };

    #[inline(always)]
    fn text(value: &String) -> &str {
        value.as_str()
    }

    ghost spelled = { λ v w e. e };
}

impl HasCharacters for NumericString {
    ghost characters = { characters };

    #[inline(always)]
    fn text(value: &String) -> &str {
        value.as_str()
    }

    ghost spelled = { λ v w e. e };
}

impl HasCharacters for VisibleString {
    ghost characters = { characters };

    #[inline(always)]
    fn text(value: &String) -> &str {
        value.as_str()
    }

    ghost spelled = { λ v w e. e };
}

/// A type within another bound has the texts of its values.
impl<N: HasCharacters, C: Bound<N>> HasCharacters for Bounded<N, C> {
    ghost characters = { N.characters };

    #[inline(always)]
    fn text(value: &N::Value) -> &str {
        N::text(value)
    }

    ghost spelled = { N.spelled };
}

/// A type under a tag of its own has the texts of its values.
impl<T: TagName, N: HasCharacters> HasCharacters for Explicit<T, N> {
    ghost characters = { N.characters };

    #[inline(always)]
    fn text(value: &N::Value) -> &str {
        N::text(value)
    }

    ghost spelled = { N.spelled };
}

/// A type under a tag in place of its own has the texts of its values.
impl<T: TagName, N: HasCharacters> HasCharacters for Implicit<T, N> {
    ghost characters = { N.characters };

    #[inline(always)]
    fn text(value: &N::Value) -> &str {
        N::text(value)
    }

    ghost spelled = { N.spelled };
}
