//! The encoding rules.

/// The encoding rules of X.690: BER, DER or CER.
#[derive(Clone, Copy, PartialEq, Eq, PartialOrd, Ord, Hash, Debug)]
pub enum BERMode {
    /// The basic encoding rules (X.690, clause 8).
    Ber,
    /// The distinguished encoding rules (X.690, clauses 8, 10 and 11): one encoding a value.
    Der,
    /// The canonical encoding rules (X.690, clauses 8, 9 and 11): one encoding a value, of constructed elements of indefinite length,
    /// and long strings in segments of 1000 octets.
    Cer,
}
