//! `CRLReason` of the module PKIX1Implicit88.
//!
//! ```text
//! CRLReason ::= ENUMERATED {
//!     unspecified           (0),
//!     keyCompromise         (1),
//!     cACompromise          (2),
//!     affiliationChanged    (3),
//!     superseded            (4),
//!     cessationOfOperation  (5),
//!     certificateHold       (6),
//!     removeFromCRL         (8),
//!     privilegeWithdrawn    (9),
//!     aACompromise          (10) }
//! ```
ghost use Rattle.std.specs.Ordering.{on, int_eq};
ghost use Rattle.std.specs.Cmp.{partial_equiv_from_equiv};
ghost use Rattle.std.proofs.lemmas.Cmp.{on_equiv, int_eq_equiv};
ghost use Rattle.pkix_implicit.specs.CrlReason.{crl_reason_number, crl_reason_named, crl_reason_allowed, crl_reason_writable};

use yasna_notation_types::Numbered;

/// `CRLReason`.
#[derive(Clone, Copy)]
pub enum CrlReason {
    Unspecified,
    KeyCompromise,
    CaCompromise,
    AffiliationChanged,
    Superseded,
    CessationOfOperation,
    CertificateHold,
    RemoveFromCrl,
    PrivilegeWithdrawn,
    AaCompromise,
}

impl Numbered for CrlReason {
    ghost number_of = { crl_reason_number };

    ghost named = { crl_reason_named };

    ghost allowed = { crl_reason_allowed };

    fn number(&self) -> i64 {
        match self {
            CrlReason::Unspecified => 0,
            CrlReason::KeyCompromise => 1,
            CrlReason::CaCompromise => 2,
            CrlReason::AffiliationChanged => 3,
            CrlReason::Superseded => 4,
            CrlReason::CessationOfOperation => 5,
            CrlReason::CertificateHold => 6,
            CrlReason::RemoveFromCrl => 8,
            CrlReason::PrivilegeWithdrawn => 9,
            CrlReason::AaCompromise => 10,
        }
    }

    fn from_number(number: i64) -> Option<CrlReason> {
        match number {
            0 => Some(CrlReason::Unspecified),
            1 => Some(CrlReason::KeyCompromise),
            2 => Some(CrlReason::CaCompromise),
            3 => Some(CrlReason::AffiliationChanged),
            4 => Some(CrlReason::Superseded),
            5 => Some(CrlReason::CessationOfOperation),
            6 => Some(CrlReason::CertificateHold),
            8 => Some(CrlReason::RemoveFromCrl),
            9 => Some(CrlReason::PrivilegeWithdrawn),
            10 => Some(CrlReason::AaCompromise),
            _ => None,
        }
    }

    ghost writable = { crl_reason_writable };
}

impl PartialEq for CrlReason {
    ghost eq = { on crl_reason_number int_eq };

    ghost laws = { partial_equiv_from_equiv (on_equiv crl_reason_number int_eq_equiv) };

    fn eq(&self, other: &CrlReason) -> bool {
        self.number() == other.number()
    }
}

impl Eq for CrlReason {
    ghost laws = { on_equiv crl_reason_number int_eq_equiv };
}
