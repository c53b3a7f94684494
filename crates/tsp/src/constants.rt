//! Named numbers, named bits and values of the modules. An object identifier is its arcs.

/// `granted` of `PKIStatus`.
pub const PKI_STATUS_GRANTED: i64 = 0;

/// `grantedWithMods` of `PKIStatus`.
pub const PKI_STATUS_GRANTED_WITH_MODS: i64 = 1;

/// `rejection` of `PKIStatus`.
pub const PKI_STATUS_REJECTION: i64 = 2;

/// `waiting` of `PKIStatus`.
pub const PKI_STATUS_WAITING: i64 = 3;

/// `revocationWarning` of `PKIStatus`.
pub const PKI_STATUS_REVOCATION_WARNING: i64 = 4;

/// `revocationNotification` of `PKIStatus`.
pub const PKI_STATUS_REVOCATION_NOTIFICATION: i64 = 5;

/// `badAlg` of `PKIFailureInfo`.
pub const PKI_FAILURE_INFO_BAD_ALG: usize = 0;

/// `badRequest` of `PKIFailureInfo`.
pub const PKI_FAILURE_INFO_BAD_REQUEST: usize = 2;

/// `badDataFormat` of `PKIFailureInfo`.
pub const PKI_FAILURE_INFO_BAD_DATA_FORMAT: usize = 5;

/// `timeNotAvailable` of `PKIFailureInfo`.
pub const PKI_FAILURE_INFO_TIME_NOT_AVAILABLE: usize = 14;

/// `unacceptedPolicy` of `PKIFailureInfo`.
pub const PKI_FAILURE_INFO_UNACCEPTED_POLICY: usize = 15;

/// `unacceptedExtension` of `PKIFailureInfo`.
pub const PKI_FAILURE_INFO_UNACCEPTED_EXTENSION: usize = 16;

/// `addInfoNotAvailable` of `PKIFailureInfo`.
pub const PKI_FAILURE_INFO_ADD_INFO_NOT_AVAILABLE: usize = 17;

/// `systemFailure` of `PKIFailureInfo`.
pub const PKI_FAILURE_INFO_SYSTEM_FAILURE: usize = 25;
