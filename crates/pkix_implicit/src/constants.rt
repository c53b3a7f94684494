//! Named numbers, named bits and values of the modules. An object identifier is its arcs.

/// `id-ce`.
pub static ID_CE: [u64; 3] = [2, 5, 29];

/// `id-ce-authorityKeyIdentifier`.
pub static ID_CE_AUTHORITY_KEY_IDENTIFIER: [u64; 4] = [2, 5, 29, 35];

/// `id-ce-subjectKeyIdentifier`.
pub static ID_CE_SUBJECT_KEY_IDENTIFIER: [u64; 4] = [2, 5, 29, 14];

/// `id-ce-keyUsage`.
pub static ID_CE_KEY_USAGE: [u64; 4] = [2, 5, 29, 15];

/// `digitalSignature` of `KeyUsage`.
pub const KEY_USAGE_DIGITAL_SIGNATURE: usize = 0;

/// `nonRepudiation` of `KeyUsage`.
pub const KEY_USAGE_NON_REPUDIATION: usize = 1;

/// `keyEncipherment` of `KeyUsage`.
pub const KEY_USAGE_KEY_ENCIPHERMENT: usize = 2;

/// `dataEncipherment` of `KeyUsage`.
pub const KEY_USAGE_DATA_ENCIPHERMENT: usize = 3;

/// `keyAgreement` of `KeyUsage`.
pub const KEY_USAGE_KEY_AGREEMENT: usize = 4;

/// `keyCertSign` of `KeyUsage`.
pub const KEY_USAGE_KEY_CERT_SIGN: usize = 5;

/// `cRLSign` of `KeyUsage`.
pub const KEY_USAGE_CRL_SIGN: usize = 6;

/// `encipherOnly` of `KeyUsage`.
pub const KEY_USAGE_ENCIPHER_ONLY: usize = 7;

/// `decipherOnly` of `KeyUsage`.
pub const KEY_USAGE_DECIPHER_ONLY: usize = 8;

/// `id-ce-privateKeyUsagePeriod`.
pub static ID_CE_PRIVATE_KEY_USAGE_PERIOD: [u64; 4] = [2, 5, 29, 16];

/// `id-ce-certificatePolicies`.
pub static ID_CE_CERTIFICATE_POLICIES: [u64; 4] = [2, 5, 29, 32];

/// `anyPolicy`.
pub static ANY_POLICY: [u64; 5] = [2, 5, 29, 32, 0];

/// `id-ce-policyMappings`.
pub static ID_CE_POLICY_MAPPINGS: [u64; 4] = [2, 5, 29, 33];

/// `id-ce-subjectAltName`.
pub static ID_CE_SUBJECT_ALT_NAME: [u64; 4] = [2, 5, 29, 17];

/// `id-ce-issuerAltName`.
pub static ID_CE_ISSUER_ALT_NAME: [u64; 4] = [2, 5, 29, 18];

/// `id-ce-subjectDirectoryAttributes`.
pub static ID_CE_SUBJECT_DIRECTORY_ATTRIBUTES: [u64; 4] = [2, 5, 29, 9];

/// `id-ce-basicConstraints`.
pub static ID_CE_BASIC_CONSTRAINTS: [u64; 4] = [2, 5, 29, 19];

/// `id-ce-nameConstraints`.
pub static ID_CE_NAME_CONSTRAINTS: [u64; 4] = [2, 5, 29, 30];

/// `id-ce-policyConstraints`.
pub static ID_CE_POLICY_CONSTRAINTS: [u64; 4] = [2, 5, 29, 36];

/// `id-ce-cRLDistributionPoints`.
pub static ID_CE_C_RL_DISTRIBUTION_POINTS: [u64; 4] = [2, 5, 29, 31];

/// `unused` of `ReasonFlags`.
pub const REASON_FLAGS_UNUSED: usize = 0;

/// `keyCompromise` of `ReasonFlags`.
pub const REASON_FLAGS_KEY_COMPROMISE: usize = 1;

/// `cACompromise` of `ReasonFlags`.
pub const REASON_FLAGS_CA_COMPROMISE: usize = 2;

/// `affiliationChanged` of `ReasonFlags`.
pub const REASON_FLAGS_AFFILIATION_CHANGED: usize = 3;

/// `superseded` of `ReasonFlags`.
pub const REASON_FLAGS_SUPERSEDED: usize = 4;

/// `cessationOfOperation` of `ReasonFlags`.
pub const REASON_FLAGS_CESSATION_OF_OPERATION: usize = 5;

/// `certificateHold` of `ReasonFlags`.
pub const REASON_FLAGS_CERTIFICATE_HOLD: usize = 6;

/// `privilegeWithdrawn` of `ReasonFlags`.
pub const REASON_FLAGS_PRIVILEGE_WITHDRAWN: usize = 7;

/// `aACompromise` of `ReasonFlags`.
pub const REASON_FLAGS_AA_COMPROMISE: usize = 8;

/// `id-ce-extKeyUsage`.
pub static ID_CE_EXT_KEY_USAGE: [u64; 4] = [2, 5, 29, 37];

/// `anyExtendedKeyUsage`.
pub static ANY_EXTENDED_KEY_USAGE: [u64; 5] = [2, 5, 29, 37, 0];

/// `id-ce-inhibitAnyPolicy`.
pub static ID_CE_INHIBIT_ANY_POLICY: [u64; 4] = [2, 5, 29, 54];

/// `id-ce-freshestCRL`.
pub static ID_CE_FRESHEST_CRL: [u64; 4] = [2, 5, 29, 46];

/// `id-ce-cRLNumber`.
pub static ID_CE_C_RL_NUMBER: [u64; 4] = [2, 5, 29, 20];

/// `id-ce-issuingDistributionPoint`.
pub static ID_CE_ISSUING_DISTRIBUTION_POINT: [u64; 4] = [2, 5, 29, 28];

/// `id-ce-deltaCRLIndicator`.
pub static ID_CE_DELTA_CRL_INDICATOR: [u64; 4] = [2, 5, 29, 27];

/// `id-ce-cRLReasons`.
pub static ID_CE_C_RL_REASONS: [u64; 4] = [2, 5, 29, 21];

/// `id-ce-certificateIssuer`.
pub static ID_CE_CERTIFICATE_ISSUER: [u64; 4] = [2, 5, 29, 29];

/// `id-ce-holdInstructionCode`.
pub static ID_CE_HOLD_INSTRUCTION_CODE: [u64; 4] = [2, 5, 29, 23];

/// `id-ce-invalidityDate`.
pub static ID_CE_INVALIDITY_DATE: [u64; 4] = [2, 5, 29, 24];
