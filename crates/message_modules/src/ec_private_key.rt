//! The lines of `modules/ECPrivateKey.asn1`. `ci/embed_modules.py` writes this file.

/// The lines.
pub static EC_PRIVATE_KEY_LINES: [&str; 16] = [
    "ECPrivateKey { iso(1) identified-organization(3) dod(6) internet(1) security(5) mechanisms(5) pkix(7) id-mod(0) id-mod-ecprivateKey(65) }",
    "",
    "DEFINITIONS EXPLICIT TAGS ::=",
    "",
    "BEGIN",
    "",
    "ECPrivateKey ::= SEQUENCE {",
    "    version     INTEGER { ecPrivkeyVer1(1) } (ecPrivkeyVer1),",
    "    privateKey  OCTET STRING,",
    "    parameters  [0] ECParameters OPTIONAL,",
    "    publicKey   [1] BIT STRING OPTIONAL }",
    "",
    "ECParameters ::= CHOICE {",
    "    namedCurve  OBJECT IDENTIFIER }",
    "",
    "END",
];
