//! Tests of messages: what other programs made comes back as the same bytes.
//!
//! | Module | Holds |
//! |---|---|
//! | `certificates` | certificates and revocation lists of `x509` |
//! | `changed` | messages that were changed after they were read |
//! | `changed_ldap` | messages of `ldap` that were changed after they were read |
//! | `checks` | no test: it holds what is checked of every type |
//! | `extensions` | contents of extensions, of `pkix_implicit` |
//! | `keys` | private keys, and signed and enveloped contents, of `pkcs8` and `cms` |
//! | `kinds` | no test: it holds what a row is, and by what its kind is checked |
//! | `ldap_in_cer` | messages of `ldap` in CER |
//! | `ldap_messages` | messages of `ldap` |
//! | `messages` | types of `x509` and `snmp`, which are made of types |
//! | `named_bits` | the named bits of `x509` |
//! | `ocsp_messages` | requests and responses of `ocsp` |
//! | `parts` | a SEQUENCE of parts that are pairs |
//! | `prepended` | bit strings, numbers and a type without bodies of its own, prepended to a buffer |
//! | `rewritten` | no test: it holds the piece of code of docs/NOTATION.md that reads and writes a message as a whole |
//! | `rsa_and_ec_keys` | keys of `rsa_keys` and `ec_keys`, and requests of `pkcs10` |
//! | `snmp_messages` | messages of `snmp` |
//! | `texts` | a type of texts, made for these tests |
//! | `time_stamps` | requests and responses of `tsp` |
#![tactic(auto)]

#[cfg(test)]
mod certificates;
#[cfg(test)]
mod changed;
#[cfg(test)]
mod changed_ldap;
#[cfg(test)]
mod checks;
#[cfg(test)]
mod extensions;
#[cfg(test)]
mod keys;
#[cfg(test)]
mod kinds;
#[cfg(test)]
mod ldap_in_cer;
#[cfg(test)]
mod ldap_messages;
#[cfg(test)]
mod messages;
#[cfg(test)]
mod named_bits;
#[cfg(test)]
mod ocsp_messages;
#[cfg(test)]
mod parts;
#[cfg(test)]
mod prepended;
#[cfg(test)]
mod rewritten;
#[cfg(test)]
mod rsa_and_ec_keys;
#[cfg(test)]
mod snmp_messages;
#[cfg(test)]
mod texts;
#[cfg(test)]
mod time_stamps;
