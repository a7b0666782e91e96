//! The hashes of a login: HMAC, the salted password, the preparation of texts and the MD5 password.
//!
//! To the logins above it promises the formulas of RFC 2104, RFC 8018 and PostgreSQL's documentation, over the digests
//! of the kit.
#![tactic(auto)]

pub mod hmac;
pub mod laws;
pub mod md5_password;
pub mod pbkdf2;
pub mod saslprep;
pub mod xor;

pub use crate::hmac::{Hmac, hmac_sha256};
pub use crate::md5_password::hash_md5_password;
pub use crate::pbkdf2::{gen_salted_password, hi};
pub use crate::xor::xor_into;
