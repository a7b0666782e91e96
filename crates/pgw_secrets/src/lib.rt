//! What a server keeps of a password in place of it (`StoredSecret`, as PostgreSQL keeps it), the server's end of
//! SCRAM-SHA-256 over it, and files of passwords for a client.
//!
//! To a server it promises the text of a secret in one reading, which proofs a secret takes, and that its logins are those
//! of the password that made it; to a client, the password of the first entry that matches.
#![tactic(auto)]

pub mod equality;
mod keys;
pub mod laws;
pub mod password_file;
mod password_line;
pub mod secret;
pub mod server;
mod text;

pub use crate::password_file::{Entry, Field, PasswordFile, is_open_to_others};
pub use crate::secret::{SecretFault, StoredSecret};
pub use crate::server::{StoredScramAuth, StoredScramWaiting};
