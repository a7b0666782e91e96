//! The stored secret of a password.
ghost use Rattle.std.specs.Prelude.{◌≤◌, ◌++◌, IfOk};
ghost use Rattle.pgw_prog.specs.Held.{Says};
ghost use Rattle.pgw_prog_sessions.specs.Pieces.{line_end};
ghost use Rattle.pgw_prog.specs.Secret.{SaysSecret};

use crate::printed::Printed;
use pgw_prog_sessions::pieces::put;
use pgw_secrets::secret::StoredSecret;
use pgw_types::memory::OutOfMemory;
use std::alloc::Global;

// How many of the bytes that were drawn are the salt.
const SALT_LEN: usize = 16;

// A line to be printed.
fn says_line(alloc: Global, line: &str) -> Result<Printed, OutOfMemory>
    ensures { IfOk result (λ p. Says p (line.now ++ line_end) 0) }
{
    let mut text = Vec::new(alloc);
    put(&mut text, line.as_bytes())?;
    put(&mut text, b"\n")?;
    Ok(Printed {
        text,
        status: 0,
        told: String::new(alloc),
    })
}

/// Prints the stored secret of a password, with the salt that was drawn and so many rounds.
pub fn make_secret(
    alloc: Global,
    password: &str,
    count: u32,
    words32: &[u8; 32],
) -> Result<Printed, OutOfMemory>
    requires { 1 ≤ count }
    ensures { IfOk result (SaysSecret password.now count words32.now) }
{
    let secret = StoredSecret::make(alloc, password, &words32[..SALT_LEN], count)?;
    let text = secret.to_text(alloc)?;
    drop(secret);
    says_line(alloc, text.as_str())
}
