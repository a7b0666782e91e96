//! Passwords from a file.
ghost use Rattle.std.specs.Prelude.{◌≡◌, IfOk, IfErr, OnOk, codes};
ghost use Rattle.std.specs.Option.{option_copied};
ghost use Rattle.pgw_prog.specs.Held.{Says};
ghost use Rattle.pgw_prog.specs.Passfile.{password_line, AnswersFile, AnswersPassfile};
ghost use Rattle.pgw_prog.specs.Program.{CountsStop};
ghost use Rattle.pgw_prog.specs.Transfer.{source_span, TookFront};

use crate::printed::Printed;
use crate::program::Stop;
use crate::told::told;
use crate::transfer::{ReadFault, read_whole};
use pgw_link::stream::Source;
use pgw_prog_sessions::pieces::{put, put_hex};
use pgw_secrets::password_file::PasswordFile;
use pgw_types::memory::OutOfMemory;
use pgw_types::octets::Octets;
use pgw_types::text::Text;
use std::alloc::Global;

const TOO_LONG: &str = "a file of passwords has at most 16777216 bytes\n";

/// Whose password is asked for, and where.
#[derive(Drop)]
pub struct Asked {
    pub host: Text,
    pub port: u16,
    pub database: Text,
    pub user: Text,
}

// The line of a password, or that there is none.
#[tactic(auto, unfolding(crate::specs::Passfile::password_line))]
fn says_password(alloc: Global, password: Option<&Octets>) -> Result<Printed, OutOfMemory>
    ensures { IfOk result (λ p. Says p (password_line (option_copied password.entry)) 0) }
{
    let mut text = Vec::new(alloc);
    match password {
        Some(password) => {
            put(&mut text, b"password ")?;
            put_hex(&mut text, password.as_slice())?;
            put(&mut text, b"\n")?;
        }
        None => put(&mut text, b"none\n")?,
    }
    Ok(Printed {
        text,
        status: 0,
        told: String::new(alloc),
    })
}

// That a file is too long.
fn says_too_long(alloc: Global) -> Result<Printed, OutOfMemory>
    ensures { IfOk result (λ p. Says p (codes "file too long\n") 2) }
{
    let mut text = Vec::new(alloc);
    put(&mut text, b"file too long\n")?;
    Ok(Printed {
        text,
        status: 2,
        told: told(alloc, TOO_LONG),
    })
}

// What a file answers.
fn answer_file(alloc: Global, bytes: &[u8], asked: &Asked) -> Result<Printed, OutOfMemory>
    ensures { IfOk result (AnswersFile asked.now bytes.now) }
{
    let file = PasswordFile::read(alloc, bytes)?;
    let found = file.lookup(
        asked.host.as_str(),
        asked.port,
        asked.database.as_str(),
        asked.user.as_str(),
    );
    says_password(alloc, found)
}

/// Reads a file of passwords to its end, and prints the password that it has for what is asked, or none.
pub fn answer_passfile<I: Source>(
    alloc: Global,
    asked: &Asked,
    input: &mut I,
) -> Result<Printed, Stop>
    ensures no_fault { OnOk result (I.faults input.new ≡ I.faults input.old) }
    ensures cause { IfErr result (λ e. CountsStop e
        (source_span I.tape I.left I.faults input.old input.new)) }
    ensures took { TookFront (source_span I.tape I.left I.faults input.old input.new) }
    ensures answers { IfOk result (AnswersPassfile asked.now
        (source_span I.tape I.left I.faults input.old input.new)) }
{
    match read_whole(alloc, input) {
        Ok(bytes) => Ok(answer_file(alloc, &bytes, asked)?),
        Err(ReadFault::TooLong) => Ok(says_too_long(alloc)?),
        Err(ReadFault::Source) => Err(Stop::Source),
        Err(ReadFault::OutOfMemory) => Err(Stop::OutOfMemory),
    }
}
