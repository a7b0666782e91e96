//! Files of passwords, as libpq reads them.
ghost use Rattle.std.specs.Prelude.{◌≡◌, ◌%◌, IfOk, nat_lt};
ghost use Rattle.std.specs.Option.{option_copied};
ghost use Rattle.pgw_secrets.specs.PasswordFile.{IsFile};
ghost use Rattle.pgw_secrets.specs.Lookup.{matches, answers_for, IsFound};
ghost use Rattle.pgw_secrets.specs.PasswordShown.{answers_asked};

use crate::password_line::read_lines;
use itoa::Buffer;
use pgw_types::listed::Listed;
use pgw_types::memory::OutOfMemory;
use pgw_types::octets::Octets;
use std::alloc::Global;
use std::marker::Model;

/// A field of an entry.
#[derive(Drop)]
pub enum Field {
    /// It matches everything.
    Any,
    /// It matches its equal.
    Is(Octets),
}

impl Field {
    fn matches(&self, text: &[u8]) -> bool
        ensures { result ≡ matches self.now text.now }
    {
        match self {
            Field::Any => true,
            Field::Is(value) => value.as_slice() == text,
        }
    }
}

/// A line of a file that has a password. It shows none by `Debug`, which it has not.
#[derive(Drop)]
pub struct Entry {
    pub host: Field,
    pub port: Field,
    pub database: Field,
    pub user: Field,
    pub password: Octets,
}

// What is asked for.
#[derive(Clone, Copy, Drop)]
struct Asked<'a> {
    host: &'a [u8],
    port: &'a [u8],
    database: &'a [u8],
    user: &'a [u8],
}

impl Entry {
    fn answers(&self, asked: &Asked<'_>) -> bool
        ensures { result ≡ answers_asked asked.now self.now }
    {
        self.host.matches(asked.host)
            && self.port.matches(asked.port)
            && self.database.matches(asked.database)
            && self.user.matches(asked.user)
    }
}

/// A file of passwords, which a contract sees as its entries.
#[derive(Drop)]
pub struct PasswordFile {
    entries: Listed<Entry>,
}

impl Model for PasswordFile {
    ghost use Rattle.std.specs.Prelude.{List};
    ghost use Rattle.pgw_secrets.specs.declared.password_file.Entry.{Entry};

    ghost Value = { List Entry };

    ghost view = { λ f. f.entries };
}

impl PasswordFile {
    /// The entries of a file. A line that begins with `#`, or has fewer than four colons that no backslash escapes, is
    /// passed over.
    pub fn read(alloc: Global, bytes: &[u8]) -> Result<PasswordFile, OutOfMemory>
        ensures { IfOk result (IsFile bytes.now) }
    {
        let entries = read_lines(alloc, bytes)?;
        Ok(PasswordFile { entries })
    }

    /// The password of the first entry that matches. It takes no memory.
    pub fn lookup(&self, host: &str, port: u16, database: &str, user: &str) -> Option<&Octets>
        ensures { IsFound (answers_for host.now port database.now user.now) self.now
            (option_copied result) }
    {
        let mut digits = Buffer::new();
        let asked = Asked {
            host: host.as_bytes(),
            port: digits.format(port).as_bytes(),
            database: database.as_bytes(),
            user: user.as_bytes(),
        };
        first_of(self.entries.as_slice(), &asked)
    }
}

fn first_of<'a>(entries: &'a [Entry], asked: &Asked<'_>) -> Option<&'a Octets>
    ensures { IsFound (answers_asked asked.now) entries.now (option_copied result) }
{
    for entry in entries {
        if entry.answers(asked) {
            return Some(&entry.password);
        }
    }
    None
}

/// Whether others than its owner may read or write a file of this mode, by the mode's lowest six bits. Who reads a file of
/// passwords passes over one that they may.
pub fn is_open_to_others(mode: u32) -> bool
    ensures { result ≡ nat_lt 0 (mode % 64) }
{
    mode % 64 > 0
}
