//! Where passwords and stored secrets come from, and for whom they are asked.
ghost use Rattle.std.specs.Prelude.{◌≡◌, ◌≤◌, IfOk};
ghost use Rattle.std.specs.Prelude.{Result};
ghost use Rattle.std.specs.Option.{option_copied};
ghost use Rattle.pgw_scram.specs.declared.password.Password.{Password as Kept};
ghost use Rattle.pgw_secrets.specs.declared.secret.StoredSecret.{StoredSecret as Secret};
ghost use Rattle.pgw_types.specs.declared.error.PgWireError.{PgWireError as Refusal};
ghost use Rattle.pgw_login.specs.Login.{Login, login_seen};

use crate::client_info::{ClientInfo, METADATA_DATABASE, METADATA_USER};
use pgw_scram::password::Password;
use pgw_secrets::secret::StoredSecret;
use pgw_types::error::PgWireResult;
use std::alloc::Global;

/// Who logs in, and from where.
#[derive(Clone, Copy, Debug, Drop)]
pub struct LoginInfo<'a> {
    user: Option<&'a str>,
    database: Option<&'a str>,
    host: &'a str,
}

impl<'a> LoginInfo<'a> {
    ghost use Rattle.pgw_login.specs.Logins.{login_of};

    pub fn new(user: Option<&'a str>, database: Option<&'a str>, host: &'a str) -> LoginInfo<'a>
        ensures { login_of result ≡ record {
          user = option_copied user.entry;
          database = option_copied database.entry;
          host = host.now;
        } }
    {
        LoginInfo {
            user,
            database,
            host,
        }
    }

    /// Who logs in by what the client told of itself.
    pub fn from_client_info<C: ClientInfo>(client: &'a C) -> LoginInfo<'a>
        ensures { login_of result ≡ login_seen (C.sight client.now) }
    {
        let metadata = client.metadata();
        let user = metadata.get(METADATA_USER).map(|text| text.as_str());
        let database = metadata.get(METADATA_DATABASE).map(|text| text.as_str());
        LoginInfo::new(user, database, client.host().as_str())
    }

    pub fn user(&self) -> Option<&str>
        ensures { option_copied result ≡ (login_of self.now).user }
    {
        self.user
    }

    pub fn database(&self) -> Option<&str>
        ensures { option_copied result ≡ (login_of self.now).database }
    {
        self.database
    }

    pub fn host(&self) -> &str
        ensures { result.now ≡ (login_of self.now).host }
    {
        self.host
    }
}

/// Where passwords come from.
pub trait AuthSource {
    ghost use Rattle.pgw_login.specs.Logins.{login_of};

    /// What may be answered for a login: a password, or why there is none.
    ghost answers: { Self → Login → Result Kept Refusal → Type 0 };

    /// What is kept of the password of a login. A handler for cleartext passwords takes it for the
    /// password itself, one for MD5 for the text that the client is to send, one for SCRAM for the
    /// salted password.
    fn get_password(&self, alloc: Global, login: &LoginInfo<'_>) -> PgWireResult<Password>
        ensures { answers self.now (login_of login.now) result };
}

/// Where stored secrets come from, as PostgreSQL's `pg_authid` has them. Who keeps them needs no password.
pub trait SecretSource {
    ghost use Rattle.pgw_login.specs.Logins.{login_of};

    /// What may be answered for a login: a stored secret, or why there is none.
    ghost secrets: { Self → Login → Result Secret Refusal → Type 0 };

    /// What is kept of the password of a login by SCRAM-SHA-256. Its count is 1 or more, as that of each secret which is
    /// made or read.
    fn get_secret(&self, alloc: Global, login: &LoginInfo<'_>) -> PgWireResult<StoredSecret>
        ensures answers { secrets self.now (login_of login.now) result }
        ensures counted { IfOk result (λ secret. 1 ≤ secret.count) };
}
