//! What a server keeps of a password.
ghost use Rattle.std.specs.Prelude.{◌≡◌};
ghost use Rattle.std.specs.Option.{option_copied};

use pgw_types::listed::Duplicate;
use pgw_types::memory::OutOfMemory;
use pgw_types::octets::Octets;

/// What a server keeps of a password. For SCRAM that is the SaltedPassword of RFC 5802, section 3, with
/// its salt.
#[derive(Drop)]
pub struct Password {
    salt: Option<Octets>,
    password: Octets,
}

impl Password {
    pub fn new(salt: Option<Octets>, password: Octets) -> Password
        ensures { result ≡ record { salt = salt; password = password } }
    {
        Password { salt, password }
    }

    pub fn salt(&self) -> Option<&[u8]>
        ensures { option_copied result ≡ self.now.salt }
    {
        self.salt.as_ref().map(|salt| salt.as_slice())
    }

    pub fn password(&self) -> &[u8]
        ensures { result.now ≡ self.now.password }
    {
        self.password.as_slice()
    }
}

impl Duplicate for Password {
    fn duplicate(&self) -> Result<Password, OutOfMemory> {
        Ok(Password {
            salt: self.salt.duplicate()?,
            password: self.password.duplicate()?,
        })
    }
}
