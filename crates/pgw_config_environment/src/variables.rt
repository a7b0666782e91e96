//! Variables that libpq reads.
ghost use Rattle.std.specs.Prelude.{◌≡◌, ◌++◌, chars, string_bytes, IfOk, OnOk};
ghost use Rattle.std.specs.List.{flat_map};
ghost use Rattle.pgw_config_environment.specs.Variables.{demands_text, variable_text, place_text, quoted_character, variables_text as text_for, user_text};

use pgw_types::memory::OutOfMemory;
use pgw_types::text::Text;
use std::alloc::Global;

/// What variables hold: PGHOST, PGHOSTADDR, PGPORT, PGUSER, PGDATABASE, PGPASSWORD, PGAPPNAME, PGSSLMODE,
/// PGCHANNELBINDING, PGCONNECT_TIMEOUT and PGTARGETSESSIONATTRS.
#[derive(Drop)]
pub struct Variables {
    pub host: Option<Text>,
    pub hostaddr: Option<Text>,
    pub port: Option<Text>,
    pub user: Option<Text>,
    pub database: Option<Text>,
    pub password: Option<Text>,
    pub application_name: Option<Text>,
    pub sslmode: Option<Text>,
    pub channel_binding: Option<Text>,
    pub connect_timeout: Option<Text>,
    pub target_session_attrs: Option<Text>,
}

#[tactic(auto, unfolding(crate::specs::Variables::quoted_character))]
fn put_character(out: &mut String, c: char) -> Result<(), OutOfMemory>
    ensures { OnOk result (string_bytes out.new ≡ string_bytes out.old ++ quoted_character c) }
{
    if c == '\'' || c == '\\' {
        out.push_str("\\")?;
    }
    out.push(c)?;
    Ok(())
}

fn put_quoted(out: &mut String, text: &str) -> Result<(), OutOfMemory>
    ensures { OnOk result (string_bytes out.new
        ≡ string_bytes out.old ++ flat_map quoted_character (chars text.now)) }
{
    for c in text.chars() {
        put_character(out, c)?;
    }
    Ok(())
}

// A key and its value, where a variable has one that is not empty.
#[tactic(auto, unfolding(crate::specs::Variables::variable_text))]
fn put_pair(out: &mut String, key: &str, value: &Option<Text>) -> Result<(), OutOfMemory>
    ensures { OnOk result (string_bytes out.new
        ≡ string_bytes out.old ++ variable_text key.now value.now) }
{
    match value {
        Some(text) if !text.is_empty() => {
            out.push_str(key)?;
            out.push_str("='")?;
            put_quoted(out, text.as_str())?;
            out.push_str("' ")?;
            Ok(())
        }
        _ => Ok(()),
    }
}

impl Variables {
    // Where to connect to.
    fn put_place(&self, out: &mut String) -> Result<(), OutOfMemory>
        ensures { OnOk result (string_bytes out.new ≡ string_bytes out.old ++ place_text self.now) }
    {
        put_pair(out, "host", &self.host)?;
        put_pair(out, "hostaddr", &self.hostaddr)?;
        put_pair(out, "port", &self.port)
    }

    // Who connects.
    fn put_user(&self, out: &mut String) -> Result<(), OutOfMemory>
        ensures { OnOk result (string_bytes out.new ≡ string_bytes out.old ++ user_text self.now) }
    {
        put_pair(out, "user", &self.user)?;
        put_pair(out, "dbname", &self.database)?;
        put_pair(out, "password", &self.password)?;
        put_pair(out, "application_name", &self.application_name)
    }

    // What is demanded of the connection.
    fn put_demands(&self, out: &mut String) -> Result<(), OutOfMemory>
        ensures { OnOk result (string_bytes out.new
            ≡ string_bytes out.old ++ demands_text self.now) }
    {
        put_pair(out, "sslmode", &self.sslmode)?;
        put_pair(out, "channel_binding", &self.channel_binding)?;
        put_pair(out, "connect_timeout", &self.connect_timeout)?;
        put_pair(out, "target_session_attrs", &self.target_session_attrs)
    }

    /// The connection text that says the same.
    pub fn text(&self, alloc: Global) -> Result<Text, OutOfMemory>
        ensures { IfOk result (λ text. text ≡ text_for self.now) }
    {
        let mut out = String::new(alloc);
        self.put_place(&mut out)?;
        self.put_user(&mut out)?;
        self.put_demands(&mut out)?;
        Ok(Text::from_string(out))
    }
}
