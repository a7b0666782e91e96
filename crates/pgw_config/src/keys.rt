//! The keys of a connection text.
ghost use Rattle.std.specs.Prelude.{◌≡◌, Some, None};
ghost use Rattle.pgw_config.specs.Keys.{text_key, choice_key, list_key, number_key, setting_key};

/// A key whose value is any text.
#[derive(Clone, Copy)]
pub enum TextKey {
    User,
    Password,
    Dbname,
    Options,
    ApplicationName,
}

/// A key whose value is one of a few words.
#[derive(Clone, Copy)]
pub enum ChoiceKey {
    SslMode,
    SslNegotiation,
    TargetSessionAttrs,
    ChannelBinding,
    LoadBalanceHosts,
}

/// A key whose value is a list with commas.
#[derive(Clone, Copy)]
pub enum ListKey {
    Host,
    HostAddr,
    Port,
}

/// A key whose value is a whole number.
#[derive(Clone, Copy)]
pub enum NumberKey {
    ConnectTimeout,
    TcpUserTimeout,
    Keepalives,
    KeepalivesIdle,
    KeepalivesInterval,
    KeepalivesRetries,
}

/// A key of a connection text.
#[derive(Clone, Copy)]
pub enum Key {
    Text(TextKey),
    Choice(ChoiceKey),
    List(ListKey),
    Number(NumberKey),
}

#[tactic(auto, unfolding(crate::specs::Keys::text_key))]
fn text_key_named(name: &str) -> Option<TextKey>
    ensures { result ≡ text_key name.now }
{
    if name == "user" {
        Some(TextKey::User)
    } else if name == "password" {
        Some(TextKey::Password)
    } else if name == "dbname" {
        Some(TextKey::Dbname)
    } else if name == "options" {
        Some(TextKey::Options)
    } else if name == "application_name" {
        Some(TextKey::ApplicationName)
    } else {
        None
    }
}

#[tactic(auto, unfolding(crate::specs::Keys::choice_key))]
fn choice_key_named(name: &str) -> Option<ChoiceKey>
    ensures { result ≡ choice_key name.now }
{
    if name == "sslmode" {
        Some(ChoiceKey::SslMode)
    } else if name == "sslnegotiation" {
        Some(ChoiceKey::SslNegotiation)
    } else if name == "target_session_attrs" {
        Some(ChoiceKey::TargetSessionAttrs)
    } else if name == "channel_binding" {
        Some(ChoiceKey::ChannelBinding)
    } else if name == "load_balance_hosts" {
        Some(ChoiceKey::LoadBalanceHosts)
    } else {
        None
    }
}

#[tactic(auto, unfolding(crate::specs::Keys::list_key))]
fn list_key_named(name: &str) -> Option<ListKey>
    ensures { result ≡ list_key name.now }
{
    if name == "host" {
        Some(ListKey::Host)
    } else if name == "hostaddr" {
        Some(ListKey::HostAddr)
    } else if name == "port" {
        Some(ListKey::Port)
    } else {
        None
    }
}

#[tactic(auto, unfolding(crate::specs::Keys::number_key))]
fn number_key_named(name: &str) -> Option<NumberKey>
    ensures { result ≡ number_key name.now }
{
    if name == "connect_timeout" {
        Some(NumberKey::ConnectTimeout)
    } else if name == "tcp_user_timeout" {
        Some(NumberKey::TcpUserTimeout)
    } else if name == "keepalives" {
        Some(NumberKey::Keepalives)
    } else if name == "keepalives_idle" {
        Some(NumberKey::KeepalivesIdle)
    } else if name == "keepalives_interval" {
        Some(NumberKey::KeepalivesInterval)
    } else if name == "keepalives_retries" {
        Some(NumberKey::KeepalivesRetries)
    } else {
        None
    }
}

/// The key of this name.
#[tactic(auto, unfolding(crate::specs::Keys::setting_key))]
pub(crate) fn key_named(name: &str) -> Option<Key>
    ensures { result ≡ setting_key name.now }
{
    if let Some(key) = text_key_named(name) {
        return Some(Key::Text(key));
    }
    if let Some(key) = choice_key_named(name) {
        return Some(Key::Choice(key));
    }
    if let Some(key) = list_key_named(name) {
        return Some(Key::List(key));
    }
    number_key_named(name).map(Key::Number)
}
