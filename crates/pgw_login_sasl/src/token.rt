//! The token in the value of `auth` (RFC 6750, section 2.1).
ghost use Rattle.std.specs.Prelude.{◌≡◌, ◌<◌, not, length, IfSome, position};
ghost use Rattle.std.specs.List.{list_all};
ghost use Rattle.std.specs.Option.{option_copied};
ghost use Rattle.pgw_login_sasl.specs.Token.{is_space, lower, is_token_byte, behind_scheme, behind_space, token_in};

fn is_space(byte: u8) -> bool
    ensures { result ≡ is_space byte }
{
    byte == b' ' || (9 <= byte && byte <= 13)
}

fn is_token_byte(byte: u8) -> bool
    ensures { result ≡ is_token_byte byte }
{
    (b'a' <= byte && byte <= b'z')
        || (b'A' <= byte && byte <= b'Z')
        || (b'0' <= byte && byte <= b'9')
        || byte == b'-'
        || byte == b'.'
        || byte == b'_'
        || byte == b'~'
        || byte == b'+'
        || byte == b'/'
        || byte == b'='
}

fn lower(byte: u8) -> u8
    ensures { result ≡ lower byte }
{
    if b'A' <= byte && byte <= b'Z' {
        byte + 32
    } else {
        byte
    }
}

fn are_token_bytes(bytes: &[u8]) -> bool
    ensures { result ≡ list_all is_token_byte bytes.now }
{
    bytes.iter().all(|byte| is_token_byte(*byte))
}

// What stands behind `Bearer` and a space, in any case.
fn behind_scheme(value: &[u8]) -> Option<&[u8]>
    ensures { option_copied result ≡ behind_scheme value.now }
{
    let [a, b, c, d, e, f, g, rest @ ..] = value else {
        return None;
    };
    let front = [
        lower(*a),
        lower(*b),
        lower(*c),
        lower(*d),
        lower(*e),
        lower(*f),
        lower(*g),
    ];
    if front.as_slice() == b"bearer ".as_slice() {
        Some(rest)
    } else {
        None
    }
}

fn text_in(bytes: &[u8]) -> Option<usize>
    ensures place { result ≡ position (λ b. not (is_space b)) bytes.now }
    ensures bound { IfSome result (λ at. at < length bytes.now) }
{
    bytes.iter().position(|byte| !is_space(*byte))
}

#[tactic(auto, unfolding(crate::specs::Token::behind_space))]
fn behind_space(bytes: &[u8]) -> &[u8]
    ensures { result.now ≡ behind_space bytes.now }
{
    match text_in(bytes) {
        Some(at) => &bytes[at..],
        None => &[],
    }
}

/// The token behind `Bearer`, if it is well formed.
pub fn token_in(value: &[u8]) -> Option<&[u8]>
    ensures { option_copied result ≡ token_in value.now }
{
    let token = behind_space(behind_scheme(value)?);
    if !token.is_empty() && are_token_bytes(token) {
        Some(token)
    } else {
        None
    }
}
