//! What holds of the hashes.
ghost use Rattle.std.specs.Prelude.{◌≡◌, ℕ, ◌<◌, List, Some, ◌++◌, IsUtf8};
ghost use Rattle.std.specs.List.{All};
ghost use Rattle.pgw_hash.specs.Hmac.{hmac_sha256};
ghost use Rattle.pgw_hash.specs.Pbkdf2.{hi, block_number};
ghost use Rattle.pgw_hash.specs.Saslprep.{saslprep};

/// One round gives the first term.
pub fn one_round_is_the_first_term()
    ensures { (password salt : List ℕ) → hi password salt 1
        ≡ hmac_sha256 password (salt ++ block_number 1) }
{}

/// A text of printable ASCII is prepared as it is.
pub fn printable_ascii_is_prepared()
    ensures { (text : List ℕ) → All (λ c. (31 < c) × (c < 127)) text → saslprep text ≡ Some text }
{}

/// A text prepared is UTF-8.
pub fn a_prepared_text_is_utf8()
    ensures { (text form : List ℕ) → IsUtf8 text → saslprep text ≡ Some form → IsUtf8 form }
{}
