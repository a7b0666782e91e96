//! What holds of the login's messages.
ghost use Rattle.std.specs.Prelude.{◌≡◌, ◌<◌, ◌≤◌, ◌+◌, ◌*◌, ℕ, pos, Some};
ghost use Rattle.pgw_types.specs.declared.context.ProtocolVersion.TheVariants.{PROTOCOL3_0, PROTOCOL3_2};
ghost use Rattle.pgw_types.specs.declared.context.DecodeContext.{DecodeContext as TheContext};
ghost use Rattle.pgw_startup.specs.Negotiate.{negotiated_version};
ghost use Rattle.pgw_startup.specs.Response.{encryption_response_of, SpellsEncryptionResponse, IsReply};

/// A server may send the minor version alone or with the major one: both are read alike.
pub fn both_forms_are_read_alike()
    ensures alike { (minor : ℕ) → minor < 65536 → negotiated_version (pos (3 * 65536 + minor))
        ≡ negotiated_version (pos minor) }
    ensures first { negotiated_version (pos 0) ≡ Some PROTOCOL3_0 }
    ensures later { (minor : ℕ) → 2 ≤ minor → minor < 65536 → negotiated_version (pos minor)
        ≡ Some PROTOCOL3_2 }
{}

/// What is read of the one byte that answers a request for encryption is spelled so, and what is spelled so is read,
/// whatever follows it, whichever byte but `N` accepts.
pub fn replies_are_exact()
    ensures exact { (accept : ℕ) → (accept ≡ 78 → ⊥) → (ctx : TheContext) →
        IsReply (encryption_response_of accept ctx) SpellsEncryptionResponse }
    ensures ssl { (ctx : TheContext) →
        IsReply (encryption_response_of 83 ctx) SpellsEncryptionResponse }
    ensures gss { (ctx : TheContext) →
        IsReply (encryption_response_of 71 ctx) SpellsEncryptionResponse }
{}
