//! What holds of what a client may send before its Startup, or in place of it.
ghost use Rattle.std.specs.Prelude.{◌≡◌, ◌<◌, ◌^◌, ◌++◌, ℕ, List, None, Some, Ok, true};
ghost use Rattle.pgw_types.specs.declared.context.DecodeContext.{DecodeContext as TheContext};
ghost use Rattle.pgw_types.specs.declared.context.ProtocolVersion.{ProtocolVersion as TheVersion};
ghost use Rattle.pgw_wire.specs.declared.framing.Framing.TheVariants.{Opening, Code};
ghost use Rattle.pgw_wire.specs.Framing.{wire_front, encoded};
ghost use Rattle.pgw_wire.specs.Formats.{SpellsUntyped};
ghost use Rattle.pgw_wire.specs.Keys.{key_fault, SuitsKey};
ghost use Rattle.pgw_wire.specs.Writing.{u32};
ghost use Rattle.pgw_control.specs.declared.cancel.CancelRequest.{CancelRequest as TheCancel};
ghost use Rattle.pgw_control.specs.declared.ssl_request.SslRequest.{SslRequest as TheSsl};
ghost use Rattle.pgw_control.specs.declared.gss_enc_request.GssEncRequest.{GssEncRequest as TheGss};
ghost use Rattle.pgw_control.specs.Sound.{IsCancelRequest};
ghost use Rattle.pgw_control.specs.Openings.{has_code, ssl_request_of, gss_enc_request_of, cancel_request_of, cancel_request, SpellsCancelRequest, SpellsCoded};
ghost use Rattle.pgw_wire.specs.declared.limits.TheConstants.{SMALL_LIMIT};

/// What is read is spelled so: a request of eight bytes by its code alone.
pub fn what_is_read_is_spelled()
    ensures ssl { (ctx : TheContext) (bytes : List ℕ) (m : TheSsl) (rest : List ℕ) →
        wire_front Code SMALL_LIMIT (ssl_request_of ctx) bytes ≡ Ok (Some (m, rest)) → (g : List ℕ)
        × (bytes ≡ g ++ rest) × SpellsCoded 80877103 g }
    ensures gss { (ctx : TheContext) (bytes : List ℕ) (m : TheGss) (rest : List ℕ) →
        wire_front Code SMALL_LIMIT (gss_enc_request_of ctx) bytes ≡ Ok (Some (m, rest)) →
        (g : List ℕ)
        × (bytes ≡ g ++ rest) × SpellsCoded 80877104 g }
    ensures cancel { (ctx : TheContext) (bytes : List ℕ) (m : TheCancel) (rest : List ℕ) →
        wire_front (Opening 80877102) SMALL_LIMIT (cancel_request_of ctx) bytes ≡ Ok
        (Some (m, rest)) →
        (g : List ℕ) × (bytes ≡ g ++ rest) × SpellsUntyped SMALL_LIMIT
        (SpellsCancelRequest ctx.protocol_version) m g }
{}

/// What is spelled so is read, whatever follows it.
pub fn what_is_spelled_is_read()
    ensures ssl { (ctx : TheContext) (m : TheSsl) (g rest : List ℕ) → SpellsCoded 80877103 g →
        wire_front Code SMALL_LIMIT (ssl_request_of ctx) (g ++ rest) ≡ Ok (Some (m, rest)) }
    ensures gss { (ctx : TheContext) (m : TheGss) (g rest : List ℕ) → SpellsCoded 80877104 g →
        wire_front Code SMALL_LIMIT (gss_enc_request_of ctx) (g ++ rest) ≡ Ok (Some (m, rest)) }
    ensures cancel { (ctx : TheContext) (m : TheCancel) (g rest : List ℕ) →
        SpellsUntyped SMALL_LIMIT (SpellsCancelRequest ctx.protocol_version) m g →
        wire_front (Opening 80877102) SMALL_LIMIT (cancel_request_of ctx) (g ++ rest) ≡ Ok
        (Some (m, rest)) }
{}

/// What is written spells the message.
pub fn what_is_written_is_spelled()
    ensures coded { (code : ℕ) (g : List ℕ) → code < 2 ^ 32 →
        encoded Code SMALL_LIMIT None (u32 code)
        ≡ Ok g → SpellsCoded code g }
    ensures cancel { (v : TheVersion) (m : TheCancel) (g : List ℕ) → IsCancelRequest m →
        SuitsKey v m.secret_key → encoded (Opening 80877102) SMALL_LIMIT (key_fault m.secret_key)
        (cancel_request m) ≡ Ok g → SpellsUntyped SMALL_LIMIT (SpellsCancelRequest v) m g }
{}

/// A CancelRequest has its code where the code is looked for.
pub fn a_cancel_request_has_its_code()
    ensures { (v : TheVersion) (m : TheCancel) (g rest : List ℕ) →
        SpellsUntyped SMALL_LIMIT (SpellsCancelRequest v) m g →
        has_code 80877102 (g ++ rest) ≡ true }
{}
