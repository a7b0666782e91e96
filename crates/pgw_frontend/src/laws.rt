//! What holds of a client's messages.
ghost use Rattle.std.specs.Prelude.{◌≡◌, ◌<◌, ◌^◌, ◌++◌, ℕ, List, [], false};
ghost use Rattle.pgw_wire.specs.Formats.{SpellsUntyped};
ghost use Rattle.pgw_startup.specs.declared.startup.Startup.{Startup as TheStartup};
ghost use Rattle.pgw_startup.specs.Startup.{SpellsStartup};
ghost use Rattle.pgw_control.specs.Openings.{has_code};
ghost use Rattle.pgw_types.specs.declared.context.DecodeContext.{DecodeContext as TheContext};
ghost use Rattle.pgw_types.specs.declared.context.ProtocolVersion.{ProtocolVersion as TheVersion};
ghost use Rattle.pgw_frontend.specs.declared.frontend.PgWireFrontendMessage.{PgWireFrontendMessage as TheMessage};
ghost use Rattle.pgw_frontend.specs.FrontendSpells.{SpellsFrontend, AwaitsFrontend, HasTypeByte};
ghost use Rattle.pgw_wire.specs.declared.limits.TheConstants.{SMALL_LIMIT};

/// No spelling of a message with a type byte goes on to another's, and no two messages of one phase share a spelling.
pub fn no_spelling_goes_on()
    ensures ends { (v : TheVersion) (m n : TheMessage) (g more : List ℕ) → HasTypeByte m →
        HasTypeByte n → SpellsFrontend v m g → SpellsFrontend v n (g ++ more) → more ≡ [] }
    ensures same { (ctx : TheContext) (m n : TheMessage) (g : List ℕ) → AwaitsFrontend ctx m →
        AwaitsFrontend ctx n → SpellsFrontend ctx.protocol_version m g →
        SpellsFrontend ctx.protocol_version n g → n ≡ m }
{}

/// Where the code of a CancelRequest is looked for a Startup has none, since its major version is 3.
pub fn a_startup_has_no_code()
    ensures { (m : TheStartup) (g rest : List ℕ) → m.protocol_number_minor < 2 ^ 16 →
        SpellsUntyped SMALL_LIMIT SpellsStartup m g → has_code 80877102 (g ++ rest) ≡ false }
{}
