//! What holds of the messages.
ghost use Rattle.std.specs.Prelude.{◌≡◌, ◌++◌, ℕ, List, []};
ghost use Rattle.pgw_types.specs.declared.context.DecodeContext.{DecodeContext as TheContext};
ghost use Rattle.pgw_backend.specs.declared.backend.PgWireBackendMessage.{PgWireBackendMessage as TheMessage};
ghost use Rattle.pgw_backend.specs.Front.{SpellsIn};

/// No spelling of a message goes on to another's in the same context: so a list of bytes is cut into messages in one way at most.
pub fn no_spelling_goes_on()
    ensures { (ctx : TheContext) (m n : TheMessage) (g more : List ℕ) → SpellsIn ctx m g →
        SpellsIn ctx n (g ++ more) → (more ≡ []) × (n ≡ m) }
{}
