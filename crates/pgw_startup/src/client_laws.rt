//! What holds of a client's messages.
ghost use Rattle.std.specs.Prelude.{◌≡◌, ◌++◌, ℕ, List, None, Some, Ok, IsUtf8};
ghost use Rattle.std.specs.FinMap as map;
ghost use Rattle.pgw_types.specs.declared.context.DecodeContext.{DecodeContext as TheContext};
ghost use Rattle.pgw_wire.specs.declared.framing.Framing.TheVariants.{Typed, Untyped};
ghost use Rattle.pgw_wire.specs.Framing.{wire_front, encoded};
ghost use Rattle.pgw_wire.specs.Formats.{IsRow, SpellsTyped, SpellsUntyped};
ghost use Rattle.pgw_wire.specs.Writing.{text, has_zero, refused_if};
ghost use Rattle.pgw_wire.specs.Pairs.{from_pairs, Held};
ghost use Rattle.pgw_startup.specs.declared.startup.Startup.{Startup as TheStartup};
ghost use Rattle.pgw_startup.specs.declared.password.Password.{Password as ThePassword};
ghost use Rattle.pgw_startup.specs.declared.sasl.SASLInitialResponse.{SASLInitialResponse as TheInitial};
ghost use Rattle.pgw_startup.specs.declared.sasl.SASLResponse.{SASLResponse as TheResponse};
ghost use Rattle.pgw_startup.specs.Login.{is_method_refused};
ghost use Rattle.pgw_startup.specs.Sound.{IsStartup};
ghost use Rattle.pgw_startup.specs.Password.{password_payload, SpellsPassword, initial_response_of, initial_response, SpellsInitialResponse, sasl_response_in, SpellsResponse, family_of, SpellsRaw};
ghost use Rattle.pgw_startup.specs.Startup.{startup_of, startup, is_startup_refused, SpellsStartup};
ghost use Rattle.pgw_wire.specs.declared.limits.TheConstants.{SMALL_LIMIT};

/// A Startup that is read is spelled so, and what is spelled so is read; and parameters are made again from their pairs.
pub fn startup_is_exact()
    ensures found { (ctx : TheContext) (bytes : List ℕ) (m : TheStartup) (rest : List ℕ) →
        wire_front Untyped SMALL_LIMIT (startup_of ctx) bytes ≡ Ok (Some (m, rest)) → (g : List ℕ)
        × (bytes ≡ g ++ rest) × SpellsUntyped SMALL_LIMIT SpellsStartup m g }
    ensures only { (ctx : TheContext) (m : TheStartup) (g rest : List ℕ) →
        SpellsUntyped SMALL_LIMIT SpellsStartup m g →
        wire_front Untyped SMALL_LIMIT (startup_of ctx) (g ++ rest)
        ≡ Ok (Some (m, rest)) }
    ensures parameters { (m : Held) → from_pairs (map.entries m) ≡ m }
{}

/// What is read of a client's answers is spelled so, and what is spelled so is read.
pub fn client_rows_are_exact()
    ensures password { IsRow 112 SMALL_LIMIT password_payload SpellsPassword }
    ensures initial_response { IsRow 112 SMALL_LIMIT initial_response_of SpellsInitialResponse }
    ensures response { IsRow 112 SMALL_LIMIT sasl_response_in SpellsResponse }
    ensures raw { (ctx : TheContext) → IsRow 112 SMALL_LIMIT (family_of ctx) SpellsRaw }
{}

/// What is written of a message spells it.
pub fn what_is_written_is_spelled()
    ensures startup { (m : TheStartup) (g : List ℕ) → IsStartup m →
        encoded Untyped SMALL_LIMIT (refused_if (is_startup_refused m)) (startup m) ≡ Ok g →
        SpellsUntyped SMALL_LIMIT SpellsStartup m g }
    ensures password { (m : ThePassword) (g : List ℕ) → IsUtf8 m.password →
        encoded (Typed 112) SMALL_LIMIT (refused_if (has_zero m.password)) (text m.password) ≡ Ok g
        →
        SpellsTyped 112 SMALL_LIMIT SpellsPassword m g }
    ensures initial_response { (m : TheInitial) (g : List ℕ) → IsUtf8 m.auth_method →
        encoded (Typed 112) SMALL_LIMIT (refused_if (is_method_refused m.auth_method))
        (initial_response m) ≡ Ok g → SpellsTyped 112 SMALL_LIMIT SpellsInitialResponse m g }
    ensures response { (m : TheResponse) (g : List ℕ) →
        encoded (Typed 112) SMALL_LIMIT None m.payload
        ≡ Ok g → SpellsTyped 112 SMALL_LIMIT SpellsResponse m g }
{}

/// And it is read again, whatever follows it.
pub fn what_is_written_comes_back()
    ensures startup { (ctx : TheContext) (m : TheStartup) (g rest : List ℕ) → IsStartup m →
        encoded Untyped SMALL_LIMIT (refused_if (is_startup_refused m)) (startup m) ≡ Ok g →
        wire_front Untyped SMALL_LIMIT (startup_of ctx) (g ++ rest) ≡ Ok (Some (m, rest)) }
    ensures password { (m : ThePassword) (g rest : List ℕ) → IsUtf8 m.password →
        encoded (Typed 112) SMALL_LIMIT (refused_if (has_zero m.password)) (text m.password) ≡ Ok g
        →
        wire_front (Typed 112) SMALL_LIMIT password_payload (g ++ rest) ≡ Ok (Some (m, rest)) }
    ensures initial_response { (m : TheInitial) (g rest : List ℕ) → IsUtf8 m.auth_method →
        encoded (Typed 112) SMALL_LIMIT (refused_if (is_method_refused m.auth_method))
        (initial_response m) ≡ Ok g → wire_front (Typed 112) SMALL_LIMIT initial_response_of
        (g ++ rest)
        ≡ Ok (Some (m, rest)) }
    ensures response { (m : TheResponse) (g rest : List ℕ) →
        encoded (Typed 112) SMALL_LIMIT None m.payload ≡ Ok g →
        wire_front (Typed 112) SMALL_LIMIT sasl_response_in (g ++ rest) ≡ Ok (Some (m, rest)) }
{}
