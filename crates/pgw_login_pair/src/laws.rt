//! What holds of two parties.
ghost use Rattle.std.specs.Prelude.{◌≡◌, ◌≢◌, ◌≤◌, ◌<◌, ℕ, List, [], ◌∷◌, length};
ghost use Rattle.std.specs.Prelude.{true, false, Some, Ok};
ghost use Rattle.std.specs.Str.{is_utf8};
ghost use Rattle.atomic_table.specs.Seated.{TableId};
ghost use Rattle.pgw_types.specs.declared.error.PgWireError.{PgWireError as TheError};
ghost use Rattle.pgw_machine.specs.declared.event.Event.{Event as TheEvent};
ghost use Rattle.pgw_backend.specs.declared.backend.PgWireBackendMessage.TheVariants as backend;
ghost use Rattle.pgw_hash.specs.Pbkdf2.{salted_password};
ghost use Rattle.pgw_hash.specs.Saslprep.{saslprep};
ghost use Rattle.pgw_scram.specs.Attributes.{IsValue};
ghost use Rattle.pgw_scram.specs.declared.binding.ClientBinding.TheVariants as binding;
ghost use Rattle.pgw_login_server.specs.Server.{server_encodings};
ghost use Rattle.pgw_session.specs.Logins.{first_message, final_message};
ghost use Rattle.pgw_session.specs.Segments.{startup_message};
ghost use Rattle.pgw_startup.specs.declared.authentication.Authentication.TheVariants as auth;
ghost use Rattle.pgw_wire.specs.Writing.{has_zero};
ghost use Rattle.pgw_login_pair.specs.declared.parties.PairInput.{PairInput as TheInput};
ghost use Rattle.pgw_login_pair.specs.declared.parties.PairOutcome.{PairOutcome as TheOutcome};
ghost use Rattle.pgw_login_pair.specs.declared.parties.ServerEnd.TheVariants as of_server;
ghost use Rattle.pgw_login_pair.specs.Parties.{Pairs, TwoParty, HaveDifferentHashes, LoginRefusal};
ghost use Rattle.pgw_login_pair.specs.Parties.{bound_to, IsWritten, ShareAPassword, offer_by};
ghost use Rattle.pgw_login_pair.specs.Sound.{IsSoundInput};
ghost use Rattle.pgw_login_pair.specs.World.{World, first_world, Runs, PartiesMeet, most};
ghost use Rattle.pgw_login_pair.specs.World.{client_input, client_login};

/// In each world to which events lead, each end is where the bytes lead that it took.
pub fn events_keep_the_world()
    ensures { (generator : TableId) (input : TheInput) (events : List TheEvent) (end : World) →
        Runs input events (first_world generator input) end → PartiesMeet generator input end }
{}

/// In each world to which a schedule leads, both agree: on messages, on their ends, on what is
/// bound, and on the proof.
pub fn two_parties_agree()
    ensures { (input : TheInput) (o : TheOutcome) (p : Pairs input o) →
        IsSoundInput input → length o.to_client < most → TwoParty input o }
{}

/// Where each has a hash and they differ, the server never lets the client in, whatever the
/// schedule.
pub fn different_hashes_never_finish()
    ensures { (input : TheInput) (o : TheOutcome) → TwoParty input o → HaveDifferentHashes input →
        o.server ≢ of_server.Finished }
{}

/// The server refuses what SCRAM refuses, or an offer that is too long, and nothing else.
pub fn server_refuses_logins()
    ensures { (input : TheInput) (o : TheOutcome) → TwoParty input o → (why : TheError) →
        o.server ≡ of_server.Refused why → LoginRefusal why }
{}

/// Which lengths leave the messages of honest parties an encoding.
pub fn sizes_suffice()
    // A name without a zero byte, in the startup message.
    ensures startup { (input : TheInput) → has_zero input.user ≡ false → length input.user ≤ 9985 →
        IsWritten (startup_message (client_input input)) }
    // Its prepared form, in client-first, whatever the login is bound to.
    ensures client_first { (input : TheInput) (user : List ℕ) → IsSoundInput input →
        saslprep input.user ≡ Some user → length user ≤ 9920 →
        IsWritten (first_message (client_login input)) }
    // A hash, where the login is bound to one.
    ensures client_final { (input : TheInput) (salt : List ℕ) → IsSoundInput input →
        (input.stored).salt ≡ Some salt →
        ((hash : List ℕ) → bound_to input ≡ binding.EndPoint hash → length hash ≤ 7398) →
        IsWritten (final_message (client_login input) (offer_by input salt)) }
    // A salt, in the offer.
    ensures server_first { (input : TheInput) (salt : List ℕ) → IsSoundInput input →
        length salt ≤ 22443 → (g : List ℕ) × (server_encodings
        (backend.Authentication (auth.SASLContinue (offer_by input salt)) ∷ []) ≡ Ok g) }
    // So these share a password.
    ensures share { (input : TheInput) (user salt : List ℕ) → IsSoundInput input →
        is_utf8 input.password ≡ true → saslprep input.user ≡ Some user → IsValue user →
        (input.stored).salt ≡ Some salt →
        (input.stored).password ≡ salted_password input.password salt input.count →
        has_zero input.user ≡ false → length input.user ≤ 9985 → length user ≤ 9920 →
        length salt ≤ 22443 →
        ((hash : List ℕ) → bound_to input ≡ binding.EndPoint hash → length hash ≤ 7398) →
        ShareAPassword input }
{}
