//! What holds of a server's core.
ghost use Rattle.std.specs.Prelude.{◌≡◌, ◌<◌, ◌≤◌, ◌++◌, ◌↔◌, ◌∷◌, ℕ, max, List, [], length, true, Option, Ok, Err};
ghost use Rattle.std.specs.List.{concat};
ghost use Rattle.pgw_types.specs.declared.error.PgWireError.{PgWireError};
ghost use Rattle.pgw_types.specs.declared.error.PgWireError.TheVariants.{MessageTooLarge};
ghost use Rattle.pgw_wire.specs.Framing.{stated_length};
ghost use Rattle.pgw_frontend.specs.declared.frontend.PgWireFrontendMessage.{PgWireFrontendMessage as Message};
ghost use Rattle.pgw_machine.specs.Course.{Course, Waits, More, Bad, IsReading, sent_of};
ghost use Rattle.pgw_machine.specs.Play.{Leads, Continues};
ghost use Rattle.pgw_login.specs.Acts.{LoginStays};
ghost use Rattle.pgw_login.specs.Cleartext.{CleartextMeans};
ghost use Rattle.pgw_login.specs.Md5.{Md5Means};
ghost use Rattle.pgw_login.specs.Noop.{NoopMeans};
ghost use Rattle.pgw_login.specs.Password.{PasswordMeans};
ghost use Rattle.pgw_login_server.specs.Bound.{IsBounded, header_front};
ghost use Rattle.pgw_login_server.specs.Entry.{LetsInBy, ProvesCleartext, ProvesMd5};
ghost use Rattle.pgw_login_server.specs.Lasting.{IsReady, KeepsReady, StaysReady};
ghost use Rattle.pgw_login_server.specs.Pieces.{LeadOn};
ghost use Rattle.pgw_login_server.specs.Server.{Stage, ServerEnding, stage_front, serving};
ghost use Rattle.pgw_login_server.specs.Taken.{taken_in, Accounts};
ghost use Rattle.pgw_login_server.specs.Unregistered.{Nowhere, StaysUnregistered};
ghost use Rattle.pgw_wire.specs.declared.limits.TheConstants.{SMALL_LIMIT};

use pgw_login::handler::StartupHandler;
use pgw_login::password::PasswordMethod;
use pgw_login::provider::ServerParameterProvider;
use pgw_login::registers::Registers;
use pgw_login::source::AuthSource;

/// What stands whole at the front of a client's bytes, or is refused there, stays so whatever bytes follow. So it does
/// not matter how they are cut.
pub fn a_server_reads_steadily()
    ensures { (stage : Stage) → IsReading (stage_front stage) }
{}

/// It does not matter how bytes are cut: which places they may lead to hangs on the bytes alone. Behind an end a piece
/// changes nothing.
pub fn pieces_join<H: StartupHandler>()
    // Bytes and a piece lead to a place just where the bytes lead to one from which the piece leads there.
    ensures one { (handler : H) (begin : Stage) (given piece : List ℕ)
        (there : Course Stage ServerEnding) →
        Leads (serving (H.means handler)) begin (given ++ piece) there
        ↔ ((course : Course Stage ServerEnding) ×
        Leads (serving (H.means handler)) begin given course
        × Continues (serving (H.means handler)) course piece there) }
    // One piece after the other leads to the places to which they lead together, and to no other.
    ensures all { (handler : H) (begin : Stage) (piece : List ℕ) (pieces : List (List ℕ))
        (there : Course Stage ServerEnding) →
        LeadOn (H.means handler) (Waits begin [] []) (piece ∷ pieces) there
        ↔ Leads (serving (H.means handler)) begin (concat (piece ∷ pieces)) there }
{}

/// Once the client may ask, it may ask until a message is refused, where its handler keeps it so.
pub fn a_finished_login_stays<H: StartupHandler>()
    ensures { (handler : H) (begin : Stage) (bytes : List ℕ) (course : Course Stage ServerEnding) →
        KeepsReady (H.means handler) → IsReady begin.client begin.login →
        Leads (serving (H.means handler)) begin bytes course → StaysReady course }
{}

/// The handler for a password keeps it so, by whatever method, and the one for none.
pub fn handlers_keep_a_finished_login<V: PasswordMethod, P: ServerParameterProvider, M: Registers>()
    ensures password { (method : V) (provider : P) (registry : M) →
        KeepsReady (PasswordMeans (V.opens method) (V.checks method) (P.provides provider)
        (M.registers registry)) }
    ensures noop { (registry : M) → KeepsReady
        (NoopMeans (λ m. LoginStays) (M.registers registry)) }
{}

/// What a server takes stands at the front of the bytes given, one message behind the other; and what it puts out are the
/// encodings of what it says to each, with `N` for each request for encryption.
pub fn a_server_accounts_for_its_bytes<H: StartupHandler>()
    ensures { (handler : H) (begin : Stage) (given : List ℕ) (course : Course Stage ServerEnding)
        (way : Leads (serving (H.means handler)) begin given course) →
        Accounts (taken_in (H.means handler) begin given course way) given (sent_of course) }
{}

/// The handlers for a password in clear text and under MD5 let a client in only behind it: AuthenticationOk and
/// ReadyForQuery are said in answer to a password message alone whose text is, byte for byte, what the source answered for the user of the startup message.
pub fn handlers_let_in_behind_a_password<A: AuthSource, P: ServerParameterProvider, M: Registers>()
    ensures cleartext { (source : A) (provider : P) (registry : M) → LetsInBy
        (CleartextMeans (A.answers source) (P.provides provider) (M.registers registry))
        (ProvesCleartext (A.answers source)) }
    ensures md5 { (source : A) (provider : P) (registry : M) → LetsInBy
        (Md5Means (A.answers source) (P.provides provider) (M.registers registry))
        (ProvesMd5 (A.answers source)) }
{}

/// Under a bound, until the client may ask, a message behind the startup message that says it has more bytes is refused by
/// its header, before any byte of its body has come; and little waits.
pub fn a_bound_holds_until_the_login()
    // It is refused with the bound and the length that it says,
    ensures long { (stage : Stage) (bound : ℕ) (bytes : List ℕ)
        (found : Option (Message × List ℕ)) →
        IsBounded stage bound → stage.started ≡ true → 5 ≤ length bytes → bound
        < stated_length 1 bytes →
        header_front stage bytes ≡ Ok found → stage_front stage bytes
        ≡ Bad (MessageTooLarge bound (stated_length 1 bytes)) }
    // unless its header alone is refused for something else.
    ensures header { (stage : Stage) (bound : ℕ) (bytes : List ℕ) (why : PgWireError) →
        IsBounded stage bound → stage.started ≡ true → header_front stage bytes ≡ Err why →
        stage_front stage bytes ≡ Bad why }
    // What waits has no more bytes than the bound says, or 10000.
    ensures little { (stage : Stage) (bound : ℕ) (bytes : List ℕ) →
        IsBounded stage bound → stage_front stage bytes ≡ More →
        length bytes ≤ max SMALL_LIMIT bound }
{}

/// Where a handler registers nothing, a login that is registered nowhere stays so, also at an end, and its pass is the one
/// that it was made with: behind `finish` there is no handle and no guard, and the pass can be let go or used again.
pub fn a_login_without_a_registry_keeps_its_pass<V: PasswordMethod, P: ServerParameterProvider>()
    ensures password { (method : V) (provider : P) →
        StaysUnregistered (PasswordMeans (V.opens method) (V.checks method) (P.provides provider)
        Nowhere) }
    ensures noop { StaysUnregistered (NoopMeans (λ m. LoginStays) Nowhere) }
{}
