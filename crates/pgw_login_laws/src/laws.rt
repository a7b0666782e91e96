//! What holds of logins by SASL.
ghost use Rattle.std.specs.Prelude.{◌≡◌, List, codes};
ghost use Rattle.pgw_login_laws.specs.Bound.{IsBoundBy};
ghost use Rattle.pgw_login_laws.specs.Entry.{ProvesSasl, ProvesScram, ProvesSalted, ProvesStored, GivesSalted, GivesStored, TakesSalted, TakesStored};
ghost use Rattle.pgw_login_sasl.specs.Methods.{offered_methods};
ghost use Rattle.pgw_login_sasl.specs.Sasl.{ByOauth, SaslMeans};
ghost use Rattle.pgw_login_sasl.specs.Scram.{ByScram, by_passwords};
ghost use Rattle.pgw_login_sasl.specs.Stored.{by_secrets};
ghost use Rattle.pgw_scram.specs.declared.server.ScramServerAuth.{ScramServerAuth as TheServer};
ghost use Rattle.pgw_login_server.specs.Entry.{LetsInBy};
ghost use Rattle.pgw_login_server.specs.Lasting.{KeepsReady};
ghost use Rattle.pgw_login_server.specs.Server.{Stage as TheStage};
ghost use Rattle.pgw_login_server.specs.Taken.{Taken};
ghost use Rattle.pgw_login_server.specs.Unregistered.{Nowhere, StaysUnregistered};

use pgw_login::provider::ServerParameterProvider;
use pgw_login::registers::Registers;
use pgw_login::source::{AuthSource, SecretSource};
use pgw_login_sasl::handler::SASLAuthStartupHandler;
use pgw_login_sasl::scram::ScramSource;
use pgw_login_sasl::stored::Secrets;
use pgw_login_sasl::validator::OauthValidator;

/// A client that may ask may ask until a message is refused, whatever methods the handler has.
pub fn sasl_keeps_a_finished_login<A, P, G, M>(handler: &SASLAuthStartupHandler<A, P, G, M>)
where
    A: ScramSource,
    P: ServerParameterProvider,
    M: Registers,
    ensures { KeepsReady
        (SaslMeans (offered_methods handler.now.scram handler.now.oauth)
        (ByScram A.replies handler.now.scram)
        (ByOauth handler.now.oauth (λ o. validates (o.validator.vtable, o.validator.value)))
        (P.provides handler.now.parameter_provider) (M.registers handler.now.registry)) }
{
    let _handler = handler;
}

/// SASL lets a client in only behind its proof, or its token: AuthenticationOk and ReadyForQuery are said in answer to one
/// of two messages alone. One is a client-final that SCRAM accepts, behind a server-first that was offered with this
/// login's nonce by what the source answered for the user of the startup message. The other has a token which the
/// validator says gives that user access.
pub fn sasl_lets_in_behind_a_proof<A, P, G, M>(handler: &SASLAuthStartupHandler<A, P, G, M>)
where
    A: AuthSource,
    P: ServerParameterProvider,
    M: Registers,
    ensures { LetsInBy
        (SaslMeans (offered_methods handler.now.scram handler.now.oauth)
        (ByScram (by_passwords A.answers) handler.now.scram)
        (ByOauth handler.now.oauth (λ o. validates (o.validator.vtable, o.validator.value)))
        (P.provides handler.now.parameter_provider) (M.registers handler.now.registry))
        (ProvesSasl (ProvesSalted A.answers) handler.now.scram
        (λ o. validates (o.validator.vtable, o.validator.value))
        handler.now.oauth) }
{
    let _handler = handler;
}

/// So over stored secrets: the source answered a secret for the user of the startup message, and the proof hashes to
/// its StoredKey.
pub fn sasl_lets_in_behind_a_stored_key<S, P, G, M>(
    handler: &SASLAuthStartupHandler<Secrets<S>, P, G, M>,
)
where
    S: SecretSource,
    P: ServerParameterProvider,
    M: Registers,
    ensures { LetsInBy
        (SaslMeans (offered_methods handler.now.scram handler.now.oauth)
        (ByScram (by_secrets S.secrets) handler.now.scram)
        (ByOauth handler.now.oauth (λ o. validates (o.validator.vtable, o.validator.value)))
        (P.provides handler.now.parameter_provider) (M.registers handler.now.registry))
        (ProvesSasl (ProvesStored S.secrets) handler.now.scram
        (λ o. validates (o.validator.vtable, o.validator.value))
        handler.now.oauth) }
{
    let _handler = handler;
}

/// Where the handler registers nothing, a login that is registered nowhere stays so, and keeps its pass.
pub fn sasl_without_a_registry_keeps_its_pass<A, P, G, M>(
    handler: &SASLAuthStartupHandler<A, P, G, M>,
)
where
    A: ScramSource,
    P: ServerParameterProvider,
    ensures { StaysUnregistered
        (SaslMeans (offered_methods handler.now.scram handler.now.oauth)
        (ByScram A.replies handler.now.scram)
        (ByOauth handler.now.oauth (λ o. validates (o.validator.vtable, o.validator.value)))
        (P.provides handler.now.parameter_provider) Nowhere) }
{
    let _handler = handler;
}

/// A proof under SCRAM-SHA-256-PLUS lets a client in only where the server has a hash of its certificate, and the
/// client's texts bind the login to this hash.
pub fn sasl_under_plus_is_bound<A>(source: &A)
where
    A: AuthSource,
    ensures { (server : TheServer) (begin : TheStage) (earlier : List Taken) (t : Taken)
        → (run : ProvesScram (GivesSalted (A.answers source.now) server) TakesSalted begin earlier
        t)
        → run.offered.name ≡ codes "SCRAM-SHA-256-PLUS"
        → IsBoundBy server run.offered.client_first run.client_final }
{
    let _source = source;
}

/// So does one over a stored secret.
pub fn sasl_over_a_secret_under_plus_is_bound<S>(source: &S)
where
    S: SecretSource,
    ensures { (server : TheServer) (begin : TheStage) (earlier : List Taken) (t : Taken)
        → (run : ProvesScram (GivesStored (S.secrets source.now) server) TakesStored begin earlier
        t)
        → run.offered.name ≡ codes "SCRAM-SHA-256-PLUS"
        → IsBoundBy server run.offered.client_first run.client_final }
{
    let _source = source;
}
