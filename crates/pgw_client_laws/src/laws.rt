//! What holds of calls.
ghost use Rattle.std.specs.Prelude.{◌≡◌, ℕ, Bool, false, Ok, List, [], ◌∷◌, ◌++◌, map, Option, Some};
ghost use Rattle.pgw_backend.specs.declared.backend.PgWireBackendMessage.{PgWireBackendMessage as Backend};
ghost use Rattle.pgw_session.specs.declared.types.Request.{Request as TheRequest};
ghost use Rattle.pgw_session.specs.declared.stage.Role.TheVariants.{Misplaced};
ghost use Rattle.pgw_session.specs.Events.{Event, Sent, Got};
ghost use Rattle.pgw_session.specs.Requests.{kind_of, sends_of, role};
ghost use Rattle.pgw_session.specs.Segments.{AreTaken, IsRequestSegment};
ghost use Rattle.pgw_session.specs.declared.types.Response.{Response as TheResponse};
ghost use Rattle.pgw_handlers.specs.Client.{Client};
ghost use Rattle.pgw_handlers.specs.Simple.{HeardInQuery, simple_query};
ghost use Rattle.pgw_handlers_default.specs.declared.simple.DefaultSimpleQueryHandler.{DefaultSimpleQueryHandler as TheHandler};
ghost use Rattle.pgw_handlers_default.specs.Simple.{QueryMeans};
ghost use Rattle.pgw_client_calls.specs.Talk.{CallEnd, end, OpensTalk, passes};
ghost use Rattle.pgw_client_calls.specs.Desk.{first_client, with_information};
ghost use Rattle.pgw_types.specs.Counts.{Rose};
ghost use Rattle.pgw_client_calls.specs.Line.{Line, Drew, MovesLine, Pause, IsFlushed, Foretold};
ghost use Rattle.pgw_config.specs.declared.config.Config.{Config as TheConfig};
ghost use Rattle.pgw_session.specs.declared.types.Answer.TheVariants as answer;
ghost use Rattle.pgw_session.specs.declared.types.Request.TheVariants as request;
ghost use Rattle.pgw_handlers.specs.declared.client_info.ServerInformation.{ServerInformation as TheInformation};
ghost use Rattle.pgw_handlers.specs.Startup.{HeardAtStartup, startup};
ghost use Rattle.pgw_handlers_default.specs.declared.startup.DefaultStartupHandler.{DefaultStartupHandler as TheLogin};
ghost use Rattle.pgw_handlers_default.specs.Startup.{StartupMeans, exchanges};
ghost use Rattle.pgw_client_laws.specs.Startup.{LoginCall, StillLogsIn, IsLetIn};
ghost use Rattle.pgw_query.specs.declared.data.DataRow.{DataRow as TheRow};
ghost use Rattle.pgw_handlers_default.specs.declared.extended.DefaultExtendedQueryHandler.{DefaultExtendedQueryHandler as TheExtended};
ghost use Rattle.pgw_handlers_default.specs.Extended.{ExtendedMeans};
ghost use Rattle.pgw_client_calls.specs.Calls.{LineCall};
ghost use Rattle.pgw_client_calls.specs.Reading.{LineGrows, MeetsLinkEnd};
ghost use Rattle.pgw_client_calls.specs.Extended.{Finish, Requested};
ghost use Rattle.pgw_client_calls.specs.ExtendedSteps.{MakesCall};
ghost use Rattle.pgw_client_laws.specs.Calls.{SimpleCallEnds, CallReports, StillHas, IsReported};
ghost use Rattle.pgw_client_laws.specs.Turns.{standing_of_client};
ghost use Rattle.pgw_session.specs.Answers.{answer_of};
ghost use Rattle.pgw_session.specs.Transcript.{SpellsGot};
ghost use Rattle.pgw_client_laws.specs.Extended.{EndsExtendedCall, IsExtended, call_answer};
ghost use Rattle.pgw_client_laws.specs.Stands.{Made, StandsForCalls, StandsBehind, AreAnswered, IsSession};

/// A simple query is one segment, and its answer is that of its own segment.
pub fn simple_queries_are_segments()
    ensures { (q : List ℕ) (before now : Line) (h : TheHandler) (c : Client) (bytes sent : List ℕ)
        (end : CallEnd (List TheResponse)) →
        OpensTalk (λ old new answer. QueryMeans old (simple_query q) new answer)
        (HeardInQuery QueryMeans) (Pause before now) passes h c bytes sent end →
        SimpleCallEnds q c bytes sent (Pause before now) end }
{}

/// A login is the startup segment, and each of its errors has the cause that it has in a session.
pub fn logins_are_startup_segments()
    ensures { (before now : Line) (config : TheConfig) (h : TheLogin) (bytes sent : List ℕ)
        (end : CallEnd TheInformation) →
        OpensTalk (λ old new answer. StartupMeans old startup new answer)
        (HeardAtStartup exchanges StartupMeans) (Pause before now) (λ e. false) h
        (first_client config) bytes sent end →
        LoginCall config h.nonce bytes sent (Pause before now) end }
{}

/// Where the bytes that stood in the buffer and were read begin with spellings of a segment of a simple query, the call
/// gives that segment's answer.
pub fn whole_segments_are_reported()
    ensures { (q : List ℕ) (before now : Line) (h : TheHandler) (c : Client) (bytes sent : List ℕ)
        (end : CallEnd (List TheResponse)) (es : List Event) (spelled more : List ℕ) →
        OpensTalk (λ old new answer. QueryMeans old (simple_query q) new answer)
        (HeardInQuery QueryMeans) (Pause before now) passes h c bytes sent end →
        IsRequestSegment (request.Simple q) es → SpellsGot (standing_of_client c) es spelled → bytes
        ≡ spelled ++ more →
        CallReports answer.Responses (Pause before now) (request.Simple q)
        (answer_of (request.Simple q) es) c bytes sent end.info end.rest end.answer }
{}

/// A call of extended queries is one segment, and its answer is that of its own segment.
pub fn extended_queries_are_segments()
    ensures { (q : TheRequest) (before now : Line) (h : TheExtended) (c : Client)
        (bytes sent : List ℕ) (end : Finish TheExtended TheRow) → IsExtended q →
        Requested ExtendedMeans (Pause before now) q h c bytes sent end →
        EndsExtendedCall q c bytes sent (Pause before now) end }
{}

/// Where those bytes begin with spellings of a segment of such a request, the call gives that segment's answer.
pub fn whole_extended_segments_are_reported()
    ensures { (q : TheRequest) (before now : Line) (h : TheExtended) (c : Client)
        (bytes sent : List ℕ) (end : Finish TheExtended TheRow) (es : List Event)
        (spelled more : List ℕ) → IsExtended q →
        Requested ExtendedMeans (Pause before now) q h c bytes sent end → IsRequestSegment q es →
        SpellsGot (standing_of_client c) es spelled → bytes ≡ spelled ++ more →
        CallReports (call_answer q) (Pause before now) q (answer_of q es) c bytes sent end.info
        end.rest
        end.answer }
{}

/// Of a link that knows what is to come: where the buffer and that begin with a segment of a simple query, within the limit,
/// and no call of the link fails, the call gives that segment's answer, or memory was wanting.
pub fn waiting_segments_are_reported()
    ensures { (q : List ℕ) (h : TheHandler) (c : Client) (old now : Line)
        (last : CallEnd (List TheResponse)) (coming : List ℕ) (is : Option (List ℕ))
        (es : List Event) →
        LineCall (λ before after answer. QueryMeans before (simple_query q) after answer)
        (HeardInQuery QueryMeans) passes h c old now last →
        Foretold (Some coming) is old.tape now.tape →
        StillHas (request.Simple q) c old coming es → (Rose old.faults now.faults → ⊥) →
        IsReported answer.Responses (answer_of (request.Simple q) es) last.answer last.broken }
{}

/// So does a call of extended queries.
pub fn waiting_extended_segments_are_reported()
    ensures { (q : TheRequest) (h : TheExtended) (c : Client) (old now : Line)
        (last : Finish TheExtended TheRow) (coming : List ℕ) (is : Option (List ℕ))
        (es : List Event) → IsExtended q → MakesCall ExtendedMeans q h c old now last →
        Foretold (Some coming) is old.tape now.tape → StillHas q c old coming es →
        (Rose old.faults now.faults → ⊥) →
        IsReported (call_answer q) (answer_of q es) last.answer last.broken }
{}

/// Of a link that knows what is to come: where the buffer and that begin with a whole startup segment, within the limit,
/// whose messages to the server have encodings, and no call of the link fails, the login gives a client that knows what
/// that segment tells, or memory was wanting.
pub fn waiting_logins_are_reported()
    ensures { (config : TheConfig) (h : TheLogin) (old now : Line) (last : CallEnd TheInformation)
        (coming : List ℕ) (is : Option (List ℕ)) (es : List Event) →
        LineCall (λ before after answer. StartupMeans before startup after answer)
        (HeardAtStartup exchanges StartupMeans) (λ e. false) h (first_client config) old now last →
        Foretold (Some coming) is old.tape now.tape →
        StillLogsIn config h.nonce old coming es → (Rose old.faults now.faults → ⊥) →
        IsLetIn config es last.answer last.info last.broken }
{}

/// No segment of a request begins with a message that has no place behind those that are taken.
pub fn misplaced_messages_begin_no_segment()
    ensures { (q : TheRequest) (ms : List Backend) (behind : Bool) (m : Backend)
        (more : List Event) → AreTaken (kind_of q) false ms behind → role (kind_of q) behind m
        ≡ Misplaced →
        IsRequestSegment q (map Sent (sends_of q) ++ (map Got ms ++ Got m ∷ more)) → ⊥ }
{}

/// A client that has logged in over a new line stands for its login alone.
pub fn logins_begin_a_client()
    ensures { (config : TheConfig) (h : TheLogin) (old now : Line) (told : Client)
        (information : TheInformation) → old.buffer ≡ [] →
        LineCall (λ before after answer. StartupMeans before startup after answer)
        (HeardAtStartup exchanges StartupMeans) (λ e. false) h (first_client config) old now
        (end (Ok information) told false now.buffer) →
        (read wrote : List ℕ) × MovesLine old now read wrote × IsFlushed now ×
        StandsForCalls config h.nonce [] read wrote (with_information information told) now.buffer }
{}

/// A simple query takes a client that stands for some requests to one that stands for one request more.
pub fn simple_queries_follow_one_another()
    ensures { (config : TheConfig) (nonce : List ℕ) (ts : List Made) (read wrote : List ℕ)
        (q : List ℕ) (h : TheHandler) (c : Client) (old now : Line)
        (last : CallEnd (List TheResponse)) →
        StandsForCalls config nonce ts read wrote c old.buffer →
        LineCall (λ before after answer. QueryMeans before (simple_query q) after answer)
        (HeardInQuery QueryMeans) passes h c old now last →
        (more sent : List ℕ) × MovesLine old now more sent × (last.broken ≡ false → IsFlushed now) ×
        StandsBehind answer.Responses config nonce ts (request.Simple q)
        (read ++ more) (wrote ++ sent) last.info last.rest last.answer last.broken }
{}

/// So does a call of extended queries.
pub fn extended_queries_follow_one_another()
    ensures { (config : TheConfig) (nonce : List ℕ) (ts : List Made) (read wrote : List ℕ)
        (q : TheRequest) (h : TheExtended) (c : Client) (old now : Line)
        (last : Finish TheExtended TheRow) → IsExtended q →
        StandsForCalls config nonce ts read wrote c old.buffer →
        MakesCall ExtendedMeans q h c old now last →
        (more sent : List ℕ) × MovesLine old now more sent × (last.broken ≡ false → IsFlushed now) ×
        StandsBehind (call_answer q) config nonce ts q
        (read ++ more) (wrote ++ sent) last.info last.rest last.answer last.broken }
{}

/// A client whose buffer is filled stands for the same requests.
pub fn filled_clients_stand()
    ensures { (config : TheConfig) (nonce : List ℕ) (ts : List Made) (read wrote : List ℕ)
        (c : Client) (old now : Line) → StandsForCalls config nonce ts read wrote c old.buffer →
        LineGrows old now → (more : List ℕ) × Drew old now more ×
        StandsForCalls config nonce ts (read ++ more) wrote c now.buffer }
{}

/// So does one that is told that nothing is left to read.
pub fn ended_clients_stand()
    ensures { (config : TheConfig) (nonce : List ℕ) (ts : List Made) (read wrote : List ℕ)
        (c : Client) (old now : Line) → StandsForCalls config nonce ts read wrote c old.buffer →
        MeetsLinkEnd old now → Drew old now [] ×
        StandsForCalls config nonce ts read wrote c now.buffer }
{}

/// A client that stands for requests, each answered by its own segment, is a session of them.
pub fn clients_are_sessions()
    ensures { (config : TheConfig) (nonce : List ℕ) (ts : List Made) (read wrote : List ℕ)
        (c : Client) (buffer : List ℕ) → StandsForCalls config nonce ts read wrote c buffer →
        AreAnswered ts → IsSession config nonce ts read wrote c buffer }
{}
