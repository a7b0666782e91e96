//! What holds of sessions.
ghost use Rattle.std.specs.Prelude.{◌≡◌, ◌≢◌, ℕ, true, List, [], ◌∷◌, ◌++◌, length, codes, Some, None, Ok, Err};
ghost use Rattle.std.specs.FinMap as map;
ghost use Rattle.pgw_types.specs.declared.context.ProtocolVersion.{ProtocolVersion as TheVersion};
ghost use Rattle.pgw_types.specs.declared.error.PgWireError.{PgWireError as TheRefusal};
ghost use Rattle.pgw_startup.specs.Negotiate.{negotiated_version};
ghost use Rattle.pgw_startup.specs.declared.backend_key_data.BackendKeyData.{BackendKeyData as TheKey};
ghost use Rattle.pgw_startup.specs.declared.negotiate.NegotiateProtocolVersion.{NegotiateProtocolVersion as TheOffer};
ghost use Rattle.pgw_startup.specs.declared.parameter_status.ParameterStatus.{ParameterStatus as TheParameter};
ghost use Rattle.pgw_backend.specs.declared.backend.PgWireBackendMessage.{PgWireBackendMessage as Backend};
ghost use Rattle.pgw_backend.specs.declared.backend.PgWireBackendMessage.TheVariants as backend;
ghost use Rattle.pgw_backend.specs.declared.client_error.PgWireClientError.{PgWireClientError as ClientError};
ghost use Rattle.pgw_query.specs.declared.response.ReadyForQuery.{ReadyForQuery as TheReady};
ghost use Rattle.pgw_backend.specs.Front.{Spells};
ghost use Rattle.pgw_frontend.specs.Frontend.{encodings};
ghost use Rattle.pgw_frontend.specs.declared.frontend.PgWireFrontendMessage.{PgWireFrontendMessage as Frontend};
ghost use Rattle.pgw_config.specs.declared.config.Config.{Config as TheConfig};
ghost use Rattle.pgw_session.specs.declared.types.Request.{Request as TheRequest};
ghost use Rattle.pgw_session.specs.Input.{Input as TheInput};
ghost use Rattle.pgw_session.specs.Segments.{IsStartupSegment, IsBegun};
ghost use Rattle.pgw_session.specs.Events.{Event, Got, all_events, sents};
ghost use Rattle.pgw_session.specs.Standings.{first_standing, standing_of};
ghost use Rattle.pgw_session.specs.Stays.{IsSameConnection, IsUnready, SetsNone};
ghost use Rattle.pgw_session.specs.Answers.{tally_of, first_error};
ghost use Rattle.pgw_session.specs.Transcript.{AreSegments, IsTranscript, IsTranscriptPart, IsEarly, IsLegalPrefix, SpellsGot, EncodesSent, Completed, Completes, report_of};
ghost use Rattle.pgw_session.specs.Failures.{SessionGoesOn, HasNoPlace, Unreadable, FailsAtStartup, Unsendable, WaitsAt, IsHopeless, IsUnfinished, EndsAs, BytesTell};
ghost use Rattle.pgw_session.specs.Faults.{IsByteFault, IsDueFault, IsStartupError};
ghost use Rattle.pgw_config.specs.declared.config.ChannelBinding.TheVariants as channel_binding;
ghost use Rattle.pgw_scram.specs.declared.messages.ServerFirst.{ServerFirst as TheFirst};
ghost use Rattle.pgw_scram.specs.Base64.{salt_of};
ghost use Rattle.pgw_scram.specs.Exchange.{client_final};
ghost use Rattle.pgw_scram.specs.Readers.{read_server_first};
ghost use Rattle.pgw_session.specs.Logins.{md5_message, offers, scram_login};
ghost use Rattle.pgw_startup.specs.declared.authentication.Authentication.TheVariants as authentication;
ghost use Rattle.pgw_session.specs.Bound.{BindsTo, LogsInBound, LetsNoneIn, CanEnd};
ghost use Rattle.pgw_session.specs.Demands.{refused_config};
ghost use Rattle.pgw_session.specs.Valid.{IsValidInput, IsLoginValid, CanLogIn};
ghost use Rattle.pgw_machine.specs.Course.{Waits, Over, onto, map_course, sent_of};
ghost use Rattle.pgw_session.specs.Machine.{opens_next, end_with, map_end, Complete, Unencoded, Unexpected, Unread, Refused};
ghost use Rattle.pgw_session.specs.Notes.{noted_of, view};
ghost use Rattle.pgw_session.specs.Talk.{between, first_passed, talk_book, Talk, Ending, said, conversation, whole_talk, HasRefused};

/// A conversation that ends whole is a completed session.
pub fn whole_conversations_are_sessions()
    ensures { (input : TheInput) (taken sent : List ℕ) (ending : Ending) → conversation input taken
        ≡ Over ending sent → ending.outcome ≡ Complete →
        Completed input taken sent (report_of input (ending.notes).closed) }
{}

/// Bytes that spell a transcript whose messages have encodings lead the conversation to it, whatever follows them.
pub fn transcripts_are_conversed()
    ensures { (input : TheInput) (segments : List (List Event)) (bytes sent more : List ℕ) →
        IsTranscript input segments →
        SpellsGot (first_standing input.config) (all_events segments) bytes →
        EncodesSent (all_events segments) sent → conversation input (bytes ++ more)
        ≡ Over (whole_talk segments) sent }
{}

/// Bytes that spell the segments of the requests so far lead the conversation to where the next request is opened,
/// whatever requests are behind it.
pub fn requests_are_taken_one_by_one()
    ensures { (input : TheInput) (asked left : List TheRequest) (q : TheRequest)
        (startup : List Event) (segments : List (List Event)) (bytes sent : List ℕ) → input.requests
        ≡ asked ++ q ∷ left →
        IsStartupSegment input startup → AreSegments asked segments →
        SpellsGot (first_standing input.config) (all_events (startup ∷ segments)) bytes →
        EncodesSent (all_events (startup ∷ segments)) sent →
        conversation input bytes ≡ onto sent (opens_next (talk_book input)
        (between (startup ∷ segments)) (Some q)) }
{}

/// The next message is refused exactly where it makes no legal prefix.
pub fn messages_without_a_place_are_refused()
    // Where the conversation waits with nothing passed over, and the bytes that come next make a message whole:
    // if it is refused, it makes no legal prefix,
    ensures refused { (input : TheInput) (taken sent pending more : List ℕ) (t : Talk)
        (m : Backend) → conversation input taken ≡ Waits t sent pending → t.passed ≡ [] →
        Spells (standing_of input.config (said t)).version m (pending ++ more) →
        HasRefused (conversation input (taken ++ more)) →
        IsLegalPrefix input (said t ++ Got m ∷ []) → ⊥ }
    // and if it makes none, it is refused.
    ensures only { (input : TheInput) (taken sent pending more : List ℕ) (t : Talk) (m : Backend) →
        conversation input taken ≡ Waits t sent pending → t.passed ≡ [] →
        Spells (standing_of input.config (said t)).version m (pending ++ more) →
        (IsLegalPrefix input (said t ++ Got m ∷ []) → ⊥) →
        HasRefused (conversation input (taken ++ more)) }
{}

/// A conversation that ends otherwise has its cause, and whatever follows completes no session; one that waits is
/// within a message, and no front of its bytes completes a session.
pub fn other_conversations_have_causes()
    ensures unexpected { (input : TheInput) (taken sent : List ℕ) (ending : Ending) (m : Backend) →
        conversation input taken ≡ Over ending sent → ending.outcome ≡ Unexpected m →
        HasNoPlace input ⊥ taken sent m × IsHopeless input taken }
    ensures unread { (input : TheInput) (taken sent : List ℕ) (ending : Ending) (why : TheRefusal) →
        conversation input taken ≡ Over ending sent → ending.outcome ≡ Unread why →
        Unreadable input taken sent why × IsHopeless input taken }
    ensures refused { (input : TheInput) (taken sent : List ℕ) (ending : Ending) (e : ClientError) →
        conversation input taken ≡ Over ending sent → ending.outcome ≡ Refused e →
        FailsAtStartup input taken sent e × IsHopeless input taken }
    ensures unencoded { (input : TheInput) (taken sent : List ℕ) (ending : Ending)
        (e : TheRefusal) → conversation input taken ≡ Over ending sent → ending.outcome
        ≡ Unencoded e →
        Unsendable input taken sent e × IsHopeless input taken }
    ensures waits { (input : TheInput) (taken sent pending : List ℕ) (t : Talk) →
        conversation input taken ≡ Waits t sent pending →
        WaitsAt input taken sent t.closed t.open_events t.passed × IsUnfinished input taken }
{}

/// What it means that no more bytes come, where a conversation waits.
pub fn the_end_of_the_bytes_has_its_error()
    ensures { (input : TheInput) (taken sent pending : List ℕ) (t : Talk) → conversation input taken
        ≡ Waits t sent pending →
        EndsAs input taken sent (end_with (first_passed t.passed) (tally_of t.open_events).remote) }
{}

/// Whatever bytes are taken, they tell one of six things, and what is to be sent by then is what their conversation put out.
pub fn all_bytes_are_told()
    ensures { (input : TheInput) (taken : List ℕ) →
        BytesTell input taken (sent_of (conversation input taken)) }
{}

/// Which refusals and errors a session can end with, of those that it does not make itself.
pub fn refusals_are_named()
    // The decoder's, of a server's bytes;
    ensures bytes { (input : TheInput) (taken sent : List ℕ) (why : TheRefusal) →
        Unreadable input taken sent why → IsByteFault why }
    // the encoder's, of a message that is due;
    ensures due { (input : TheInput) (taken sent : List ℕ) (why : TheRefusal) →
        Unsendable input taken sent why → IsDueFault why }
    // and those of the startup segment.
    ensures startup { (input : TheInput) (taken sent : List ℕ) (e : ClientError) →
        FailsAtStartup input taken sent e → IsStartupError e }
{}

/// Each message of a valid input can be sent.
pub fn valid_input_can_be_sent()
    // It demands nothing that is refused.
    ensures demands { (input : TheInput) → IsValidInput input → refused_config input.config ≡ None }
    ensures transcripts { (input : TheInput) (segments : List (List Event)) → IsValidInput input →
        IsTranscript input segments → CanLogIn (sents (all_events segments)) →
        (bytes : List ℕ) × EncodesSent (all_events segments) bytes }
    // An MD5 password always can.
    ensures md5 { (input : TheInput) (salt : List ℕ) → IsLoginValid (md5_message input salt) }
    ensures prefixes { (input : TheInput) (es : List Event) → IsValidInput input →
        IsLegalPrefix input es → CanLogIn (sents es) → (bytes : List ℕ) × EncodesSent es bytes }
    // So spellings of a transcript's messages complete it,
    ensures completes { (input : TheInput) (segments : List (List Event)) (bytes more : List ℕ) →
        IsValidInput input → IsTranscript input segments → CanLogIn (sents (all_events segments)) →
        SpellsGot (first_standing input.config) (all_events segments) bytes →
        Completes input (length bytes) (bytes ++ more) segments }
    // and no conversation ends for want of an encoding, but of a message to log in with.
    ensures never_unencoded { (input : TheInput) (taken sent : List ℕ) (ending : Ending)
        (e : TheRefusal) → IsValidInput input →
        conversation input taken ≡ Over ending sent → ending.outcome ≡ Unencoded e →
        (due : List Frontend) × (encodings due ≡ Err e) × (CanLogIn due → ⊥) }
{}

/// What a client is told counts up to the first ReadyForQuery, or as it was told last.
pub fn standings_are_told()
    // The version that a server offers before its first ReadyForQuery is that under which the next message is read.
    ensures version { (config : TheConfig) (es : List Event) (m : TheOffer) (version : TheVersion) →
        IsUnready es → negotiated_version m.newest_minor_protocol ≡ Some version →
        (standing_of config (es ++ Got (backend.NegotiateProtocolVersion m) ∷ [])).version
        ≡ version }
    ensures key { (config : TheConfig) (es : List Event) (m : TheKey) → IsUnready es →
        ((standing_of config (es ++ Got (backend.BackendKeyData m) ∷ [])).process_id ≡ m.pid)
        × ((standing_of config (es ++ Got (backend.BackendKeyData m) ∷ [])).secret_key
        ≡ m.secret_key) }
    // Behind a ReadyForQuery nothing changes version, process number and key.
    ensures settled { (config : TheConfig) (es more : List Event) (ready : TheReady) →
        IsSameConnection (standing_of config (es ++ Got (backend.ReadyForQuery ready) ∷ more))
        (standing_of config es) }
    ensures status { (config : TheConfig) (es more : List Event) (ready : TheReady) →
        IsUnready more → (standing_of config (es
        ++ Got (backend.ReadyForQuery ready) ∷ more)).status ≡ ready.status }
    ensures parameter { (config : TheConfig) (es more : List Event) (m : TheParameter) →
        SetsNone m.name more →
        map.get (standing_of config (es ++ Got (backend.ParameterStatus m) ∷ more)).parameters
        m.name ≡ Some m.value }
{}

/// A segment's error is its first ErrorResponse.
pub fn the_first_error_is_kept()
    ensures { (es : List Event) → (tally_of es).remote ≡ first_error es }
{}

/// What a client notes of the bytes is a view of their conversation.
pub fn notes_tell_the_conversation()
    ensures { (input : TheInput) (bytes : List ℕ) → noted_of input bytes
        ≡ map_course (view input) (map_end (view input)) (conversation input bytes) }
{}

/// Where a hash of the server's certificate is given, to bind is not forbidden and the server offers it, the client's last
/// message of a SCRAM login has the binding text of that hash.
pub fn a_bound_login_is_bound_to_the_clients_own_hash()
    ensures { (input : TheInput) (methods : List (List ℕ)) (hash first salt : List ℕ)
        (parts : TheFirst) →
        (input.config).certificate_hash ≡ Some hash → (input.config).channel_binding
        ≢ channel_binding.Disable →
        offers (codes "SCRAM-SHA-256-PLUS") methods ≡ true → read_server_first first ≡ Ok parts →
        salt_of parts.salt ≡ Some salt →
        BindsTo hash parts.nonce (client_final (scram_login input methods) first) }
{}

/// Where a session's login can be bound, it is: behind a request to log in by methods of which one binds, the startup
/// segment has a login by that method, with the binding text of the client's own hash, and nothing is sent besides.
pub fn sessions_are_bound_where_it_is_offered()
    ensures { (input : TheInput) (es before later : List Event) (methods : List (List ℕ))
        (hash : List ℕ) → IsStartupSegment input es →
        (input.config).certificate_hash ≡ Some hash → (input.config).channel_binding
        ≢ channel_binding.Disable →
        es ≡ before ++ Got (backend.Authentication (authentication.SASL methods)) ∷ later →
        offers (codes "SCRAM-SHA-256-PLUS") methods ≡ true → LogsInBound input hash before es }
{}

/// Where it must be bound, the startup segment has such a login, nothing lets the client in before it, and nothing is sent
/// besides: no password, and no login that is not bound.
pub fn sessions_are_bound_where_it_is_required()
    ensures { (input : TheInput) (es : List Event) → (input.config).channel_binding
        ≡ channel_binding.Require → IsStartupSegment input es →
        (hash : List ℕ) × ((input.config).certificate_hash ≡ Some hash) × (before : List Event)
        × LetsNoneIn before × LogsInBound input hash before es }
{}

/// Where a login can end, all that stands before its login block goes on to a whole transcript. So what is early is a
/// legal prefix for its own sake only where a login must be bound and cannot end.
pub fn what_is_early_goes_on()
    ensures part { (input : TheInput) (es : List Event) → CanEnd input → IsEarly input es →
        IsTranscriptPart input es }
    // The server's next message is awaited there.
    ensures turn { (input : TheInput) (es : List Event) → CanEnd input → IsBegun input es →
        SessionGoesOn input [] es }
{}
