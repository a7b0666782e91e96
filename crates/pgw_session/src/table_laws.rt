//! What holds of the table of requests.
ghost use Rattle.std.specs.Prelude.{◌≡◌, ℕ, Bool, List, ◌∷◌, ◌++◌};
ghost use Rattle.pgw_backend.specs.declared.backend.PgWireBackendMessage.{PgWireBackendMessage as Backend};
ghost use Rattle.pgw_backend.specs.declared.backend.PgWireBackendMessage.TheVariants as backend;
ghost use Rattle.pgw_query.specs.declared.data.DataRow.{DataRow as TheRow};
ghost use Rattle.pgw_session.specs.declared.types.Request.{Request as TheRequest};
ghost use Rattle.pgw_session.specs.declared.types.Request.TheVariants as request;
ghost use Rattle.pgw_session.specs.declared.stage.Role.TheVariants.{Taken};
ghost use Rattle.pgw_session.specs.Events.{Event, Got};
ghost use Rattle.pgw_session.specs.Requests.{kind_of, role, behind_error};
ghost use Rattle.pgw_session.specs.Segments.{IsRequestSegment};
ghost use Rattle.pgw_session.specs.Flow.{may_come, is_placed, ends_answer, completes_portal, is_error, is_described_behind, sync_behind_error, is_closing, is_completing, is_failing};
ghost use Rattle.pgw_session.specs.Flow.{HasNoError, EndsDescribed, EndsIn, DescribesPortal, rounds_asked, rounds_ended};

/// A message has a place in a request's segment exactly where it answers a message of that request, may come at any
/// time, or is taken besides; but for a row of a simple query that nothing describes.
pub fn requests_take_their_answers()
    ensures { (q : TheRequest) (described : Bool) (m : Backend) →
        is_placed (role (kind_of q) described m) ≡ may_come q described m }
{}

/// What a message does to the answer of a request, by the documentation.
pub fn messages_have_their_roles()
    // It closes the segment exactly where it ends the answer,
    ensures closing { (q : TheRequest) (described : Bool) (m : Backend) →
        is_closing (role (kind_of q) described m) ≡ ends_answer q m }
    // completes it exactly where it completes the portal that was executed,
    ensures completing { (q : TheRequest) (described : Bool) (m : Backend) →
        is_completing (role (kind_of q) described m) ≡ completes_portal q m }
    // and fails the request exactly where it is an error.
    ensures failing { (q : TheRequest) (described : Bool) (m : Backend) →
        is_failing (role (kind_of q) described m) ≡ is_error m }
    // Where it is taken, rows may come behind it exactly where they are described there.
    ensures taken { (q : TheRequest) (described behind : Bool) (m : Backend) →
        role (kind_of q) described m ≡ Taken behind → behind ≡ is_described_behind q described m }
{}

/// Behind an error Sync is sent where the request had neither Query nor Sync, and nothing where it had one.
pub fn sync_is_sent_behind_errors()
    ensures { (q : TheRequest) → behind_error (kind_of q) ≡ sync_behind_error q }
{}

/// In a simple query, each row up to the first error stands behind a description, with no command completed between.
pub fn rows_are_described()
    ensures { (query : List ℕ) (es before behind : List Event) (row : TheRow) →
        IsRequestSegment (request.Simple query) es → es ≡ before
        ++ Got (backend.DataRow row) ∷ behind → HasNoError before →
        EndsDescribed before }
{}

/// A request's segment ends at its first ReadyForQuery, or where the answer to what was flushed has come.
pub fn segments_end_once()
    ensures { (q : TheRequest) (es : List Event) → IsRequestSegment q es → EndsIn q es }
{}

/// In a request's segment one ReadyForQuery is got for each Query and Sync that was sent. Where a portal is described, one
/// is taken unasked too.
pub fn rounds_are_answered()
    ensures { (q : TheRequest) (es : List Event) → (DescribesPortal q → ⊥) → IsRequestSegment q es →
        rounds_asked es ≡ rounds_ended es }
{}
