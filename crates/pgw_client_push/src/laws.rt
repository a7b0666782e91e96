//! What holds of clients.
ghost use Rattle.std.specs.Prelude.{◌≡◌, ◌⊎◌, ◌<◌, ◌++◌, ℕ, List, [], length};
ghost use Rattle.pgw_session.specs.declared.types.SessionReport.{SessionReport as TheReport};
ghost use Rattle.pgw_session.specs.Failures.{BytesTell, WaitsStill};
ghost use Rattle.pgw_session.specs.Input.{Input as TheInput};
ghost use Rattle.pgw_session.specs.Transcript.{Completed};
ghost use Rattle.pgw_client_push.specs.declared.client.PushClient.{PushClient as TheClient};
ghost use Rattle.pgw_client_push.specs.Standing.{IsIdle, IsOpen, IsStarvedPush, StandsFor};

/// What holds of every pair of bytes given and bytes put out that a client stands for.
pub fn clients_hold_sessions()
    // One that can be asked has held a session of the requests that were asked so far: the bytes given begin with spellings
    // of the messages got, those put out are the encodings of the messages sent, and together they are a transcript.
    ensures idle { (input : TheInput) (limit : ℕ) (c : TheClient) (given put : List ℕ) →
        IsIdle c → StandsFor input limit c given put →
        (report : TheReport) × Completed input given put report }
    // One whose segment is open is within a message, with nothing due, and below its limit.
    ensures waits { (input : TheInput) (limit : ℕ) (c : TheClient) (given put : List ℕ) →
        IsOpen c → StandsFor input limit c given put → WaitsStill input given put
        × (length given < limit) }
    // The bytes given tell one of six things. What was put out are the encodings of the messages to be sent by then: all of
    // them, or a front of them where memory was wanting.
    ensures told { (input : TheInput) (limit : ℕ) (c : TheClient) (given put : List ℕ) →
        StandsFor input limit c given put →
        (unsent : List ℕ) × BytesTell input given (put ++ unsent)
        × (IsStarvedPush c ⊎ (unsent ≡ [])) }
{}
