//! What sessions over links and dialogues have in common.
ghost use Rattle.std.specs.Prelude.{◌≡◌, ℕ, List, ◌++◌, Option, Some, Result, IsErrOf};
ghost use Rattle.pgw_backend.specs.declared.client_error.PgWireClientError.{PgWireClientError as ClientError};
ghost use Rattle.pgw_backend.specs.declared.client_error.PgWireClientError.TheVariants as client;
ghost use Rattle.pgw_client.specs.SessionSteps.{LinkSession};
ghost use Rattle.pgw_dialogue.specs.declared.dialogue.Dialogue.{Dialogue as TheDialogue};
ghost use Rattle.pgw_dialogue.specs.Dialogue.{Agrees, IsStarved, Stands};
ghost use Rattle.pgw_link.specs.Tape.{Tape as TheTape};
ghost use Rattle.pgw_link.specs.Foresight.{TapeEnds, Foreseen};
ghost use Rattle.pgw_session.specs.declared.types.SessionReport.{SessionReport as TheReport};
ghost use Rattle.pgw_session.specs.Input.{Input as TheInput};

/// A session over a link, and a dialogue that was given some bytes in whatever pieces, of which the session took a front,
/// and all of them where it met the link's end: where no call of the link failed and memory sufficed they write the same,
/// and answer the same. So it is of the bytes that the session took from a socket, and of all that a link in memory has.
pub fn dialogues_are_sessions()
    ensures sent { (input : TheInput) (limit : ℕ) (old new : TheTape)
        (result : Result TheReport ClientError) →
        (d : TheDialogue) (given put : List ℕ) (left : Option (List ℕ)) →
        LinkSession input limit old new result →
        Foreseen (Some given) left old new → TapeEnds left old new →
        (IsErrOf result client.IoError → ⊥) → (IsErrOf result client.OutOfMemory → ⊥) →
        Stands input limit d given put → (IsStarved d → ⊥) → new.wrote ≡ old.wrote ++ put }
    ensures answered { (input : TheInput) (limit : ℕ) (old new : TheTape)
        (result : Result TheReport ClientError) →
        (d : TheDialogue) (given put : List ℕ) (left : Option (List ℕ)) →
        LinkSession input limit old new result →
        Foreseen (Some given) left old new → TapeEnds left old new →
        (IsErrOf result client.IoError → ⊥) → (IsErrOf result client.OutOfMemory → ⊥) →
        Stands input limit d given put → (IsStarved d → ⊥) → Agrees input limit d given result }
{}
