//! What holds of dialogues.
ghost use Rattle.std.specs.Prelude.{◌≡◌, ◌⊎◌, ◌<◌, ℕ, List, [], ◌++◌, length};
ghost use Rattle.pgw_dialogue.specs.Machine.{report_at};
ghost use Rattle.pgw_session.specs.Failures.{BytesTell, WaitsStill};
ghost use Rattle.pgw_session.specs.Input.{Input as TheInput};
ghost use Rattle.pgw_session.specs.Transcript.{Completed};
ghost use Rattle.pgw_dialogue.specs.declared.dialogue.Dialogue.{Dialogue as TheDialogue};
ghost use Rattle.pgw_dialogue.specs.Answers.{taken_of};
ghost use Rattle.pgw_dialogue.specs.Dialogue.{Awaits, IsDone, IsStarved, Stands};

/// What holds of every pair of bytes given and bytes put out that a dialogue stands for.
pub fn dialogues_tell()
    // The bytes taken tell one of six things. What was put out are the encodings of the messages to be sent by then: all of
    // them, or a front of them where memory was wanting.
    ensures told { (input : TheInput) (limit : ℕ) (d : TheDialogue) (given put : List ℕ) →
        Stands input limit d given put →
        (unsent : List ℕ) × BytesTell input (taken_of limit given) (put ++ unsent)
        × (IsStarved d ⊎ (unsent ≡ [])) }
    // One that awaits more bytes is within a message, with nothing due, and below its limit.
    ensures awaits { (input : TheInput) (limit : ℕ) (d : TheDialogue) (given put : List ℕ) →
        Awaits d → Stands input limit d given put → WaitsStill input given put
        × (length given < limit) }
    // One that is done has a completed session.
    ensures done { (input : TheInput) (limit : ℕ) (d : TheDialogue) (given put : List ℕ) →
        IsDone d → Stands input limit d given put →
        Completed input (taken_of limit given) put (report_at d.notes) }
{}

/// However the bytes given are cut, where memory sufficed the same is put out.
pub fn cuts_do_not_matter()
    ensures { (input : TheInput) (limit : ℕ) (one other : TheDialogue) (given put too : List ℕ) →
        Stands input limit one given put → Stands input limit other given too →
        (IsStarved one → ⊥) → (IsStarved other → ⊥) → put ≡ too }
{}
