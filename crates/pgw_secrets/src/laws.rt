//! What holds of stored secrets and of files of passwords.
ghost use Rattle.std.specs.Prelude.{◌≡◌, ◌<◌, ◌≤◌, ◌^◌, ℕ, List, Ok, Err, Result};
ghost use Rattle.base64.specs.GeneralPurpose.{IsBytes};
ghost use Rattle.pgw_types.specs.declared.error.PgWireError.{PgWireError};
ghost use Rattle.pgw_scram.specs.declared.messages.ClientFinal.{ClientFinal};
ghost use Rattle.pgw_scram.specs.declared.server.ScramServerAuth.{ScramServerAuth};
ghost use Rattle.pgw_scram.specs.declared.server.ScramServerAuthWaitingForClientFinal.{ScramServerAuthWaitingForClientFinal as WaitingForClientFinal};
ghost use Rattle.pgw_scram.specs.Offers.{final_for_offer};
ghost use Rattle.pgw_scram.specs.Server.{scram_offer, accepted};
ghost use Rattle.pgw_secrets.specs.declared.secret.StoredSecret.{StoredSecret};
ghost use Rattle.pgw_secrets.specs.declared.secret.SecretFault.{SecretFault};
ghost use Rattle.pgw_secrets.specs.declared.server.StoredScramWaiting.{StoredScramWaiting};
ghost use Rattle.pgw_secrets.specs.Secret.{IsScramKey, IsStoredSecret, secret_of, stored_secret_text};
ghost use Rattle.pgw_secrets.specs.Text.{IsSecretText, IsSecretReading};
ghost use Rattle.pgw_secrets.specs.declared.password_file.Entry.{Entry};
ghost use Rattle.pgw_secrets.specs.PasswordFile.{IsFile};
ghost use Rattle.pgw_secrets.specs.Lookup.{IsFound};
ghost use Rattle.std.specs.Prelude.{Bool, Option};
ghost use Rattle.pgw_secrets.specs.Server.{stored_offer as stored_offered, AcceptsStored, Proves};
ghost use Rattle.pgw_secrets.specs.Comparison.{storing, kept_password, stored_of, in_its_place, HashesAlone};

/// The text of a secret tells it.
pub fn a_secrets_text_tells_it()
    ensures { (secret : StoredSecret) → IsStoredSecret secret →
        IsSecretText (stored_secret_text secret) secret }
{}

/// A text has one reading, be it a secret or a fault.
pub fn a_text_has_one_reading()
    ensures { (text : List ℕ) (one other : Result StoredSecret SecretFault) →
        IsSecretReading text one
        → IsSecretReading text other → one ≡ other }
{}

/// What is made of a password has a text that tells it.
pub fn a_made_secret_is_kept()
    ensures { (password salt : List ℕ) (count : ℕ) → 1 ≤ count → count < 2 ^ 32 → IsBytes salt
        → IsStoredSecret (secret_of password salt count) }
{}

/// A server that keeps the secret of a SaltedPassword sends the first message that one with the SaltedPassword does, or
/// gives the same refusal.
pub fn a_secret_offers_what_its_password_does()
    ensures { (server : ScramServerAuth) (salt salted own message : List ℕ)
        → stored_offered (storing server salt salted) message own
        ≡ in_its_place (scram_offer server message (kept_password salt salted) own) }
{}

/// The server that waits has a key of 32 bytes.
pub fn a_waiting_server_has_a_key()
    ensures { (server : ScramServerAuth) (salt salted own message text : List ℕ)
        (waits : WaitingForClientFinal)
        → scram_offer server message (kept_password salt salted) own ≡ Ok (text, waits)
        → IsScramKey waits.client_key }
{}

/// Each last message has one answer.
pub fn a_last_message_has_one_answer()
    ensures { (server : StoredScramWaiting) (message : List ℕ)
        (one other : Result (List ℕ) PgWireError)
        → AcceptsStored server message one → AcceptsStored server message other → one ≡ other }
{}

/// What is refused before the proof is refused alike.
pub fn a_secret_refuses_alike_before_the_proof()
    ensures { (server : WaitingForClientFinal) (message : List ℕ) (e : PgWireError)
        → final_for_offer server.offer message ≡ Err e
        → (accepted server message ≡ Err e) × AcceptsStored (stored_of server) message (Err e) }
{}

/// Where the SaltedPassword's server accepts a proof, the secret's does, with the same last message.
pub fn a_secret_accepts_what_its_password_does()
    ensures { (server : WaitingForClientFinal) (message final : List ℕ) →
        IsScramKey server.client_key
        → accepted server message ≡ Ok final → AcceptsStored (stored_of server) message (Ok final) }
{}

/// Where a secret's server accepts, the proof with the client's signature taken off hashes to the stored key.
pub fn an_accepted_proof_hashes_to_the_stored_key()
    ensures { (server : StoredScramWaiting) (message final : List ℕ)
        → AcceptsStored server message (Ok final)
        → (parts : ClientFinal) × (final_for_offer server.offer message ≡ Ok parts) ×
        Proves server parts }
{}

/// Where no other 32 bytes hash to what the client's key does, both answer the same.
pub fn a_secret_answers_alike_where_its_key_hashes_alone()
    ensures { (server : WaitingForClientFinal) (message : List ℕ) → IsScramKey server.client_key
        → HashesAlone server.client_key
        → AcceptsStored (stored_of server) message (accepted server message) }
{}

/// A file has one list of entries.
pub fn a_file_has_one_reading()
    ensures { (file : List ℕ) (one other : List Entry) → IsFile file one → IsFile file other
        → one ≡ other }
{}

/// A look-up has one answer.
pub fn a_look_up_has_one_answer()
    ensures { (test : Entry → Bool) (entries : List Entry) (one other : Option (List ℕ))
        → IsFound test entries one → IsFound test entries other → one ≡ other }
{}
