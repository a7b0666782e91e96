//! What holds of the messages and of both ends.
ghost use Rattle.std.specs.Prelude.{◌≡◌, ◌↔◌, ℕ, List, Some, true, Result};
ghost use Rattle.pgw_types.specs.declared.error.ScramMessageFault.{ScramMessageFault};
ghost use Rattle.pgw_scram.specs.declared.client.ScramClientAuth.{ScramClientAuth};
ghost use Rattle.pgw_scram.specs.declared.password.Password.{Password};
ghost use Rattle.pgw_scram.specs.declared.server.ScramServerAuth.{ScramServerAuth};
ghost use Rattle.pgw_scram.specs.declared.messages.ClientFirst.{ClientFirst};
ghost use Rattle.pgw_scram.specs.declared.messages.ServerFirst.{ServerFirst};
ghost use Rattle.pgw_scram.specs.declared.messages.ClientFinal.{ClientFinal};
ghost use Rattle.pgw_scram.specs.declared.messages.ServerFinal.{ServerFinal};
ghost use Rattle.pgw_scram.specs.Messages.{IsClientFirst, IsClientFinal, IsServerFinal, IsScramReading, IsServerFirstReading};
ghost use Rattle.pgw_scram.specs.Readers.{read_client_first, read_server_first, read_client_final, read_server_final};
ghost use Rattle.pgw_scram.specs.Offers.{is_bound};
ghost use Rattle.pgw_scram.specs.Honest.{AreHonest, BothAccept, LetsIn, BoundTo};

/// A message is read just as its form says, so in one way, or it has one fault.
pub fn client_first_has_one_reading()
    ensures { (message : List ℕ) (reading : Result ClientFirst ScramMessageFault) →
        (read_client_first message ≡ reading) ↔ IsScramReading IsClientFirst message reading }
{}

pub fn server_first_has_one_reading()
    ensures { (message : List ℕ) (reading : Result ServerFirst ScramMessageFault) →
        (read_server_first message ≡ reading) ↔ IsServerFirstReading message reading }
{}

pub fn client_final_has_one_reading()
    ensures { (message : List ℕ) (reading : Result ClientFinal ScramMessageFault) →
        (read_client_final message ≡ reading) ↔ IsScramReading IsClientFinal message reading }
{}

pub fn server_final_has_one_reading()
    ensures { (message : List ℕ) (reading : Result ServerFinal ScramMessageFault) →
        (read_server_final message ≡ reading) ↔ IsScramReading IsServerFinal message reading }
{}

/// Where the server keeps the SaltedPassword of the client's password and both agree on what is bound,
/// both ends accept, whatever the nonces are.
pub fn honest_ends_accept()
    ensures { (client : ScramClientAuth) (server : ScramServerAuth) (password : Password)
        (client_nonce server_nonce : List ℕ) → AreHonest client server password →
        BothAccept client server password client_nonce server_nonce }
{}

/// A server with a hash of its certificate lets a client in that binds its login only behind the
/// binding text of that hash.
pub fn a_bound_login_is_bound_to_the_servers_own_hash()
    ensures { (server : ScramServerAuth) (password : Password)
        (nonce client_first client_final hash : List ℕ) → server.certificate_hash ≡ Some hash →
        (run : LetsIn server password nonce client_first client_final) → is_bound run.first.header
        ≡ true → BoundTo hash run.first run.answer }
{}
