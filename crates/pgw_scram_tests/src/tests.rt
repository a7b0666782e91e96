//! Vectors of the public documents, and what each end refuses.
use crate::shared::{same, same_bytes, same_reply, same_text, sent, told};
use pgw_hash::pbkdf2::gen_salted_password;
use pgw_scram::binding::ClientBinding;
use pgw_scram::client::{
    ScramClientAuth, ScramClientAuthWaitingForServerFinal, ScramClientAuthWaitingForServerFirst,
};
use pgw_scram::exchange::{ClientLogin, client_final, client_first, client_first_bare};
use pgw_scram::messages::{ClientFinal, ClientFirst, ServerFinal, ServerFirst};
use pgw_scram::nonce::random_nonce;
use pgw_scram::password::Password;
use pgw_scram::proof::{client_proof, server_signature};
use pgw_scram::server::{SCRAM_ITERATIONS, ScramServerAuth};
use pgw_types::error::{PgWireError, PgWireResult};
use pgw_types::listed::Duplicate;
use pgw_types::memory::OutOfMemory;
use pgw_types::octets::Octets;
use pgw_types::scram_error::ScramClientResult;
use pgw_types::text::Text;
use std::alloc::Global;
use std::test::Fail;

const _: () = prove_eq!(SCRAM_ITERATIONS, 4096);

const RFC_7677_SALT: &[u8] = b"\x5b\x6d\x99\x68\x9d\x12\x35\x8e\xec\xa0\x4b\x14\x12\x36\xfa\x81";

const RFC_7677_BARE: &[u8] = b"n=user,r=rOprNGfwEbeRWgbNEkqO";

const RFC_7677_FIRST: &[u8] =
    b"r=rOprNGfwEbeRWgbNEkqO%hvYDpWUa2RaTCAfuxFIlj)hNlF$k0,s=W22ZaJ0SNY7soEsUEjb6gQ==,i=4096";

const RFC_7677_WITHOUT_PROOF: &[u8] =
    b"c=biws,r=rOprNGfwEbeRWgbNEkqO%hvYDpWUa2RaTCAfuxFIlj)hNlF$k0";

// RFC 7677, section 3.
#[test]
fn proof_and_signature(rt: HostRuntime) -> Result<(), Fail> {
    let salted = gen_salted_password(rt.alloc(), "pencil", RFC_7677_SALT, 4096)?;
    let proof = client_proof(
        &salted,
        RFC_7677_BARE,
        RFC_7677_FIRST,
        RFC_7677_WITHOUT_PROOF,
    );
    same_bytes(&proof, "dHzbZapWIk4jUhN+Ute9ytag9zjfMHgsqmmiz7AndVQ=")?;
    let signature = server_signature(
        &salted,
        RFC_7677_BARE,
        RFC_7677_FIRST,
        RFC_7677_WITHOUT_PROOF,
    );
    same_bytes(&signature, "6rriTRBi23WpRR/wtup+mMhUZUn/dB5nLTJRsjl95G4=")
}

// A password, the client's nonce, the server's first message, the client's last and the server's signature: the exchange
// of RFC 7677, section 3; that of RFC 5802, section 5, with SHA-256; and the first with another text of the server's, over
// which the proof is another. A password is prepared. All but the first were computed with Python's hashlib.
const REPLIES: &[(&str, &str, &[u8], &str, &str)] = &[
    (
        "pencil",
        "rOprNGfwEbeRWgbNEkqO",
        RFC_7677_FIRST,
        "c=biws,r=rOprNGfwEbeRWgbNEkqO%hvYDpWUa2RaTCAfuxFIlj)hNlF$k0,p=dHzbZapWIk4jUhN+Ute9ytag9zjfMHgsqmmiz7AndVQ=",
        "6rriTRBi23WpRR/wtup+mMhUZUn/dB5nLTJRsjl95G4=",
    ),
    (
        "pencil",
        "fyko+d2lbbFgONRv9qkxdawL",
        b"r=fyko+d2lbbFgONRv9qkxdawL3rfcNHYJY1ZVvWVs7j,s=QSXCR+Q6sek8bf92,i=4096",
        "c=biws,r=fyko+d2lbbFgONRv9qkxdawL3rfcNHYJY1ZVvWVs7j,p=qQRLRHGPDGjB+7iVAE7NNi5xEoHKHuLCHPNQ8BTmvds=",
        "XKW6VuW1FANROQabnJBz1KaeCnQL/HZByQtX/iU+o30=",
    ),
    (
        "pencil",
        "rOprNGfwEbeRWgbNEkqO",
        b"m=foo,r=rOprNGfwEbeRWgbNEkqO%hvYDpWUa2RaTCAfuxFIlj)hNlF$k0,s=W22ZaJ0SNY7soEsUEjb6gQ==,i=+04096",
        "c=biws,r=rOprNGfwEbeRWgbNEkqO%hvYDpWUa2RaTCAfuxFIlj)hNlF$k0,p=1h3MCWI0BqEia9EmEC71Wtm9tXa/nOv1R3vK6O5H1Gs=",
        "NRqoN7XEf11n0KY8+AybdbZ/hheoGG2rHUHA/qcw6jI=",
    ),
    (
        "\u{2168}",
        "AAAA",
        b"r=AAAABB,s=YmFy,i=12",
        "c=biws,r=AAAABB,p=vUkgpb68b4gwIbuh5NKHaEEDUrV6bQWI/slwsm955cw=",
        "CodMdpPG2KcZpYSxghj5nhhwnjMvnBCQ0jO7aVTPV7E=",
    ),
];

// Who logs in and binds nothing.
fn login(
    alloc: Global,
    user: &str,
    password: &str,
    nonce: &str,
) -> Result<ClientLogin, OutOfMemory> {
    Ok(ClientLogin {
        binding: ClientBinding::None,
        user: Text::from_str(alloc, user)?,
        password: Text::from_str(alloc, password)?,
        nonce: Text::from_str(alloc, nonce)?,
    })
}

// The client's last message, and the signature's text.
fn replied(
    alloc: Global,
    password: &str,
    nonce: &str,
    first: &[u8],
) -> ScramClientResult<(Text, [u8; 44])> {
    let login = login(alloc, "user", password, nonce)?;
    let reply = client_final(alloc, &login, first);
    drop(login);
    let reply = reply?;
    let signature = reply.signature;
    Ok((reply.message, signature))
}

#[test]
fn replies(rt: HostRuntime) -> Result<(), Fail> {
    for (password, nonce, first, message, signature) in REPLIES {
        let reply = replied(rt.alloc(), password, nonce, first);
        same_reply(reply, message, signature)?;
    }
    Ok(())
}

const NONCES: &[(&[u8; 18], &str)] = &[
    (&[0; 18], "AAAAAAAAAAAAAAAAAAAAAAAA"),
    (&[1; 18], "AQEBAQEBAQEBAQEBAQEBAQEB"),
    (
        &[0, 1, 2, 3, 4, 5, 6, 7, 8, 9, 10, 11, 12, 13, 14, 15, 16, 17],
        "AAECAwQFBgcICQoLDA0ODxAR",
    ),
];

#[test]
fn nonce_text(rt: HostRuntime) -> Result<(), Fail> {
    for (bytes, text) in NONCES {
        same_text(random_nonce(rt.alloc(), bytes), text)?;
    }
    Ok(())
}

const CLIENT_FIRSTS: &[(&[u8], &str)] = &[
    (
        b"p=tls-server-end-point,a=x,m=z,n=u=v,r=,more,s=1",
        "Ok(ClientFirst { header: Text { text: \"p=tls-server-end-point,a=x,\" }, bare: Text { text: \"m=z,n=u=v,r=,more,s=1\" }, user: Text { text: \"u=v\" }, nonce: Text { text: \"\" } })",
    ),
    (b"n,,n=\xff,r=a", "Err(InvalidScramMessage(NotUtf8))"),
    (b"", "Err(InvalidScramMessage(Grammar))"),
    (b"n,n=user,r=a", "Err(InvalidScramMessage(Grammar))"),
    (b"x,,n=user,r=a", "Err(InvalidScramMessage(Grammar))"),
    (b"n,b=x,n=user,r=a", "Err(InvalidScramMessage(Grammar))"),
    (b"n,,n=a,b,r=c", "Err(InvalidScramMessage(Grammar))"),
];

#[test]
fn client_firsts(rt: HostRuntime) -> Result<(), Fail> {
    for (message, text) in CLIENT_FIRSTS {
        same(
            told(rt.alloc(), ClientFirst::read(rt.alloc(), message)),
            text,
        )?;
    }
    Ok(())
}

const SERVER_FIRSTS: &[(&[u8], &str)] = &[
    (
        b"m=a,r=b,s=,i=4294967295,i=0",
        "Ok(ServerFirst { nonce: Text { text: \"b\" }, salt: Text { text: \"\" }, count: 4294967295 })",
    ),
    (b"r=\xc3,s=YmFy,i=12", "Err(InvalidScramMessage(NotUtf8))"),
    (b"r=b,s=YmFy", "Err(InvalidScramMessage(Grammar))"),
    (b"s=YmFy,r=b,i=12", "Err(InvalidScramMessage(Grammar))"),
    (b"e=no", "Err(InvalidScramMessage(Grammar))"),
    (b"r=b,s=YmFy,i=0", "Err(InvalidScramMessage(Count))"),
    (
        b"r=b,s=YmFy,i=4294967296",
        "Err(InvalidScramMessage(Count))",
    ),
    (b"r=b,s=YmFy,i=-1", "Err(InvalidScramMessage(Count))"),
    (b"r=b,s=YmFy,i=", "Err(InvalidScramMessage(Count))"),
];

#[test]
fn server_firsts(rt: HostRuntime) -> Result<(), Fail> {
    for (message, text) in SERVER_FIRSTS {
        same(
            told(rt.alloc(), ServerFirst::read(rt.alloc(), message)),
            text,
        )?;
    }
    Ok(())
}

const CLIENT_FINALS: &[(&[u8], &str)] = &[
    (
        b"c=biws,r=a,x=y,p=z=",
        "Ok(ClientFinal { binding: Text { text: \"biws\" }, nonce: Text { text: \"a\" }, without_proof: Text { text: \"c=biws,r=a,x=y\" }, proof: Text { text: \"z=\" } })",
    ),
    (b"c=biws,r=\xff,p=", "Err(InvalidScramMessage(NotUtf8))"),
    (b"c=biws,p=a", "Err(InvalidScramMessage(Grammar))"),
    (b"c=biws,r=a,p=b,x=y", "Err(InvalidScramMessage(Grammar))"),
    (b"r=a,c=biws,p=b", "Err(InvalidScramMessage(Grammar))"),
];

#[test]
fn client_finals(rt: HostRuntime) -> Result<(), Fail> {
    for (message, text) in CLIENT_FINALS {
        same(
            told(rt.alloc(), ClientFinal::read(rt.alloc(), message)),
            text,
        )?;
    }
    Ok(())
}

const SERVER_FINALS: &[(&[u8], &str)] = &[
    (b"v=abc,more", "Ok(Signature(Text { text: \"abc\" }))"),
    (
        b"e=other-error,v=abc",
        "Ok(Failed(Text { text: \"other-error\" }))",
    ),
    (b"v=\x80", "Err(InvalidScramMessage(NotUtf8))"),
    (b"", "Err(InvalidScramMessage(Grammar))"),
    (b"m=a,v=abc", "Err(InvalidScramMessage(Grammar))"),
];

#[test]
fn server_finals(rt: HostRuntime) -> Result<(), Fail> {
    for (message, text) in SERVER_FINALS {
        same(
            told(rt.alloc(), ServerFinal::read(rt.alloc(), message)),
            text,
        )?;
    }
    Ok(())
}

// What a client says first.
fn begun(
    alloc: Global,
    user: &str,
    password: &str,
) -> ScramClientResult<(Text, ScramClientAuthWaitingForServerFirst)> {
    let user = Text::from_str(alloc, user)?;
    let password = Text::from_str(alloc, password)?;
    ScramClientAuth::new(user, password).build_client_first(alloc, &[0; 18])
}

// What is sent of a user name is its prepared form, and it is not escaped.
const USERS: &[(&str, &str)] = &[
    ("\u{e9} =", "n,,n=\u{e9} =,r=AAAAAAAAAAAAAAAAAAAAAAAA"),
    ("a=b", "n,,n=a=b,r=AAAAAAAAAAAAAAAAAAAAAAAA"),
    ("a,b", "n,,n=a,b,r=AAAAAAAAAAAAAAAAAAAAAAAA"),
    ("", "n,,n=,r=AAAAAAAAAAAAAAAAAAAAAAAA"),
    ("\u{2168}", "n,,n=IX,r=AAAAAAAAAAAAAAAAAAAAAAAA"),
    ("a\nb", "InvalidConfig(Text { text: \"user\" })"),
];

#[test]
fn user_names(rt: HostRuntime) -> Result<(), Fail> {
    for (user, text) in USERS {
        same(sent(rt.alloc(), begun(rt.alloc(), user, "")), text)?;
    }
    Ok(())
}

#[test]
fn first_messages(rt: HostRuntime) -> Result<(), Fail> {
    let bare = client_first_bare(rt.alloc(), "bob", "abc");
    same_text(bare, "n=bob,r=abc")?;
    same_text(first_of_bob(rt.alloc()), "n,,n=bob,r=abc")
}

fn first_of_bob(alloc: Global) -> Result<Text, OutOfMemory> {
    let login = login(alloc, "bob", "", "abc")?;
    let first = client_first(alloc, &login);
    drop(login);
    first
}

// What both ends say of a name and a password that are not ASCII, and of which the password cannot be prepared. The proof
// and the signature were computed with Python's hashlib.
const USER: &str = "\u{e9} =";

const PASSWORD: &str = "\u{e9}\n=";

const FIRST: &str = "n,,n=\u{e9} =,r=AAAAAAAAAAAAAAAAAAAAAAAA";

const OFFER: &str = "r=AAAAAAAAAAAAAAAAAAAAAAAAAQEBAQEBAQEBAQEBAQEBAQEB,s=YmFy,i=12";

const LAST: &str =
    "c=biws,r=AAAAAAAAAAAAAAAAAAAAAAAAAQEBAQEBAQEBAQEBAQEBAQEB,p=gchSHWgBsYSQzXZgK3ka3fWsyPxRRLlL/O8/GIXVwo4=";

const ACCEPTED: &str = "v=TcWD4tohUtUvE5wz2Jokok+dxGL6Kxqxo2+hytTAVWo=";

// What a client says last to a server's first message.
fn ended(
    alloc: Global,
    user: &str,
    password: &str,
    offer: &[u8],
) -> ScramClientResult<(Text, ScramClientAuthWaitingForServerFinal)> {
    let begun = begun(alloc, user, password)?;
    begun.1.build_client_final(alloc, offer)
}

#[test]
fn client_accepts(rt: HostRuntime) -> Result<(), Fail> {
    same(sent(rt.alloc(), begun(rt.alloc(), USER, PASSWORD)), FIRST)?;
    let last = ended(rt.alloc(), USER, PASSWORD, OFFER.as_bytes());
    same(sent(rt.alloc(), last), LAST)
}

// A server's first message, and what `bob` with an empty password answers. The proofs were computed with Python's hashlib.
const OFFERS: &[(&[u8], &str)] = &[
    (b"r=BAAA,s=YmFy,i=12", "ScramError(NonceMismatch)"),
    (
        b"r=BAAA,s=YmFy,i=0",
        "PgWireError(InvalidScramMessage(Count))",
    ),
    (
        b"r=BAAA,s=YmFy",
        "PgWireError(InvalidScramMessage(Grammar))",
    ),
    (b"r=\xff", "PgWireError(InvalidScramMessage(NotUtf8))"),
    (b"r=BAAA,s=Y,i=1", "ScramError(NonceMismatch)"),
    (
        b"r=AAAAAAAAAAAAAAAAAAAAAAAA,s=Y,i=1",
        "ScramError(SaltNotBase64)",
    ),
    (
        b"r=AAAAAAAAAAAAAAAAAAAAAAAA,s=YmFy,i=1",
        "c=biws,r=AAAAAAAAAAAAAAAAAAAAAAAA,p=LV1AtPPgg62lH/kNXEPi8jPYzFxxz12IlnvNtrL7KgY=",
    ),
    (
        b"r=AAAAAAAAAAAAAAAAAAAAAAAAbc,s=,i=1,more",
        "c=biws,r=AAAAAAAAAAAAAAAAAAAAAAAAbc,p=0FT5u+o+u0AMf884J+T14NEkr+Q2mEA8ADb6DTG84JU=",
    ),
];

#[test]
fn client_refusals(rt: HostRuntime) -> Result<(), Fail> {
    for (offer, text) in OFFERS {
        same(sent(rt.alloc(), ended(rt.alloc(), "bob", "", offer)), text)?;
    }
    Ok(())
}

// What a client binds, its first message, and its last to an offer. The proofs were computed with Python's hashlib.
const BINDINGS: &[(Kind, &str, &str)] = &[
    (
        Kind::None,
        "n,,n=bob,r=AAAAAAAAAAAAAAAAAAAAAAAA",
        "c=biws,r=AAAAAAAAAAAAAAAAAAAAAAAA,p=LV1AtPPgg62lH/kNXEPi8jPYzFxxz12IlnvNtrL7KgY=",
    ),
    (
        Kind::NotOffered,
        "y,,n=bob,r=AAAAAAAAAAAAAAAAAAAAAAAA",
        "c=eSws,r=AAAAAAAAAAAAAAAAAAAAAAAA,p=0pCI1f2gy8p88o7iU6Xu+0y/ePdBpimN3Nrde9s5P4Y=",
    ),
    (
        Kind::EndPoint,
        "p=tls-server-end-point,,n=bob,r=AAAAAAAAAAAAAAAAAAAAAAAA",
        "c=cD10bHMtc2VydmVyLWVuZC1wb2ludCwsAAEC,r=AAAAAAAAAAAAAAAAAAAAAAAA,p=F1CGZoTYF96EWYquCEViaXHFeTQ7zsrsuVQWsqsuOy0=",
    ),
];

#[derive(Clone, Copy, Drop)]
enum Kind {
    None,
    NotOffered,
    EndPoint,
}

fn binding(alloc: Global, kind: Kind) -> Result<ClientBinding, OutOfMemory> {
    match kind {
        Kind::None => Ok(ClientBinding::None),
        Kind::NotOffered => Ok(ClientBinding::NotOffered),
        Kind::EndPoint => Ok(ClientBinding::EndPoint(Octets::from_slice(alloc, &[0, 1, 2])?)),
    }
}

// A client that has begun, with its first message.
fn begun_with(
    alloc: Global,
    kind: Kind,
) -> ScramClientResult<(Text, ScramClientAuthWaitingForServerFirst)> {
    let binding = binding(alloc, kind)?;
    let copy = binding.duplicate();
    drop(binding);
    let user = Text::from_str(alloc, "bob")?;
    let mut client = ScramClientAuth::new(user, Text::from_str(alloc, "")?);
    client.configure_channel_binding(copy?);
    let begun = client.build_client_first(alloc, &[0; 18]);
    drop(client);
    begun
}

fn ended_with(
    alloc: Global,
    kind: Kind,
) -> ScramClientResult<(Text, ScramClientAuthWaitingForServerFinal)> {
    let begun = begun_with(alloc, kind)?;
    let offer = b"r=AAAAAAAAAAAAAAAAAAAAAAAA,s=YmFy,i=1";
    let ended = begun.1.build_client_final(alloc, offer);
    drop(begun);
    ended
}

#[test]
fn client_bindings(rt: HostRuntime) -> Result<(), Fail> {
    for (kind, first, last) in BINDINGS {
        same(sent(rt.alloc(), begun_with(rt.alloc(), *kind)), first)?;
        same(sent(rt.alloc(), ended_with(rt.alloc(), *kind)), last)?;
    }
    Ok(())
}

// A server's last message, and what the client says that took the offer above.
const VERDICTS: &[(&[u8], &str)] = &[
    (b"v=TcWD4tohUtUvE5wz2Jokok+dxGL6Kxqxo2+hytTAVWo=", "Ok(())"),
    (
        b"v=TcWD4tohUtUvE5wz2Jokok+dxGL6Kxqxo2+hytTAVWo=,more",
        "Ok(())",
    ),
    (
        b"v=TcWD4tohUtUvE5wz2Jokok+dxGL6Kxqxo2+hytTAVWo",
        "Err(ScramError(SignatureMismatch))",
    ),
    (b"v=", "Err(ScramError(SignatureMismatch))"),
    (
        b"e=invalid-proof",
        "Err(ScramError(ServerError(Text { text: \"invalid-proof\" })))",
    ),
    (b"TcWD", "Err(PgWireError(InvalidScramMessage(Grammar)))"),
];

fn verified(alloc: Global, message: &[u8]) -> ScramClientResult<()> {
    let ended = ended(alloc, USER, PASSWORD, OFFER.as_bytes())?;
    ended.1.verify_server_final(alloc, message)
}

#[test]
fn verifier_refusals(rt: HostRuntime) -> Result<(), Fail> {
    for (message, text) in VERDICTS {
        same(told(rt.alloc(), verified(rt.alloc(), message)), text)?;
    }
    Ok(())
}

// A password as a server keeps it.
fn kept(alloc: Global, password: &str, salt: &[u8], count: u32) -> PgWireResult<Password> {
    let salted = gen_salted_password(alloc, password, salt, count.max(1))?;
    let salt = Octets::from_slice(alloc, salt)?;
    Ok(Password::new(Some(salt), Octets::from_slice(alloc, &salted)?))
}

fn kept_copy(alloc: Global) -> PgWireResult<Password> {
    let password = kept(alloc, PASSWORD, b"bar", 12)?;
    let copy = password.duplicate();
    drop(password);
    Ok(copy?)
}

// Whether the salt is kept, and how many bytes the password has.
fn copy_told(alloc: Global) -> PgWireResult<(bool, usize)> {
    let copy = kept_copy(alloc)?;
    let told = (
        copy.salt() == Some(b"bar".as_slice()),
        copy.password().len(),
    );
    drop(copy);
    Ok(told)
}

#[test]
fn passwords_are_kept(rt: HostRuntime) -> Result<(), Fail> {
    same(told(rt.alloc(), copy_told(rt.alloc())), "Ok((true, 32))")
}

// What a server answers to a client's last message.
fn answered(
    alloc: Global,
    server: &ScramServerAuth,
    password: &Password,
    first: &[u8],
    nonce: &[u8; 18],
    last: &[u8],
) -> PgWireResult<Text> {
    let offered = server.on_client_first_message(alloc, first, password, nonce)?;
    offered.1.on_client_final_message(alloc, last)
}

fn twelve_rounds() -> ScramServerAuth {
    let mut server = ScramServerAuth::default();
    server.set_iterations(12);
    server
}

fn offered(alloc: Global) -> PgWireResult<String> {
    let password = kept(alloc, PASSWORD, b"bar", 12)?;
    let server = twelve_rounds();
    let offered = server.on_client_first_message(alloc, FIRST.as_bytes(), &password, &[1; 18]);
    drop(server);
    drop(password);
    Ok(sent(alloc, offered)?)
}

fn accepted(alloc: Global) -> PgWireResult<Text> {
    let password = kept(alloc, PASSWORD, b"bar", 12)?;
    let server = twelve_rounds();
    let (first, last) = (FIRST.as_bytes(), LAST.as_bytes());
    let answer = answered(alloc, &server, &password, first, &[1; 18], last);
    drop(server);
    drop(password);
    answer
}

#[test]
fn server_accepts(rt: HostRuntime) -> Result<(), Fail> {
    same(offered(rt.alloc()), OFFER)?;
    same_text(accepted(rt.alloc()), ACCEPTED)
}

// A client's first message, and what a server answers that keeps no salt.
const UNSALTED: &[(&[u8], &str)] = &[
    (b"n,,n=foo,r=a", "SaltRequired"),
    (b"n,,n=foo", "InvalidScramMessage(Grammar)"),
];

fn unsalted(alloc: Global, first: &[u8]) -> PgWireResult<String> {
    let octets = Octets::from_slice(alloc, b"baz")?;
    let password = Password::new(None, octets);
    let server = ScramServerAuth::new();
    let offered = server.on_client_first_message(alloc, first, &password, &[0; 18]);
    drop(server);
    drop(password);
    Ok(sent(alloc, offered)?)
}

#[test]
fn salt_required(rt: HostRuntime) -> Result<(), Fail> {
    for (first, text) in UNSALTED {
        same(unsalted(rt.alloc(), first), text)?;
    }
    Ok(())
}

// A client's last message, and what a server answers that waits for a proof by the bytes `baz`. The last proof is right for
// the password `bar` (computed with Python's hashlib).
const PROOFS: &[(&[u8], &str)] = &[
    (b"c=biws,r=a", "Err(InvalidScramMessage(Grammar))"),
    (b"c=eSws,r=b,p=", "Err(InvalidScramMessage(ChannelBinding))"),
    (b"c=biws,r=a,p=", "Err(InvalidScramMessage(Nonce))"),
    (
        b"c=biws,r=aAAAAAAAAAAAAAAAAAAAAAAAA,p=wGh5TqqLhfK9rmqB9v8A2F1bPbUFV2HXK/N5KNZWhTA=",
        "Err(InvalidPassword(Text { text: \"foo\" }))",
    ),
];

fn baz(alloc: Global) -> Result<Password, OutOfMemory> {
    let salt = Octets::from_slice(alloc, b"salt")?;
    Ok(Password::new(Some(salt), Octets::from_slice(alloc, b"baz")?))
}

fn answer_of_baz(alloc: Global, last: &[u8]) -> PgWireResult<Text> {
    let password = baz(alloc)?;
    let server = ScramServerAuth::new();
    let answer = answered(alloc, &server, &password, b"n,,n=foo,r=a", &[0; 18], last);
    drop(server);
    drop(password);
    answer
}

#[test]
fn server_refusals(rt: HostRuntime) -> Result<(), Fail> {
    for (last, text) in PROOFS {
        same(told(rt.alloc(), answer_of_baz(rt.alloc(), last)), text)?;
    }
    Ok(())
}

// Whether a server has a certificate, a client's first message and its last, and the fault: of those that suit the server
// it is the nonce alone.
const BOUND: &[(bool, &[u8], &[u8], &str)] = &[
    (
        true,
        b"p=tls-server-end-point,,n=foo,r=",
        b"c=cD10bHMtc2VydmVyLWVuZC1wb2ludCwsAAEC,r=,p=",
        "Nonce",
    ),
    (true, b"n,,n=foo,r=", b"c=biws,r=,p=", "Nonce"),
    (false, b"y,,n=foo,r=", b"c=eSws,r=,p=", "Nonce"),
    (false, b"n,,n=foo,r=", b"c=biws,r=,p=", "Nonce"),
    (true, b"y,,n=foo,r=", b"c=eSws,r=,p=", "ChannelBinding"),
    (true, b"p=tls-unique,,n=foo,r=", b"", "ChannelBinding"),
    (
        true,
        b"p=tls-server-end-points,,n=foo,r=",
        b"",
        "ChannelBinding",
    ),
    (
        true,
        b"p=tls-server-end-point,,n=foo,r=",
        b"c=cD10bHMtc2VydmVyLWVuZC1wb2ludCws,r=,p=",
        "ChannelBinding",
    ),
    (
        false,
        b"p=tls-server-end-point,,n=foo,r=",
        b"",
        "ChannelBinding",
    ),
    (false, b"p=tls-unique,,n=foo", b"", "Grammar"),
];

fn with_hash(alloc: Global, has_certificate: bool) -> Result<ScramServerAuth, OutOfMemory> {
    let mut server = ScramServerAuth::new();
    if has_certificate {
        server.configure_certificate_hash(alloc, &[0, 1, 2])?;
    }
    Ok(server)
}

fn bound_by(
    alloc: Global,
    server: &ScramServerAuth,
    first: &[u8],
    last: &[u8],
) -> PgWireResult<Text> {
    let password = kept(alloc, "bar", b"salt", 2)?;
    let answer = answered(alloc, server, &password, first, &[0; 18], last);
    drop(password);
    answer
}

fn bound(alloc: Global, has_certificate: bool, first: &[u8], last: &[u8]) -> PgWireResult<Text> {
    let server = with_hash(alloc, has_certificate)?;
    let answer = bound_by(alloc, &server, first, last);
    drop(server);
    answer
}

// The fault in a message that was refused for one.
fn fault_of(alloc: Global, answer: PgWireResult<Text>) -> Result<String, OutOfMemory> {
    match answer {
        Err(PgWireError::InvalidScramMessage(fault)) => told(alloc, fault),
        other => told(alloc, other),
    }
}

#[test]
fn bindings(rt: HostRuntime) -> Result<(), Fail> {
    for (has_certificate, first, last, fault) in BOUND {
        let answer = bound(rt.alloc(), *has_certificate, first, last);
        same(fault_of(rt.alloc(), answer), fault)?;
    }
    Ok(())
}
