//! What a script may have at a line, in words for people.

use crate::pair_script::{PairPlace, pair_may_follow};
use crate::pool_script::{PoolPlace, pool_may_follow};
use crate::relay_script::{RelayPlace, relay_may_follow};
use crate::script::{Place, may_follow};
use std::str;

// The script's line with this number, and the line before it.
fn lines_at(text: &[u8], number: u64) -> (&[u8], &[u8]) {
    let mut before: &[u8] = b"";
    let mut line: &[u8] = b"";
    let mut lines = text.split(|byte| *byte == b'\n');
    for _ in 0..number {
        before = line;
        line = lines.next().unwrap_or(b"");
    }
    (before, line)
}

// A line's first word, where it is a text.
fn first_word(line: &[u8]) -> &str {
    let word = line.split(|byte| *byte == b' ').next().unwrap_or(b"");
    str::from_utf8(word).unwrap_or("")
}

// The kind of the lines that begin with this word.
fn place_named(word: &str) -> Option<Place> {
    match word {
        "config" => Some(Place::Config),
        "protocol" => Some(Place::Protocol),
        "certificate" => Some(Place::Certificate),
        "nonce" => Some(Place::Nonce),
        "limit" => Some(Place::Limit),
        "cut" => Some(Place::Cut),
        "fail" => Some(Place::Fail),
        "server" => Some(Place::Server),
        "simple" | "prepare" | "bind" | "execute" | "describe" | "close" | "query" => {
            Some(Place::Request)
        }
        _ => None,
    }
}

// The lines that may stand behind one of this kind.
fn behind(place: Place) -> &'static str {
    match place {
        Place::Start => "\"config TEXT\" first",
        Place::Config => {
            "\"protocol 3.0\", 3.2 or 3.9999, \"certificate HEX\" or \"nonce HEX\" after config"
        }
        Place::Protocol => "\"certificate HEX\" or \"nonce HEX\" after protocol",
        Place::Certificate => "\"nonce HEX\" after certificate",
        Place::Nonce => "\"limit N\" after nonce",
        Place::Limit => "\"cut N\" after limit",
        Place::Cut => { "\"fail read N\", \"fail write N\", a request or \"server HEX\" after cut" }
        Place::Fail => {
            "\"fail read N\", \"fail write N\", a request or \"server HEX\" after fail"
        }
        Place::Request => "a request or \"server HEX\" after a request",
        Place::Server => "\"server HEX\" after server",
    }
}

// The form of a request that begins with this word.
fn request_form(word: &str) -> &'static str {
    match word {
        "simple" => "\"simple SQL\", a text in UTF-8",
        "prepare" => "\"prepare NAME OIDS SQL\"",
        "bind" => "\"bind PORTAL STATEMENT PARAMS FORMATS\"",
        "execute" => "\"execute PORTAL ROWS\", a number of 32 bits",
        "describe" => "\"describe s NAME\" or \"describe p NAME\"",
        "close" => "\"close s NAME\" or \"close p NAME\"",
        _ => "\"query OIDS PARAMS SQL\"",
    }
}

// The form of a line that begins with this word.
fn form(word: &str) -> &'static str {
    match word {
        "config" => "\"config TEXT\", a text in UTF-8",
        "protocol" => "\"protocol 3.0\", 3.2 or 3.9999",
        "certificate" => "\"certificate HEX\", two hex digits for each byte",
        "nonce" => "\"nonce HEX\", 36 hex digits",
        "limit" => "\"limit N\", a number of 64 bits",
        "cut" => "\"cut N\", a number from 1 to 65536",
        "fail" => "\"fail read N\" or \"fail write N\", a number of 64 bits",
        "server" => "\"server HEX\", two hex digits for each byte",
        _ => request_form(word),
    }
}

// What stands out in a line that is outside the grammar.
fn found(line: &[u8]) -> &'static str {
    match line {
        [] => ", found nothing",
        [.., b'\r'] => ", found a carriage return at the end",
        _ => "",
    }
}

/// What was expected of a session script where the line with this number is the first outside the grammar, and what
/// stands out in its place.
pub fn expected_at(text: &[u8], number: u64) -> (&'static str, &'static str) {
    let (before, line) = lines_at(text, number);
    let last = place_named(first_word(before)).unwrap_or(Place::Start);
    let word = first_word(line);
    let expected = match place_named(word) {
        Some(next) if may_follow(last, next) => form(word),
        _ => behind(last),
    };
    (expected, found(line))
}

// The kind of the lines of a pair script that begin with this word.
fn pair_place_named(word: &str) -> Option<PairPlace> {
    match word {
        "user" => Some(PairPlace::User),
        "password" => Some(PairPlace::Password),
        "stored" => Some(PairPlace::Stored),
        "salt" => Some(PairPlace::Salt),
        "count" => Some(PairPlace::Count),
        "client" => Some(PairPlace::Client),
        "server" => Some(PairPlace::Server),
        "words" => Some(PairPlace::Words),
        "client-hash" => Some(PairPlace::ClientHash),
        "server-hash" => Some(PairPlace::ServerHash),
        "to-server" | "to-client" => Some(PairPlace::Event),
        _ => None,
    }
}

// The lines of a pair script that may stand behind one of this kind.
fn behind_in_pair(place: PairPlace) -> &'static str {
    match place {
        PairPlace::Start => "\"user TEXT\" first",
        PairPlace::User => "\"password TEXT\" after user",
        PairPlace::Password => "\"stored TEXT\" after password",
        PairPlace::Stored => "\"salt HEX\" after stored",
        PairPlace::Salt => "\"count N\" after salt",
        PairPlace::Count => "\"client HEX\" after count",
        PairPlace::Client => "\"server HEX\" after client",
        PairPlace::Server => "\"words HEX\" after server",
        PairPlace::Words => {
            "\"client-hash HEX\", \"server-hash HEX\", \"to-server N\" or \"to-client N\" after words"
        }
        PairPlace::ClientHash => {
            "\"server-hash HEX\", \"to-server N\" or \"to-client N\" after client-hash"
        }
        PairPlace::ServerHash => "\"to-server N\" or \"to-client N\" after server-hash",
        PairPlace::Event => "\"to-server N\" or \"to-client N\" after an event",
    }
}

// The form of a line of a pair script that begins with this word.
fn pair_form(word: &str) -> &'static str {
    match word {
        "user" => "\"user TEXT\", a text in UTF-8",
        "password" => "\"password TEXT\", a text in UTF-8",
        "stored" => "\"stored TEXT\", a text in UTF-8",
        "salt" => "\"salt HEX\", two hex digits for each byte",
        "count" => "\"count N\", a number from 1 to 4294967295",
        "client" => "\"client HEX\", 36 hex digits",
        "server" => "\"server HEX\", 36 hex digits",
        "words" => "\"words HEX\", 64 hex digits",
        "client-hash" => "\"client-hash HEX\", two hex digits for each byte",
        "server-hash" => "\"server-hash HEX\", two hex digits for each byte",
        _ => "\"to-server N\" or \"to-client N\", a number of 32 bits",
    }
}

/// What was expected at a line of a pair script.
pub fn expected_in_pair_at(text: &[u8], number: u64) -> (&'static str, &'static str) {
    let (before, line) = lines_at(text, number);
    let last = pair_place_named(first_word(before)).unwrap_or(PairPlace::Start);
    let word = first_word(line);
    let expected = match pair_place_named(word) {
        Some(next) if pair_may_follow(last, next) => pair_form(word),
        _ => behind_in_pair(last),
    };
    (expected, found(line))
}

// The kind of the lines of a relay script that begin with this word.
fn relay_place_named(word: &str) -> Option<RelayPlace> {
    match word {
        "cut" => Some(RelayPlace::Cut),
        "client" => Some(RelayPlace::Client),
        "server" => Some(RelayPlace::Server),
        "turns" => Some(RelayPlace::Turns),
        _ => None,
    }
}

// The lines of a relay script that may stand behind one of this kind.
fn behind_in_relay(place: RelayPlace) -> &'static str {
    match place {
        RelayPlace::Start => "\"cut N\" first",
        RelayPlace::Cut => "\"client HEX\", \"server HEX\" or \"turns LETTERS\" after cut",
        RelayPlace::Client => "\"client HEX\", \"server HEX\" or \"turns LETTERS\" after client",
        RelayPlace::Server => "\"server HEX\" or \"turns LETTERS\" after server",
        RelayPlace::Turns => "nothing after turns",
    }
}

// The form of a line of a relay script that begins with this word.
fn relay_form(word: &str) -> &'static str {
    match word {
        "cut" => "\"cut N\", a number from 1 to 65536",
        "client" => "\"client HEX\", two hex digits for each byte",
        "server" => "\"server HEX\", two hex digits for each byte",
        _ => "\"turns LETTERS\", each of them c or s",
    }
}

/// What was expected at a line of a relay script.
pub fn expected_in_relay_at(text: &[u8], number: u64) -> (&'static str, &'static str) {
    let (before, line) = lines_at(text, number);
    let last = relay_place_named(first_word(before)).unwrap_or(RelayPlace::Start);
    let word = first_word(line);
    let expected = match relay_place_named(word) {
        Some(next) if relay_may_follow(last, next) => relay_form(word),
        _ => behind_in_relay(last),
    };
    (expected, found(line))
}

// The kind of the lines of a pool script that begin with this word.
fn pool_place_named(word: &str) -> Option<PoolPlace> {
    match word {
        "config" => Some(PoolPlace::Config),
        "nonce" => Some(PoolPlace::Nonce),
        "limit" => Some(PoolPlace::Limit),
        "cut" => Some(PoolPlace::Cut),
        "server" => Some(PoolPlace::Server),
        "lend" | "run" | "back" => Some(PoolPlace::Call),
        _ => None,
    }
}

// The lines of a pool script that may stand behind one of this kind.
fn behind_in_pool(place: PoolPlace) -> &'static str {
    match place {
        PoolPlace::Start => "\"config TEXT\" first",
        PoolPlace::Config => "\"nonce HEX\" after config",
        PoolPlace::Nonce => "\"limit N\" after nonce",
        PoolPlace::Limit => "\"cut N\" after limit",
        PoolPlace::Cut => "\"server HEX\" after cut",
        PoolPlace::Server => {
            "\"server HEX\", \"lend\", \"run LEASE SQL\" or \"back LEASE\" after server"
        }
        PoolPlace::Call => "\"lend\", \"run LEASE SQL\" or \"back LEASE\" after a call",
    }
}

// The form of a line of a pool script that begins with this word.
fn pool_form(word: &str) -> &'static str {
    match word {
        "config" => "\"config TEXT\", a text in UTF-8",
        "nonce" => "\"nonce HEX\", 36 hex digits",
        "limit" => "\"limit N\", a number of 64 bits",
        "cut" => "\"cut N\", a number from 1 to 65536",
        "server" => "\"server HEX\", two hex digits for each byte",
        "lend" => "\"lend\", and nothing behind it",
        "run" => "\"run LEASE SQL\", the number of a lease that is out and a text in UTF-8",
        _ => "\"back LEASE\", the number of a lease that is out",
    }
}

/// What was expected at a line of a pool script, also where a lease's number is not out there.
pub fn expected_in_pool_at(text: &[u8], number: u64) -> (&'static str, &'static str) {
    let (before, line) = lines_at(text, number);
    let last = pool_place_named(first_word(before)).unwrap_or(PoolPlace::Start);
    let word = first_word(line);
    let expected = match pool_place_named(word) {
        Some(next) if pool_may_follow(last, next) => pool_form(word),
        _ => behind_in_pool(last),
    };
    (expected, found(line))
}
