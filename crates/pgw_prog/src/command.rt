//! The commands, by the words of the command line.
ghost use Rattle.std.specs.Prelude.{◌≡◌, ◌≤◌, ◌∷◌, [], map, string_bytes, IfOk, IfSome};
ghost use Rattle.pgw_prog.specs.Command.{command_for, command_named as named, connect_for, gen_for, passfile_for, passfile_with, queries_of as requests_for, secret_for, secret_with, up_to, IsSessionCommand, IsSoundCommand};

use crate::passfile::Asked;
use pgw_client::Request;
use pgw_prog_script::number::read_number;
use pgw_types::listed::Listed;
use pgw_types::memory::OutOfMemory;
use pgw_types::text::Text;
use std::alloc::Global;
use std::mem::replace;

// The most rows that a session of any size may have.
const MOST_ROWS: u32 = 1000000;

/// What the program is asked to do. It may hold a password, and shows none by `Debug`, which it has not.
#[derive(Drop)]
pub enum Command {
    Help,
    Version,
    /// Holds the session of a script.
    Script,
    /// Holds the login of a pair script.
    Pair,
    /// Runs the proxy of a relay script.
    Relay,
    /// Makes the calls of a pool script.
    Pool,
    /// Holds a session with a server.
    Connect(Connection),
    /// Holds a session of so many rows that follow from a number.
    Gen(u32, u32),
    /// Makes the stored secret of a password.
    Secret(NewSecret),
    /// Looks a password up in a file.
    Passfile(Asked),
    /// The words are no command.
    Usage,
}

/// A session with the server that a connection text names: the most bytes to read, and simple queries.
#[derive(Drop)]
pub struct Connection {
    pub text: Text,
    pub limit: u64,
    pub requests: Listed<Request>,
}

/// A password, and how often it is hashed.
#[derive(Drop)]
pub struct NewSecret {
    pub password: Text,
    pub count: u32,
}

fn command_named(word: &str) -> Command
    ensures named { result ≡ named word.now }
    ensures sound { IsSoundCommand result }
{
    if word == "script" {
        Command::Script
    } else if word == "pair" {
        Command::Pair
    } else if word == "relay" {
        Command::Relay
    } else if word == "pool" {
        Command::Pool
    } else if word == "--help" {
        Command::Help
    } else if word == "--version" {
        Command::Version
    } else {
        Command::Usage
    }
}

// A simple query of each text.
fn queries_of(alloc: Global, texts: &[String]) -> Result<Listed<Request>, OutOfMemory>
    ensures { IfOk result (λ list. list ≡ requests_for (map string_bytes texts.now)) }
{
    let mut requests = Listed::new(alloc);
    for text in texts {
        requests.push(Request::Simple(Text::from_str(alloc, text.as_str())?))?;
    }
    Ok(requests)
}

// A session with a server, where the word asks for one and the limit is a number.
#[tactic(auto, unfolding(crate::specs::Command::connect_for))]
fn connect_of(
    alloc: Global,
    word: &str,
    text: &str,
    limit: &str,
    queries: &[String],
) -> Result<Command, OutOfMemory>
    ensures named { IfOk result (λ c. c
        ≡ connect_for word.now text.now limit.now (map string_bytes queries.now)) }
    ensures sound { IfOk result IsSoundCommand }
{
    if word != "connect" {
        return Ok(Command::Usage);
    }
    match read_number(limit.as_bytes()) {
        Some(limit) => Ok(Command::Connect(Connection {
            text: Text::from_str(alloc, text)?,
            limit,
            requests: queries_of(alloc, queries)?,
        })),
        None => Ok(Command::Usage),
    }
}

// A number, where it is one up to this.
#[tactic(auto, unfolding(crate::specs::Command::up_to))]
fn read_up_to(most: u32, word: &str) -> Option<u32>
    ensures named { result ≡ up_to most word.now }
    ensures within { IfSome result (λ n. n ≤ most) }
{
    match read_number(word.as_bytes()) {
        Some(number) if number <= u64::from(most) => Some(number as u32),
        _ => None,
    }
}

// A session of any size, where the word asks for one and its two words are numbers within their bounds.
#[tactic(auto, unfolding(crate::specs::Command::gen_for))]
fn gen_of(word: &str, rows: &str, start: &str) -> Command
    ensures named { result ≡ gen_for word.now rows.now start.now }
    ensures sound { IsSoundCommand result }
{
    if word != "gen" {
        return Command::Usage;
    }
    match (read_up_to(MOST_ROWS, rows), read_up_to(u32::MAX, start)) {
        (Some(rows), Some(start)) => Command::Gen(rows, start),
        _ => Command::Usage,
    }
}

// The secret of a password, where its count is a number of 1 or more.
fn secret_of(alloc: Global, password: &str, count: &str) -> Result<Command, OutOfMemory>
    ensures named { IfOk result (λ c. c ≡ secret_with password.now (up_to 4294967295 count.now)) }
    ensures sound { IfOk result IsSoundCommand }
{
    match read_up_to(u32::MAX, count) {
        Some(count) if count > 0 => Ok(Command::Secret(NewSecret {
            password: Text::from_str(alloc, password)?,
            count,
        })),
        _ => Ok(Command::Usage),
    }
}

// What a word with two more asks for.
#[tactic(auto, unfolding(crate::specs::Command::secret_for))]
fn of_three(alloc: Global, word: &str, one: &str, two: &str) -> Result<Command, OutOfMemory>
    ensures named { IfOk result (λ c. c ≡ secret_for word.now one.now two.now) }
    ensures sound { IfOk result IsSoundCommand }
{
    if word == "secret" {
        secret_of(alloc, one, two)
    } else {
        Ok(gen_of(word, one, two))
    }
}

// A password from a file, where the port is one.
fn passfile_of(
    alloc: Global,
    host: &str,
    port: &str,
    database: &str,
    user: &str,
) -> Result<Command, OutOfMemory>
    ensures named { IfOk result (λ c. c
        ≡ passfile_with host.now (up_to 65535 port.now) database.now user.now) }
    ensures sound { IfOk result IsSoundCommand }
{
    match read_up_to(u32::from(u16::MAX), port) {
        Some(port) => Ok(Command::Passfile(Asked {
            host: Text::from_str(alloc, host)?,
            port: port as u16,
            database: Text::from_str(alloc, database)?,
            user: Text::from_str(alloc, user)?,
        })),
        None => Ok(Command::Usage),
    }
}

// What a word with four more asks for, of which the last two are also given as they stand.
#[tactic(auto, unfolding(crate::specs::Command::passfile_for))]
fn of_five(
    alloc: Global,
    word: &str,
    one: &str,
    two: &str,
    three: &str,
    four: &str,
    last: &[String],
) -> Result<Command, OutOfMemory>
    requires { map string_bytes last.now ≡ three.now ∷ four.now ∷ [] }
    ensures named { IfOk result (λ c. c
        ≡ passfile_for word.now one.now two.now three.now four.now) }
    ensures sound { IfOk result IsSoundCommand }
{
    if word == "passfile" {
        passfile_of(alloc, one, two, three, four)
    } else {
        connect_of(alloc, word, one, two, last)
    }
}

/// The command that the words behind the program's name ask for. No word at all asks for a script.
#[tactic(auto, unfolding(crate::specs::Command::command_for))]
pub fn command_of(alloc: Global, words: &[String]) -> Result<Command, OutOfMemory>
    ensures named { IfOk result (λ c. c ≡ command_for (map string_bytes words.now)) }
    ensures sound { IfOk result IsSoundCommand }
{
    match words {
        [] => Ok(Command::Script),
        [word] => Ok(command_named(word.as_str())),
        [_, _] => Ok(Command::Usage),
        [word, one, two] => of_three(alloc, word.as_str(), one.as_str(), two.as_str()),
        [word, one, two, three, four] => {
            of_five(
                alloc,
                word.as_str(),
                one.as_str(),
                two.as_str(),
                three.as_str(),
                four.as_str(),
                &words[3..],
            )
        }
        [word, text, limit, ..] => {
            connect_of(
                alloc,
                word.as_str(),
                text.as_str(),
                limit.as_str(),
                &words[3..],
            )
        }
    }
}

// How many bytes a session may read, where the words ask for one with a server.
fn limit_of(words: &[String]) -> Option<u64>
    ensures { IfSome result (IsSessionCommand (map string_bytes words.now)) }
{
    match words {
        [word, _text, limit, _query, ..] if word.as_str() == "connect" => {
            read_number(limit.as_bytes())
        }
        _ => None,
    }
}

// A simple query of each of these texts, which it takes over.
fn queries_from(alloc: Global, texts: Vec<String>) -> Result<Listed<Request>, OutOfMemory>
    ensures { IfOk result (λ list. list ≡ requests_for (map string_bytes texts.items)) }
{
    let mut requests = Listed::from_vec(Vec::with_capacity(alloc, texts.len())?);
    for text in texts {
        requests.push(Request::Simple(Text::from_string(text)))?;
    }
    Ok(requests)
}

// A session with a server, which takes over the words that ask for it.
fn session_from(alloc: Global, mut words: Vec<String>, limit: u64) -> Result<Command, OutOfMemory>
    requires { IsSessionCommand (map string_bytes words.items) limit }
    ensures named { IfOk result (λ c. c ≡ command_for (map string_bytes words.items)) }
    ensures sound { IfOk result IsSoundCommand }
{
    drop(words.remove(0));
    let text = words.remove(0);
    drop(words.remove(0));
    Ok(Command::Connect(Connection {
        text: Text::from_string(text),
        limit,
        requests: queries_from(alloc, words)?,
    }))
}

/// The command that the words ask for, as `command_of` finds it. The words of a session with a server become a part of
/// it, are copied nowhere, and are no longer there.
pub fn command_from(alloc: Global, words: &mut Vec<String>) -> Result<Command, OutOfMemory>
    ensures named { IfOk result (λ c. c ≡ command_for (map string_bytes words.old.items)) }
    ensures sound { IfOk result IsSoundCommand }
{
    match limit_of(words) {
        Some(limit) => session_from(alloc, replace(words, Vec::new(alloc)), limit),
        None => command_of(alloc, words),
    }
}
