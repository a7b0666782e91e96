//! The commands over standard input and output and the system's sockets: `query`, `check`, and those of `pgw_prog`.

use crate::clock::SystemClock;
use crate::surroundings::{NoPlaces, places};
use pgw_backend::client_error::PgWireClientError;
use pgw_config::config::Config;
use pgw_link::socket_dialer::{SocketDialer, Timeouts};
use pgw_link::standard::StdSink;
use pgw_prog::start::{start_with, words_of};
use pgw_prog_commands::check::run_check;
use pgw_prog_commands::command_words::{CheckWords, QueryWords, check_words, query_words};
use pgw_prog_commands::help::help_of;
use pgw_prog_commands::notes::LoginNotes;
use pgw_prog_commands::options::Options;
use pgw_prog_commands::places::Place;
use pgw_prog_commands::query::run_query;
use pgw_prog_output::faults::told_of_error;
use pgw_prog_output::printer::RowFormat;
use pgw_types::listed::Listed;
use pgw_types::memory::OutOfMemory;
use rand::RngExt;
use rand::rngs::StdRng;
use std::io;
use std::io::IsTerminal;
use std::time::Duration;

const NO_MEMORY: &str = "memory ran out\n";

const NO_RANDOM_BYTES: &str = "the system gave no random bytes\n";

const NO_HOST: &str = "the connection text names no host\n";

const NOT_TEXT: &str = " is set, and is not UTF-8\n";

const UNEVEN: &str = "the connection text names not as many hosts, addresses and ports\n";

const NO_OUTPUT: &str = "standard output could not be written\n";

const QUERY_WORDS: &str = "query takes [OPTION..] TEXT SQL..; try hothummei query --help\n";

const CHECK_WORDS: &str = "check takes [OPTION..] TEXT; try hothummei check --help\n";

// How many seconds `check` waits where nothing else is said.
const PATIENCE: u64 = 10;

// Tells people this on standard error, and ends with the status.
fn told(rt: &HostRuntime, text: &str, status: u8) -> u8 {
    let _ = rt.eprint(text);
    status
}

// Prints a text, and ends with the status.
fn said(rt: &HostRuntime, text: &str, status: u8) -> u8 {
    match rt.print(text) {
        Ok(()) => status,
        Err(_) => told(rt, NO_OUTPUT, 3),
    }
}

// How rows are printed where no option says it.
fn default_format(rt: &HostRuntime) -> RowFormat {
    if rt.stdout().is_terminal() {
        RowFormat::Table
    } else {
        RowFormat::Csv
    }
}

// How long each call may take: the option's time; else the connection text's for the dial alone; else so long, if at all.
fn timeouts(options: &Options, configs: &[Config], patience: Option<Duration>) -> Timeouts {
    let seconds = options.timeout.map(|n| Duration::from_secs(u64::from(n)));
    let connect = match configs {
        [config, ..] => config.get_connect_timeout().map(Duration::from_secs),
        [] => None,
    };
    Timeouts {
        connect: seconds.or(connect).or(patience),
        read: seconds.or(patience),
        write: seconds.or(patience),
    }
}

// A place of each configuration, with fresh bytes for its login.
fn with_nonces(
    rt: &HostRuntime,
    rng: &mut StdRng,
    configs: Listed<Config>,
) -> Result<Listed<Place>, OutOfMemory> {
    let mut places = Listed::new(rt.alloc());
    for config in configs.into_vec() {
        places.push(Place {
            config,
            nonce: rng.random(),
        })?;
    }
    Ok(places)
}

// Tells people why a session ended, where it told nothing itself.
fn ended(rt: &HostRuntime, status: u8) -> u8 {
    match status {
        3 => told(rt, NO_OUTPUT, 3),
        4 => told(rt, NO_MEMORY, 4),
        _ => status,
    }
}

// Fresh bytes for the logins at these places.
fn drawn(rt: &HostRuntime, configs: Listed<Config>) -> Result<Listed<Place>, u8> {
    if configs.is_empty() {
        return Err(told(rt, NO_HOST, 1));
    }
    let rng: io::Result<StdRng> = rand::make_rng(rt);
    let Ok(mut rng) = rng else {
        return Err(told(rt, NO_RANDOM_BYTES, 3));
    };
    match with_nonces(rt, &mut rng, configs) {
        Ok(places) => Ok(places),
        Err(_) => Err(told(rt, NO_MEMORY, 4)),
    }
}

// Asks the queries at the places.
fn query_at(rt: &HostRuntime, asked: &QueryWords, configs: Listed<Config>) -> u8 {
    let timeouts = timeouts(&asked.options, configs.as_slice(), None);
    let places = match drawn(rt, configs) {
        Ok(places) => places,
        Err(status) => return status,
    };
    let format = asked.options.format.unwrap_or(default_format(rt));
    let status = run_query(
        rt.alloc(),
        format,
        places.as_slice(),
        asked.queries.as_slice(),
        &mut StdSink::new(io::writer(rt)),
        &mut StdSink::new(rt.stderr()),
        &mut SocketDialer::new(rt, timeouts),
    );
    ended(rt, status)
}

// Logs in at the places.
fn check_at(rt: &HostRuntime, asked: &CheckWords, configs: Listed<Config>) -> u8 {
    let patience = Some(Duration::from_secs(PATIENCE));
    let timeouts = timeouts(&asked.options, configs.as_slice(), patience);
    let places = match drawn(rt, configs) {
        Ok(places) => places,
        Err(status) => return status,
    };
    let status = run_check(
        rt.alloc(),
        places.as_slice(),
        &mut LoginNotes::new(),
        &mut SystemClock::new(rt),
        &mut StdSink::new(io::writer(rt)),
        &mut StdSink::new(rt.stderr()),
        &mut SocketDialer::new(rt, timeouts),
    );
    ended(rt, status)
}

// Tells people of an error, and ends with status 1.
fn told_error(rt: &HostRuntime, error: PgWireClientError) -> u8 {
    let text = told_of_error(rt.alloc(), &error);
    drop(error);
    told(rt, text.as_str(), 1)
}

// Tells people why there are no places.
fn no_places(rt: &HostRuntime, why: NoPlaces) -> u8 {
    match why {
        NoPlaces::Memory | NoPlaces::Refused(PgWireClientError::OutOfMemory) => told(
            rt, NO_MEMORY, 4,
        ),
        NoPlaces::Refused(error) => told_error(rt, error),
        NoPlaces::NotText(name) => {
            let _ = rt.eprint(name);
            told(rt, NOT_TEXT, 1)
        }
        NoPlaces::Uneven => told(rt, UNEVEN, 1),
    }
}

fn run_queries(rt: &HostRuntime, asked: &QueryWords) -> u8 {
    match places(rt, asked.text.as_str(), asked.options.passfile.as_ref()) {
        Ok(configs) => query_at(rt, asked, configs),
        Err(why) => no_places(rt, why),
    }
}

fn run_login(rt: &HostRuntime, asked: &CheckWords) -> u8 {
    match places(rt, asked.text.as_str(), asked.options.passfile.as_ref()) {
        Ok(configs) => check_at(rt, asked, configs),
        Err(why) => no_places(rt, why),
    }
}

// Says that the words are outside the grammar.
fn misused(rt: &HostRuntime, words: &str) -> u8 {
    let _ = rt.eprint(words);
    said(rt, "usage\n", 2)
}

fn query(rt: &HostRuntime, words: &[String]) -> u8 {
    match query_words(rt.alloc(), words) {
        Ok(Some(asked)) => run_queries(rt, &asked),
        Ok(None) => misused(rt, QUERY_WORDS),
        Err(_) => told(rt, NO_MEMORY, 4),
    }
}

fn check(rt: &HostRuntime, words: &[String]) -> u8 {
    match check_words(rt.alloc(), words) {
        Ok(Some(asked)) => run_login(rt, &asked),
        Ok(None) => misused(rt, CHECK_WORDS),
        Err(_) => told(rt, NO_MEMORY, 4),
    }
}

// The help of a command that has one of its own.
fn help<'a>(words: &'a [String]) -> Option<&'static str> {
    match words {
        [word, flag] if flag.as_str() == "--help" => help_of(word.as_str()),
        [flag, word] if flag.as_str() == "--help" => help_of(word.as_str()),
        _ => None,
    }
}

/// Runs the command that the words behind the program's name ask for, and says with which status to end.
pub fn start(rt: &HostRuntime) -> u8 {
    let Ok(words) = words_of(rt) else {
        return pgw_prog::start::start(rt);
    };
    if let Some(text) = help(words.as_slice()) {
        return said(rt, text, 0);
    }
    match words.as_slice() {
        [word, rest @ ..] if word.as_str() == "query" => query(rt, rest),
        [word, rest @ ..] if word.as_str() == "check" => check(rt, rest),
        _ => start_with(rt, words),
    }
}
