//! The options in front of a command's other words.
ghost use Rattle.std.specs.Prelude.{◌≡◌, map, option_map, string_bytes, IfOk, Some};
ghost use Rattle.pgw_types.specs.Numbers.{number_in};
ghost use Rattle.pgw_prog_commands.specs.Options.{flag_of as flag_for, is_no_option, no_options, parted, seconds_in, with_flag, with_timeout as timed};
ghost use Rattle.pgw_prog_commands.specs.Parting.{parts};

use pgw_prog_output::printer::RowFormat;
use pgw_types::memory::OutOfMemory;
use pgw_types::text::Text;
use std::alloc::Global;

/// What the options say. Of an option that comes twice the last counts.
#[derive(Debug, Drop)]
pub struct Options {
    pub passfile: Option<Text>,
    /// The most seconds that a connection, a read and a write may take.
    pub timeout: Option<u32>,
    pub format: Option<RowFormat>,
}

/// What a word is, as an option.
#[derive(Clone, Copy, Debug, PartialEq, Eq)]
pub enum Flag {
    Passfile,
    Timeout,
    Format(RowFormat),
    Unknown,
    NoOption,
}

/// What a word is, as an option.
#[tactic(auto, unfolding(crate::specs::Options::flag_of))]
pub fn flag_of(word: &str) -> Flag
    ensures { result ≡ flag_for word.now }
{
    if word == "--passfile" {
        Flag::Passfile
    } else if word == "--timeout" {
        Flag::Timeout
    } else if word == "--csv" {
        Flag::Format(RowFormat::Csv)
    } else if word == "--json" {
        Flag::Format(RowFormat::Json)
    } else if word == "--table" {
        Flag::Format(RowFormat::Table)
    } else if word.starts_with("--") {
        Flag::Unknown
    } else {
        Flag::NoOption
    }
}

// A number of seconds, 1 to 4294967295.
#[tactic(auto, unfolding(crate::specs::Options::seconds_in))]
fn seconds(word: &str) -> Option<u32>
    ensures { result ≡ seconds_in word.now }
{
    match number(word) {
        Some(seconds) if seconds > 0 => Some(seconds),
        _ => None,
    }
}

// A number of 32 bits.
fn number(word: &str) -> Option<u32>
    ensures { result ≡ number_in 32 word.now }
{
    word.parse::<u32>().ok()
}

/// Options, and the words behind them.
#[derive(Drop)]
pub struct Parted<'a> {
    pub options: Options,
    pub rest: &'a [String],
}

// The options with this one, which says a time, and the words behind it.
fn with_timeout<'a>(
    options: Options,
    seconds: Option<u32>,
    rest: &'a [String],
) -> Option<Parted<'a>>
    ensures { option_map parts result ≡ timed options (map string_bytes rest.now) seconds }
{
    match seconds {
        Some(seconds) => Some(Parted {
            options: Options {
                passfile: options.passfile,
                timeout: Some(seconds),
                format: options.format,
            },
            rest,
        }),
        None => {
            drop(options);
            None
        }
    }
}

fn with_format(options: Options, format: RowFormat) -> Options
    ensures { result ≡ record options { format = Some format } }
{
    Options {
        passfile: options.passfile,
        timeout: options.timeout,
        format: Some(format),
    }
}

fn with_passfile(alloc: Global, options: Options, path: &str) -> Result<Options, OutOfMemory>
    ensures { IfOk result (λ new. new ≡ record options { passfile = Some path.now }) }
{
    let path = Text::from_str(alloc, path)?;
    Ok(Options {
        passfile: Some(path),
        timeout: options.timeout,
        format: options.format,
    })
}

// What an option and the words behind it say.
fn take<'a>(
    alloc: Global,
    options: Options,
    flag: Flag,
    rest: &'a [String],
) -> Result<Option<Parted<'a>>, OutOfMemory>
    ensures { IfOk result (λ found. option_map parts found
        ≡ with_flag options flag (map string_bytes rest.now)) }
{
    match (flag, rest) {
        (Flag::Format(format), _) => {
            let options = with_format(options, format);
            Ok(Some(Parted { options, rest }))
        }
        (Flag::Passfile, [path, rest @ ..]) => {
            let options = with_passfile(alloc, options, path.as_str())?;
            Ok(Some(Parted { options, rest }))
        }
        (Flag::Timeout, [number, rest @ ..]) => {
            Ok(with_timeout(options, seconds(number.as_str()), rest))
        }
        _ => {
            drop(options);
            Ok(None)
        }
    }
}

// Whether a word is no option.
fn ends_options(flag: Flag) -> bool
    ensures { result ≡ is_no_option flag }
{
    match flag {
        Flag::NoOption => true,
        _ => false,
    }
}

/// The options in front of words, or none where they are outside the grammar.
pub fn part<'a>(alloc: Global, words: &'a [String]) -> Result<Option<Parted<'a>>, OutOfMemory>
    ensures { IfOk result (λ found. option_map parts found
        ≡ parted no_options (map string_bytes words.now)) }
{
    let mut parted = Parted {
        options: Options::none(),
        rest: words,
    };
    while let [word, rest @ ..] = parted.rest {
        let flag = flag_of(word.as_str());
        if ends_options(flag) {
            return Ok(Some(parted));
        }
        match take(alloc, parted.options, flag, rest)? {
            Some(more) => parted = more,
            None => return Ok(None),
        }
    }
    Ok(Some(parted))
}

impl Options {
    pub fn none() -> Options
        ensures { result ≡ no_options }
    {
        Options {
            passfile: None,
            timeout: None,
            format: None,
        }
    }
}
