//! What a command's help says.
ghost use Rattle.std.specs.Prelude.{◌↔◌, IsSome, IsTrue};
ghost use Rattle.pgw_prog_commands.specs.Help.{is_command};

const QUERY: &str = "hothummei query [OPTION..] TEXT SQL..

Connects to a server, asks each SQL in turn as a simple query, and prints the
rows as they come. What each command did, notices and errors are told on
standard error.

  --csv              prints CSV (RFC 4180, but that a line ends with a line feed
                     alone), with the names of the columns first; NULL and the
                     empty text are both an empty field, and a line that has no
                     other is two quotes
  --json             prints an object of JSON for each row, on a line of its own;
                     where columns have one name, so have members
  --table            prints a table, whose columns are as wide as the first 100
                     rows want it, up to 100; NULL is the word
  --passfile FILE    a file of passwords that its owner alone may read
  --timeout SECONDS  how long a connection, a read or a write may take

A table is printed on a terminal, else CSV. TEXT is a connection text, a list of
keys and values or a URL, or - for what the variables PGHOST, PGHOSTADDR,
PGPORT, PGUSER, PGDATABASE, PGPASSWORD, PGAPPNAME, PGSSLMODE, PGCHANNELBINDING,
PGCONNECT_TIMEOUT and PGTARGETSESSIONATTRS hold. Each host of it is tried in
turn. Without a password in it, one is looked for each host in FILE, else in the
file that PGPASSFILE names, else in .pgpass of the folder HOME.

Status: 0 all was answered, 1 the server answered an error, or the connection
failed, 2 the words are wrong, 3 the output failed or the system gave no random
bytes, 4 memory ran out.
";

const CHECK: &str = "hothummei check [OPTION..] TEXT

Connects to a server, logs in, and prints how, a word and what it stands for on
each line: which login the server asked for, whether it proved that it knows the
password, its version, user, database and parameters, and how long each step
took. Each host of TEXT is tried in turn until one answers, ten seconds each
where nothing else is said.

  --passfile FILE    a file of passwords that its owner alone may read
  --timeout SECONDS  how long a connection, a read or a write may take

TEXT is as of query. Status: 0 the client got in, 1 it did not, 2 the words are
wrong, 3 the output failed or the system gave no random bytes, 4 memory ran out.
";

/// The help of a command that has one of its own.
pub fn help_of(word: &str) -> Option<&'static str>
    ensures { IsSome result ↔ IsTrue (is_command word.now) }
{
    if word == "query" {
        Some(QUERY)
    } else if word == "check" {
        Some(CHECK)
    } else {
        None
    }
}
