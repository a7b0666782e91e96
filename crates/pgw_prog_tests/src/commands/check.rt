//! The command over links in memory: what is printed, the status, and what the server got.
use crate::commands::servers::{Setting, new_setting};
use pgw_prog_commands::check::run_check;
use pgw_prog_commands::notes::{LoginNotes, NoClock};
use std::alloc::Global;
use std::process::Abort;
use std::test::Fail;

// What a server says, by the message formats of the protocol: it lets the client in, or it does not.
const WELCOME: &[u8] =
    b"R\0\0\0\x08\0\0\0\0S\0\0\0\x18server_version\015.4\0K\0\0\0\x0c\0\0\0\x07\0\0\0\x08Z\0\0\0\x05I";

const REFUSAL: &[u8] = b"E\0\0\0\x17SFATAL\0C28000\0Mno\0\0";

// A clear password is asked for first.
const ASKED: &[u8] = b"R\0\0\0\x08\0\0\0\x03R\0\0\0\x08\0\0\0\0Z\0\0\0\x05I";

// It is asked for, and then the server ends.
const ENDED: &[u8] = b"R\0\0\0\x08\0\0\0\x03";

// What servers say, one a place, the number of a write of standard output that fails, what is printed, and the status.
type Case = (&'static [&'static [u8]], u64, &'static str, u8);

const CASES: &[Case] = &[
    (&[WELCOME], 0, TOLD, 0),
    (&[ASKED], 0, PLAIN, 0),
    (&[REFUSAL], 0, "", 1),
    (&[REFUSAL, WELCOME], 0, "", 1),
    (&[WELCOME], 1, "", 3),
    // What the first place asked for is not told of the second.
    (&[ENDED, WELCOME], 0, TOLD, 0),
];

const TOLD: &str = "server 127.0.0.1:5433
login none
server-proved no
protocol 3.0
server-version 15.4
user bob
database bob
process 7
parameter server_version 15.4
dial-ms 0
login-ms 0
";

const PLAIN: &str = "server 127.0.0.1:5433
login password
server-proved no
protocol 3.0
server-version -
user bob
database bob
process -1
dial-ms 0
login-ms 0
";

const TEXT: &str = "hostaddr=127.0.0.1 port=5433 user=bob password=x";

fn ran(alloc: Global, setting: &mut Setting) -> u8 {
    run_check(
        alloc,
        setting.places.as_slice(),
        &mut LoginNotes::new(),
        &mut NoClock,
        &mut setting.output,
        &mut setting.errors,
        &mut setting.dialer,
    )
}

// A client that was let in takes its leave.
fn check<R: Abort>(rt: &R, alloc: Global, setting: &mut Setting, printed: &str, wanted: u8) {
    let status = ran(alloc, setting);
    let left = setting.was_sent(b"X\0\0\0\x04");
    assert_eq!(rt; (status, left), (wanted, wanted != 1));
    assert_eq!(rt; setting.output.written(), printed.as_bytes());
}

#[test]
fn checks_are_told(rt: HostRuntime) -> Result<(), Fail> {
    for (servers, failing_write, printed, wanted) in CASES {
        let mut setting = new_setting(rt.alloc(), TEXT, servers, *failing_write)?;
        check(&rt, rt.alloc(), &mut setting, printed, *wanted);
    }
    Ok(())
}
