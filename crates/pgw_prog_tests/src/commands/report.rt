//! A whole report.

use pgw_prog_commands::notes::LoginKind;
use pgw_prog_commands::report::{CheckReport, put_report};
use pgw_types::address::{Address, HostAddr};
use pgw_types::context::ProtocolVersion;
use pgw_types::memory::OutOfMemory;
use pgw_types::text::Text;
use pgw_wire::params::Params;
use std::alloc::Global;
use std::test::Fail;

// What a server might report of itself, with a value that would make a line of its own.
fn parameters(alloc: Global) -> Result<Params, OutOfMemory> {
    let mut parameters = Params::new(alloc);
    for (name, value) in [
        ("server_version", "15.4"),
        ("application_name", "x\nlogin none"),
    ] {
        let name = Text::from_str(alloc, name)?;
        parameters.insert(name, Text::from_str(alloc, value)?)?;
    }
    Ok(parameters)
}

fn told(alloc: Global, server: &Address, parameters: &Params) -> Result<Vec<u8>, OutOfMemory> {
    let mut out = Vec::new(alloc);
    let report = CheckReport {
        server,
        login: Some(LoginKind::ScramSha256),
        proved: true,
        version: ProtocolVersion::PROTOCOL3_0,
        user: "bob",
        database: "sales",
        process_id: -1,
        parameters,
        dial_took: 1,
        login_took: 4,
    };
    put_report(alloc, &mut out, &report)?;
    Ok(out)
}

const REPORT: &str = "server [::1]:5432
login SCRAM-SHA-256
server-proved yes
protocol 3.0
server-version 15.4
user bob
database sales
process -1
parameter application_name x\\nlogin none
parameter server_version 15.4
dial-ms 1
login-ms 4
";

fn report(alloc: Global) -> Result<Vec<u8>, OutOfMemory> {
    let server = Address::Ip(HostAddr::V6([0, 0, 0, 0, 0, 0, 0, 1]), 5432);
    let parameters = parameters(alloc)?;
    told(alloc, &server, &parameters)
}

#[test]
fn reports_are_told_by_lines(rt: HostRuntime) -> Result<(), Fail> {
    let text = report(rt.alloc())?;
    assert_eq!(rt; text.as_slice(), REPORT.as_bytes());
    Ok(())
}
