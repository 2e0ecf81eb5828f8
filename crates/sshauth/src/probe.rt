//! A client that looks at a server: it trusts whatever host key it meets, asks by the method `none` alone, and tells what
//! the server has sent.

ghost use Rattle.sshauth.specs.Trust.{any_host_policy};

use crate::channel::BY_APPLICATION;
use crate::clear_stream::ClearStream;
use crate::fault::Fault;
use crate::findings::{Findings, Told, end_line, lines_of};
use crate::host_keys::ALL_ALGORITHMS;
use crate::notices::{Listening, Notices};
use crate::parts::{client_config, draw};
use crate::settings::Settings;
use crate::talk::{CHUNK, receive, send};
use sshcore::{ClientConfig, Decisions, End, Endpoint, Proof};
use sshprogram::ProgramFault;
use sshsuite::DeployedSuite;
use sshwire::{Memory, OTHER_LINE_LIMIT};
use std::alloc::Global;
use std::fs::File;
use std::io::Write;

/// The exit status of a probe that has not seen the server's lists.
const NO_LISTS: u8 = 1;

/// How many bytes a probe takes of a server before it disconnects.
const TAKEN: usize = 1 << 20;

/// The decisions of a client that only looks: any host key will do, since nothing is told to the server that
/// another couldn't know.
#[derive(Drop)]
struct AnyHost;

impl Decisions for AnyHost {
    ghost use Rattle.sshauth.specs.Trust.{any_host_policy};

    ghost policy = { any_host_policy };

    fn host_key(&self, _algorithm: &str, _blob: &[u8]) -> bool {
        true
    }

    fn user(&self, _request_number: u32, _user: &str, _service: &str, _proof: &Proof<'_>) -> bool {
        false
    }

    fn signature(
        &self,
        _alloc: Global,
        _number: usize,
        _algorithm: &str,
        _blob: &[u8],
        _input: &[u8],
    ) -> Result<Option<Vec<u8>>, Memory> {
        Ok(None)
    }
}

/// An endpoint of a probe.
type Prober<'a> = Endpoint<'a, DeployedSuite, Listening<'a, AnyHost>>;

/// What both sides have sent, and what was told of it.
#[derive(Drop)]
struct Looked {
    ours: ClearStream,
    theirs: ClearStream,
    /// The server's public host key, once its signature was verified.
    host_key: Option<Vec<u8>>,
    /// How many bytes have come.
    came: usize,
    told: Told,
    report: Option<File>,
}

/// Looks at a server and tells what it finds. Answers the exit status: whether the server's lists came.
pub(crate) fn probe(rt: &HostRuntime, settings: &Settings<'_>) -> Result<u8, Fault> {
    let report = report_at(rt, settings.report)?;
    let config = client_config(rt, settings, ALL_ALGORITHMS)?;
    begin(rt, settings, report, &config)
}

/// The file to which the report goes, where one is named: it is made anew.
fn report_at(rt: &HostRuntime, path: Option<&str>) -> Result<Option<File>, Fault> {
    match path {
        None => Ok(None),
        Some(path) => match File::create(rt, path) {
            Ok(file) => Ok(Some(file)),
            Err(_) => Err(Fault::Unwritable("report")),
        },
    }
}

/// The same by an endpoint of this config.
fn begin(
    rt: &HostRuntime,
    settings: &Settings<'_>,
    report: Option<File>,
    config: &ClientConfig,
) -> Result<u8, Fault> {
    let draws = draw(rt)?;
    let notices = &Notices::new(rt.alloc());
    let decisions = &Listening {
        decisions: &AnyHost,
        notices,
    };
    let mut out = Vec::new(rt.alloc());
    let endpoint = Endpoint::client_with(
        rt.alloc(),
        config,
        draws,
        &DeployedSuite,
        decisions,
        &mut out,
    )?;
    let looked = Looked {
        ours: ClearStream::new(rt.alloc(), 0),
        theirs: ClearStream::new(rt.alloc(), OTHER_LINE_LIMIT),
        host_key: None,
        came: 0,
        told: Told::new(),
        report,
    };
    look(rt, settings, endpoint, out, looked, notices)
}

/// The same by an endpoint that has sent these bytes so far.
fn look(
    rt: &HostRuntime,
    settings: &Settings<'_>,
    endpoint: Prober<'_>,
    out: Vec<u8>,
    looked: Looked,
    notices: &Notices,
) -> Result<u8, Fault> {
    let (mut endpoint, mut looked) = (endpoint, looked);
    let carried = carry(rt, settings, &mut endpoint, out, &mut looked, notices);
    let told = looked.tell_end(rt, settings, notices, endpoint.end());
    drop(endpoint);
    let status = if looked.theirs.sent.kexinit.is_some() {
        0
    } else {
        NO_LISTS
    };
    drop(looked);
    told?;
    carried?;
    Ok(status)
}

impl Looked {
    /// Tells what is new of what both sides have sent.
    fn tell(
        &mut self,
        rt: &HostRuntime,
        settings: &Settings<'_>,
        notices: &Notices,
    ) -> Result<(), ProgramFault> {
        let notices = notices.taken();
        let findings = Findings {
            host: settings.host.unwrap_or(""),
            strict: settings.strict,
            ours: &self.ours.sent,
            theirs: &self.theirs.sent,
            host_key: &self.host_key,
            notices: &notices,
        };
        let lines = lines_of(rt.alloc(), &findings, &mut self.told)?;
        self.write(rt, &lines)
    }

    /// Tells what wasn't told yet, and how the endpoint ended.
    fn tell_end(
        &mut self,
        rt: &HostRuntime,
        settings: &Settings<'_>,
        notices: &Notices,
        end: &End,
    ) -> Result<(), ProgramFault> {
        self.tell(rt, settings, notices)?;
        let line = end_line(rt.alloc(), end, self.came)?;
        self.write(rt, &line)
    }

    /// Writes lines to the report, or where none is named to standard error.
    fn write(&mut self, rt: &HostRuntime, lines: &str) -> Result<(), ProgramFault> {
        match &mut self.report {
            Some(file) => file
                .write_all(lines.as_bytes())
                .map_err(|_| ProgramFault::Write),
            None => {
                let _ = rt.stderr().write_all(lines.as_bytes());
                Ok(())
            }
        }
    }
}

/// Gives the endpoint what comes until it has ended, or too much has come.
fn carry(
    rt: &HostRuntime,
    settings: &Settings<'_>,
    endpoint: &mut Prober<'_>,
    out: Vec<u8>,
    looked: &mut Looked,
    notices: &Notices,
) -> Result<(), Fault> {
    looked.ours.receive_all(rt.alloc(), &out)?;
    let mut out = out;
    let mut chunk = [0u8; CHUNK];
    for _ in 0..u64::MAX {
        let sent = send(rt, &out);
        out.clear();
        if !matches!(endpoint.end(), End::Open) {
            return Ok(()); // a server that has gone receives no farewell
        }
        sent?;
        let count = receive(rt, &mut chunk)?;
        if count == 0 {
            endpoint.end_of_input();
        }
        looked.came = looked.came.saturating_add(count);
        let piece = chunk.get(..count).unwrap_or(&[]);
        give(rt, settings, endpoint, piece, &mut out, looked, notices)?;
        if looked.came >= TAKEN {
            endpoint.disconnect(BY_APPLICATION, "", &mut out)?;
        }
    }
    Ok(())
}

/// Gives the endpoint a piece, lines or packet by packet, so that the packet is known at which the client sends
/// NEWKEYS: it is the reply whose signature was verified.
fn give(
    rt: &HostRuntime,
    settings: &Settings<'_>,
    endpoint: &mut Prober<'_>,
    piece: &[u8],
    out: &mut Vec<u8>,
    looked: &mut Looked,
    notices: &Notices,
) -> Result<(), Fault> {
    let mut rest = piece;
    for _ in 0..u64::MAX {
        if rest.is_empty() {
            break;
        }
        let used = looked.theirs.receive(rt.alloc(), rest)?;
        let (unit, after) = rest.split_at_checked(used).unwrap_or((rest, &[]));
        let mut reply = Vec::new(rt.alloc());
        endpoint.feed(unit, &mut reply)?;
        looked.ours.receive_all(rt.alloc(), &reply)?;
        if looked.ours.sent.new_keys && looked.host_key.is_none() {
            looked.host_key = looked.theirs.sent.host_key.take();
        }
        out.extend_from_slice(&reply)?;
        looked.tell(rt, settings, notices)?;
        rest = after;
    }
    Ok(())
}
