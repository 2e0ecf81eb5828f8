//! How the ends of a session are printed.

ghost use Rattle.std.specs.Prelude.{◌≡◌, Some};
ghost use Rattle.std.specs.Fmt.{WritesOnOk};
ghost use Rattle.hex.specs.Hex.{encode_lower};
ghost use Rattle.sshcore.specs.EndData.{agreed_data, end_data};
ghost use Rattle.sshlab.specs.Reports.{agreed_text, agreement_text, algorithms_text, complete_text, end_text, report_text, session_text, yes_or_no};

use sshcore::{Agreed, End};
use std::alloc::Global;
use std::fmt;

/// The ends of both sides, and what was agreed.
#[derive(Clone, Copy)]
pub(crate) struct Report<'a> {
    /// For the digits of the session identifier.
    pub(crate) alloc: Global,
    pub(crate) client: &'a End,
    pub(crate) server: &'a End,
    /// Whether nothing waits for either side, where that is to be told.
    pub(crate) complete: Option<bool>,
    /// Whether the session identifier is to be told.
    pub(crate) session: bool,
}

impl fmt::Display for Report<'_> {
    ghost output = { λ r. Some (report_text (end_data r.client.now) (end_data r.server.now) r.complete r.session) };

    #[tactic(auto, unfolding(crate::specs::Reports::report_text))]
    fn fmt<W: fmt::Write>(&self, f: &mut fmt::Formatter<W>) -> fmt::Result {
        let (client, server) = (EndText(self.client), EndText(self.server));
        writeln!(f, "client {client}")?;
        writeln!(f, "server {server}")?;
        write_complete(f, self.complete)?;
        write_agreement(self.alloc, f, self.client, self.server, self.session)
    }
}

/// How a side stands, as text.
#[derive(Clone, Copy)]
struct EndText<'a>(&'a End);

impl fmt::Display for EndText<'_> {
    ghost output = { λ e. Some (end_text (end_data e.0.now)) };

    fn fmt<W: fmt::Write>(&self, f: &mut fmt::Formatter<W>) -> fmt::Result {
        match self.0 {
            End::Open => f.write_str("open"),
            End::Authenticated(agreed) => {
                let (user, service) = (&agreed.user, &agreed.service);
                write!(f, "authenticated {user} {service}")
            }
            End::Failed(fault) => write!(f, "failed {}", fault.short()),
            End::Closed(reason) => write!(f, "closed {reason}"),
            End::Disconnected(reason) => write!(f, "disconnected {reason}"),
        }
    }
}

fn write_complete<W: fmt::Write>(f: &mut fmt::Formatter<W>, complete: Option<bool>) -> fmt::Result
    ensures { WritesOnOk W.write_str_gives f.old result (complete_text complete) f.new }
{
    match complete {
        Some(complete) => {
            let complete = yes_or_no(complete);
            writeln!(f, "complete {complete}")
        }
        None => Ok(()),
    }
}

fn write_agreement<W: fmt::Write>(
    alloc: Global,
    f: &mut fmt::Formatter<W>,
    client: &End,
    server: &End,
    session: bool,
) -> fmt::Result
    ensures { WritesOnOk W.write_str_gives f.old result (agreement_text session (end_data client.now) (end_data server.now)) f.new }
{
    match (client, server) {
        (End::Authenticated(agreed), _) | (_, End::Authenticated(agreed)) => {
            write_agreed(alloc, f, agreed, session)
        }
        _ => Ok(()),
    }
}

fn write_agreed<W: fmt::Write>(
    alloc: Global,
    f: &mut fmt::Formatter<W>,
    agreed: &Agreed,
    session: bool,
) -> fmt::Result
    ensures { WritesOnOk W.write_str_gives f.old result (agreed_text session (agreed_data agreed.now)) f.new }
{
    write_algorithms(f, agreed)?;
    let strict = yes_or_no(agreed.strict);
    writeln!(f, "strict {strict}")?;
    write_session(alloc, f, session, &agreed.session)
}

fn write_algorithms<W: fmt::Write>(f: &mut fmt::Formatter<W>, agreed: &Agreed) -> fmt::Result
    ensures { WritesOnOk W.write_str_gives f.old result (algorithms_text (agreed_data agreed.now).algorithms) f.new }
{
    let (kex, host_key) = (&agreed.kex, &agreed.host_key);
    writeln!(f, "kex {kex}")?;
    writeln!(f, "hostkey {host_key}")?;
    let (to_server, to_client) = (
        &agreed.encryption_client_to_server,
        &agreed.encryption_server_to_client,
    );
    writeln!(f, "cipher_cs {to_server}")?;
    writeln!(f, "cipher_sc {to_client}")?;
    let (to_server, to_client) = (&agreed.mac_client_to_server, &agreed.mac_server_to_client);
    writeln!(f, "mac_cs {to_server}")?;
    writeln!(f, "mac_sc {to_client}")
}

fn write_session<W: fmt::Write>(
    alloc: Global,
    f: &mut fmt::Formatter<W>,
    asked: bool,
    session: &[u8],
) -> fmt::Result
    ensures { WritesOnOk W.write_str_gives f.old result (session_text asked session.now) f.new }
{
    if !asked {
        return Ok(());
    }
    f.write_str("session ")?;
    write_hex(alloc, f, session)?;
    f.write_str("\n")
}

/// Two digits in lower case for each byte. A failed allocation is a failed write.
pub(crate) fn write_hex<W: fmt::Write>(
    alloc: Global,
    f: &mut fmt::Formatter<W>,
    bytes: &[u8],
) -> fmt::Result
    ensures { WritesOnOk W.write_str_gives f.old result (encode_lower bytes.now) f.new }
{
    let digits = hex::encode(alloc, bytes).map_err(|_| fmt::Error)?;
    f.write_str(&digits)
}

pub(crate) fn yes_or_no(flag: bool) -> &'static str
    ensures { result.now ≡ yes_or_no flag }
{
    if flag { "yes" } else { "no" }
}
