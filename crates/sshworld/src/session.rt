//! The session identifier (RFC 4253 sections 7.2 and 8).

ghost use Rattle.std.specs.Prelude.{◌≡◌, ◌≤◌, ◌<◌, ◌^◌, IfOk, length};
ghost use Rattle.sshwire.specs.declared.limits.TheConstants.{LINE_LIMIT, PAYLOAD_LIMIT};
ghost use Rattle.sshwire.specs.Types.{IsName};
ghost use Rattle.sshmsg.specs.MessageData as content;
ghost use Rattle.sshmsg.specs.View.{kexinit_data, message_data};
ghost use Rattle.sshmsg.specs.Written.{written_message};
ghost use Rattle.sshneg.specs.Derivations.{exchange_text};
ghost use Rattle.sshneg.specs.ExchangeView.{exchange_data};
ghost use Rattle.sshpacket.specs.declared.limits.TheConstants.{SHARE_LIMIT};
ghost use Rattle.sshpacket.specs.Suite.{response_data};
ghost use Rattle.sshcore.specs.Chosen.{AreNamed};
ghost use Rattle.sshcore.specs.ConfigParts.{client_offer, server_offer, version_of};
ghost use Rattle.sshcore.specs.ConfigView.{side_data};
ghost use Rattle.sshcore.specs.Exchange.{answer_or};
ghost use Rattle.sshworld.specs.Agreement.{host_key_of_server, session_between};
ghost use Rattle.sshworld.specs.AlgorithmsView.{algorithms_named};
ghost use Rattle.sshworld.specs.SharesView.{AreBetween, AreShort, exchange_given};

use crate::algorithms::AlgorithmNames;
use crate::drawn::{DrawnClient, DrawnServer};
use sshcore::SideParts;
use sshmsg::{KexInit, Message, write};
use sshneg::{Exchange, exchange_input};
use sshpacket::{Response, Suite};
use sshwire::{Memory, VersionLine};
use std::alloc::Global;

/// What a side sends before the exchange: its version line, and the payload of its KEXINIT.
#[derive(Drop)]
struct Opening {
    version: VersionLine,
    kexinit: Vec<u8>,
    ghost version_short: { length version ≤ LINE_LIMIT },
    ghost kexinit_short: { length kexinit.items ≤ PAYLOAD_LIMIT },
}

/// What the two sides have given and come to, besides that.
#[derive(Drop)]
pub(crate) struct SharesGiven<'a> {
    host_key: &'a [u8],
    client_share: Vec<u8>,
    answer: Response,
}

/// The session identifier of two configs with these algorithms, by the server's public host key: the
/// exchange hash (RFC 4253 section 7.2). Answers `Memory` where an allocation failed, as each function below.
pub(crate) fn session<S: Suite>(
    alloc: Global,
    client: &DrawnClient<'_>,
    server: &DrawnServer<'_>,
    suite: &S,
    names: &AlgorithmNames<'_>,
    host_key: &[u8],
) -> Result<Vec<u8>, Memory>
    requires names { AreNamed (algorithms_named names.now) }
    requires host_key { host_key.now ≡ host_key_of_server (S.meaning suite.now) server.now names.now.host_key.now }
    ensures { IfOk result (λ session. session.items ≡ session_between (S.meaning suite.now) client.now server.now (algorithms_named names.now)) }
{
    let shares = shares_between(alloc, client, server, suite, names, host_key)?;
    let input = input_of(alloc, client, server, &shares)?;
    suite.digest(alloc, names.kex, &input)
}

/// The shares of both sides and the shared secret, beside the host key.
fn shares_between<'a, S: Suite>(
    alloc: Global,
    client: &DrawnClient<'_>,
    server: &DrawnServer<'_>,
    suite: &S,
    names: &AlgorithmNames<'_>,
    host_key: &'a [u8],
) -> Result<SharesGiven<'a>, Memory>
    requires names { AreNamed (algorithms_named names.now) }
    requires host_key { host_key.now ≡ host_key_of_server (S.meaning suite.now) server.now names.now.host_key.now }
    ensures shares { IfOk result (λ shares. AreBetween (S.meaning suite.now) client.now server.now (algorithms_named names.now) shares) }
    ensures short { IfOk result (λ shares. AreShort shares) }
{
    let client_share = share_of(alloc, client, suite, names.kex)?;
    let answer = answer_of(alloc, server, suite, names.kex, &client_share)?;
    Ok(SharesGiven {
        host_key,
        client_share,
        answer,
    })
}

/// The client's share, of its random bytes.
fn share_of<S: Suite>(
    alloc: Global,
    client: &DrawnClient<'_>,
    suite: &S,
    kex: &str,
) -> Result<Vec<u8>, Memory>
    requires { IsName kex.now }
    ensures share { IfOk result (λ share. share.items ≡ (S.meaning suite.now).share kex.now client.now.side.random) }
    ensures short { IfOk result (λ share. length share.items ≤ SHARE_LIMIT) }
{
    suite.public(alloc, kex, client.exchange_random())
}

/// The server's share and the shared secret, as the server answers the client's share; where it
/// answers nothing both are empty.
fn answer_of<S: Suite>(
    alloc: Global,
    server: &DrawnServer<'_>,
    suite: &S,
    kex: &str,
    share: &[u8],
) -> Result<Response, Memory>
    requires kex { IsName kex.now }
    requires share { length share.now ≤ SHARE_LIMIT }
    ensures answer { IfOk result (λ answer. response_data answer ≡ answer_or ((S.meaning suite.now).respond kex.now server.now.side.random share.now)) }
    ensures share { IfOk result (λ answer. length answer.share.items ≤ SHARE_LIMIT) }
    ensures shared { IfOk result (λ answer. length answer.shared.items ≤ SHARE_LIMIT) }
{
    match suite.respond(alloc, kex, server.exchange_random(), share)? {
        Some(answer) => Ok(answer),
        None => Ok(Response {
            share: Vec::new(alloc),
            shared: Vec::new(alloc),
        }),
    }
}

/// What is hashed (RFC 4253 section 8).
fn input_of(
    alloc: Global,
    client: &DrawnClient<'_>,
    server: &DrawnServer<'_>,
    shares: &SharesGiven<'_>,
) -> Result<Vec<u8>, Memory>
    requires { AreShort shares.now }
    ensures input { IfOk result (λ input. input.items ≡ exchange_text (exchange_given client.now server.now shares.now)) }
    ensures short { IfOk result (λ input. length input.items < 2 ^ 32) }
{
    sshneg::exchange_law();
    let client = client_opening(alloc, client)?;
    let server = server_opening(alloc, server)?;
    exchange_input(
        alloc,
        &Exchange {
            client_version: client.version.text(),
            server_version: server.version.text(),
            client_kexinit: &client.kexinit,
            server_kexinit: &server.kexinit,
            host_key: shares.host_key,
            client_share: &shares.client_share,
            server_share: &shares.answer.share,
            shared: &shares.answer.shared,
        },
    )
}

/// What a client sends before the exchange.
fn client_opening(alloc: Global, client: &DrawnClient<'_>) -> Result<Opening, Memory>
    ensures version { IfOk result (λ opening. opening.version ≡ version_of client.now.side) }
    ensures kexinit { IfOk result (λ opening. opening.kexinit.items ≡ written_message (content.KexInit (client_offer client.now))) }
{
    let version = version_line(alloc, client.side())?;
    let kexinit = payload(alloc, client.kexinit()?)?;
    Ok(Opening { version, kexinit })
}

/// What a server sends before the exchange, its notice lines left out.
fn server_opening(alloc: Global, server: &DrawnServer<'_>) -> Result<Opening, Memory>
    ensures version { IfOk result (λ opening. opening.version ≡ version_of server.now.side) }
    ensures kexinit { IfOk result (λ opening. opening.kexinit.items ≡ written_message (content.KexInit (server_offer server.now))) }
{
    let version = version_line(alloc, server.side())?;
    let kexinit = payload(alloc, server.kexinit()?)?;
    Ok(Opening { version, kexinit })
}

/// The version line of a side, of whose parts it is known that they spell one (RFC 4253 section 4.2).
fn version_line(alloc: Global, side: &SideParts) -> Result<VersionLine, Memory>
    ensures { IfOk result (λ line. line ≡ version_of (side_data side.now)) }
{
    let line = match &side.comments {
        Some(comments) => {
            VersionLine::new(alloc, &side.softwareversion, Some(comments.as_str()))
        }
        None => VersionLine::new(alloc, &side.softwareversion, None),
    };
    match line {
        Ok(line) => Ok(line),
        Err(_) => Err(Memory),
    }
}

/// The payload of a KEXINIT (RFC 4253 section 7.1).
fn payload(alloc: Global, kexinit: KexInit<'_>) -> Result<Vec<u8>, Memory>
    requires { length (written_message (content.KexInit (kexinit_data kexinit))) ≤ PAYLOAD_LIMIT }
    ensures { IfOk result (λ payload. payload.items ≡ written_message (content.KexInit (kexinit_data kexinit.entry))) }
{
    let message = Message::KexInit(Box::new(alloc, kexinit)?);
    written(alloc, &message)
}

/// The payload of a message.
fn written(alloc: Global, message: &Message<'_>) -> Result<Vec<u8>, Memory>
    requires { length (written_message (message_data message.now)) ≤ PAYLOAD_LIMIT }
    ensures { IfOk result (λ payload. payload.items ≡ written_message (message_data message.now)) }
{
    let mut payload = Vec::new(alloc);
    write(message, &mut payload)?;
    Ok(payload)
}
