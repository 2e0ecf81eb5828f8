//! Phase kexinit: the peer's KEXINIT (RFC 4253 section 7.1).

ghost use Rattle.std.specs.Prelude.{◌≡◌, ◌≤◌, ◌++◌, ◌∷◌, ◌&&◌, [], IfOk, None, OnOk, Some, false, length, not, true};
ghost use Rattle.sshmsg.specs.View.{kexinit_data};
ghost use Rattle.sshpacket.specs.declared.limits.TheConstants.{PACKET_LIMIT};
ghost use Rattle.sshneg.specs.declared.side.Side.TheVariants.{Client, Server};
ghost use Rattle.sshneg.specs.ExchangeEnd.{client_of, offer_in, server_of};
ghost use Rattle.sshcore.specs.declared.end.Fault.TheVariants as fault;
ghost use Rattle.sshcore.specs.declared.phase_table.Phase.TheVariants as phase;
ghost use Rattle.sshcore.specs.Before.{strict_towards, wrong_guess};
ghost use Rattle.sshcore.specs.Brings.{IsOngoing, StandsAt};
ghost use Rattle.sshcore.specs.EndpointConfig.{config_data, role_of};
ghost use Rattle.sshcore.specs.EndData.{Failed, Open, by_input, end_data, goes};
ghost use Rattle.sshcore.specs.Exchange.{choice_with};
ghost use Rattle.sshcore.specs.ReplyView.{replied};
ghost use Rattle.sshcore.specs.StateData.{state_data};
ghost use Rattle.sshcore.specs.Negotiated.{IsNegotiated, sends_init};
ghost use Rattle.sshcore.specs.Standing.{after_offer};
ghost use Rattle.sshcore.specs.Work.{asks_by, asks_for_extensions, kexinit_reply, opening};

use crate::config::Config;
use crate::end::Fault;
use crate::kex_algorithms::Algorithms;
use crate::payloads::init_payload;
use crate::phase_table::Phase;
use crate::reply::Answers;
use crate::state::State;
use sshmsg::{KexInit, Message, MsgFault, SSH_MSG_KEXINIT, read};
use sshneg::{NoCommon, Side, choose, guess_right, strict_of};
use sshpacket::{ShareForm, Suite};
use sshwire::Memory;
use std::alloc::Global;

/// What the KEXINITs of both sides come to.
#[derive(Drop)]
pub(crate) struct Negotiated {
    algorithms: Algorithms,
    shares: ShareForm,
    /// Whether a guess is right (RFC 4253 section 7).
    right: bool,
}

impl State<'_> {
    /// Receives the peer's KEXINIT: judges strictness, then chooses, then judges guesses; a client sends its
    /// share unless a right guess has it (RFC 4253 section 7).
    pub(crate) fn receive_kexinit<S: Suite>(
        &mut self,
        config: &Config<'_>,
        suite: &S,
        payload: &[u8],
        peer: &KexInit<'_>,
    ) -> Result<Answers, Memory>
        requires open { end_data self.old.end ≡ Open }
        requires short { length payload.now ≤ PACKET_LIMIT }
        requires read { offer_in payload.now ≡ Some (kexinit_data peer.now) }
        ensures gives { IfOk result (λ answers. replied answers (end_data self.new.end) ≡ kexinit_reply (S.meaning suite.now) (role_of config.now) (config_data config.now) (state_data self.old).known (kexinit_data peer.now)) }
        ensures form { OnOk result (IsOngoing (state_data self.new).end
            → (state_data self.new).known.shares ≡ (S.meaning suite.now).share_form (state_data self.new).known.algorithms.kex) }
        ensures carries { OnOk result ((state_data self.new).carried ≡ (state_data self.old).carried) }
        ensures moves { OnOk result (IsOngoing (state_data self.new).end
            → StandsAt (state_data self.new) phase.Exchange (wrong_guess (role_of config.now) (config_data config.now).offer (Some (kexinit_data peer.now)))
            (after_offer (S.meaning suite.now) (role_of config.now) (config_data config.now) (state_data self.old).known payload.now (kexinit_data peer.now))) }
        ensures unsent { OnOk result ((state_data self.new).sending ≡ (state_data self.old).sending) }
        ensures kept { OnOk result (by_input (end_data self.new.end) ≡ true) }
    {
        let strict = is_strict(config, peer);
        if strict && !self.first {
            return self.fail(Fault::Strict(SSH_MSG_KEXINIT));
        }
        match negotiate(self.alloc, config, suite, peer)? {
            Err(field) => self.fail(Fault::NoCommon(field)),
            Ok(negotiated) => {
                self.strict = strict;
                self.guess = peer.first_kex_packet_follows && !negotiated.right;
                let asks = asks_for_extensions(peer);
                self.open_exchange(config, suite, payload, asks, negotiated)
            }
        }
    }

    /// Goes on to phase exchange with what was negotiated.
    fn open_exchange<S: Suite>(
        &mut self,
        config: &Config<'_>,
        suite: &S,
        payload: &[u8],
        asks: bool,
        negotiated: Negotiated,
    ) -> Result<Answers, Memory>
        requires open { end_data self.old.end ≡ Open }
        requires short { length payload.now ≤ PACKET_LIMIT }
        requires asks { asks ≡ asks_for_extensions payload.now }
        ensures gives { IfOk result (λ answers. replied answers (end_data self.new.end) ≡ goes (sends_init (S.meaning suite.now) (role_of config.now) (config_data config.now) negotiated.right negotiated.algorithms.kex)) }
        ensures stays { OnOk result (state_data self.new ≡ record (state_data self.old) {
          phase = phase.Exchange;
          known = record (state_data self.old).known { kexinit = payload.now; algorithms = negotiated.algorithms; shares = negotiated.shares; first = false };
        }) }
    {
        let kexinit = Vec::from_slice(self.alloc, payload)?;
        let answers = init_answers(self.alloc, config, suite, &negotiated)?;
        self.kexinit = kexinit;
        self.asks = asks;
        self.shares = negotiated.shares;
        self.algorithms = Some(negotiated.algorithms);
        self.phase = Phase::Exchange;
        self.first = false;
        Ok(answers)
    }
}

/// A client's share, unless a right guess has it.
fn init_answers<S: Suite>(
    alloc: Global,
    config: &Config<'_>,
    suite: &S,
    negotiated: &Negotiated,
) -> Result<Answers, Memory>
    ensures { IfOk result (λ answers. answers ≡ sends_init (S.meaning suite.now) (role_of config.now) (config_data config.now) negotiated.now.right negotiated.now.algorithms.kex) }
{
    if !opens(config, negotiated.right) {
        return Ok(Answers::none(alloc));
    }
    let init = init_payload(alloc, config, suite, negotiated.algorithms.kex())?;
    Answers::one(alloc, init)
}

/// Whether the endpoint is strict towards this peer (OpenSSH PROTOCOL section 1.10).
fn is_strict(config: &Config<'_>, peer: &KexInit<'_>) -> bool
    ensures { result ≡ strict_towards (role_of config.now) (config_data config.now).strict (Some (kexinit_data peer.now)) }
{
    sshneg::markers_law();
    strict_of(config.side().strict, config.role(), peer)
}

/// Whether this payload is a client's KEXINIT that asks for extensions (RFC 8308 section 2.1).
pub(crate) fn asks_in(alloc: Global, payload: &[u8]) -> Result<bool, Memory>
    ensures { IfOk result (λ asks. asks ≡ asks_for_extensions payload.now) }
{
    match read(alloc, payload) {
        Ok(Message::KexInit(kexinit)) => Ok(asks_for_extensions(&kexinit)),
        Err(MsgFault::Memory) => Err(Memory),
        _ => Ok(false),
    }
}

/// Whether a client's KEXINIT asks for extensions (RFC 8308 section 2.1).
fn asks_for_extensions(peer: &KexInit<'_>) -> bool
    ensures { result ≡ asks_by (Some (kexinit_data peer.now)) }
{
    peer.kex_algorithms.contains("ext-info-c")
}

/// Whether a message of the exchange is sent at KEXINIT: a client sends its share, unless a right guess
/// has it.
fn opens(config: &Config<'_>, right: bool) -> bool
    ensures client { role_of config.now ≡ Client → result ≡ not ((config_data config.now).offer.first_kex_packet_follows && right) }
    ensures server { role_of config.now ≡ Server → result ≡ false }
{
    match config {
        Config::Client(..) => !(config.guesses() && right),
        Config::Server(..) => false,
    }
}

/// What the own KEXINIT and the peer's come to, or the first field without a choice.
fn negotiate<S: Suite>(
    alloc: Global,
    config: &Config<'_>,
    suite: &S,
    peer: &KexInit<'_>,
) -> Result<Result<Negotiated, NoCommon>, Memory>
    ensures { IfOk result (λ found. IsNegotiated (S.meaning suite.now)
        (client_of (role_of config.now) (config_data config.now).offer (kexinit_data peer.now)) (server_of (role_of config.now) (config_data config.now).offer (kexinit_data peer.now)) found) }
{
    let own = config.kexinit()?;
    agree_as(alloc, suite, config.role(), &own, peer)
}

/// What the KEXINIT of this role and its peer's come to, or the first field without a choice.
fn agree_as<S: Suite>(
    alloc: Global,
    suite: &S,
    role: Side,
    own: &KexInit<'_>,
    peer: &KexInit<'_>,
) -> Result<Result<Negotiated, NoCommon>, Memory>
    ensures { IfOk result (λ found. IsNegotiated (S.meaning suite.now)
        (client_of role (kexinit_data own.now) (kexinit_data peer.now)) (server_of role (kexinit_data own.now) (kexinit_data peer.now)) found) }
{
    match role {
        Side::Client => agree(alloc, suite, own, peer),
        Side::Server => agree(alloc, suite, peer, own),
    }
}

/// What two KEXINITs come to, or the first field without a choice.
fn agree<S: Suite>(
    alloc: Global,
    suite: &S,
    client: &KexInit<'_>,
    server: &KexInit<'_>,
) -> Result<Result<Negotiated, NoCommon>, Memory>
    ensures { IfOk result (λ found. IsNegotiated (S.meaning suite.now) (kexinit_data client.now) (kexinit_data server.now) found) }
{
    sshneg::choice_law();
    sshneg::markers_law();
    match choose(client, server, suite) {
        Err(field) => Ok(Err(field)),
        Ok(chosen) => {
            let algorithms = Algorithms::at(alloc, client, &chosen)?;
            let shares = suite.share_form(algorithms.kex());
            let right = guess_right(client, server);
            Ok(Ok(Negotiated {
                algorithms,
                shares,
                right,
            }))
        }
    }
}
