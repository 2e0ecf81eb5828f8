//! One endpoint, fed with bytes.

ghost use Rattle.std.specs.Prelude.{◌≡◌, ◌≢◌, None, Some, ◌<◌, ◌≤◌, ◌+◌, ◌*◌, ◌↔◌, ◌++◌, [], ℕ, IfOk, IfSome, IsTrue, List, Ok, OnErr, OnOk, is_some, length, take, true, false};
ghost use Rattle.sshneg.specs.declared.side.Side.TheVariants.{Client, Server};
ghost use Rattle.sshpacket.specs.declared.limits.TheConstants.{PACKET_LIMIT};
ghost use Rattle.sshcore.specs.declared.end.Fault.TheVariants as fault;
ghost use Rattle.sshcore.specs.EndData.{AgreedData, Authenticated, Failed, Open, by_input};
ghost use Rattle.sshcore.specs.EndpointParts.{config_of_client, config_of_server};
ghost use Rattle.sshcore.specs.Before.{strict_at};
ghost use Rattle.sshcore.specs.EndpointConfig.{config_data, role_of};
ghost use Rattle.sshcore.specs.Endpoints.{Breaks, Cuts, EndpointAfter, EndpointMade, Fed, HasUnfinished, Leaves, buffered_of, endpoint_end, turns_of};
ghost use Rattle.sshcore.specs.Directions.{payloads_in};
ghost use Rattle.sshcore.specs.Exchange.{algorithms_at};
ghost use Rattle.sshcore.specs.NamesView.{names_of};
ghost use Rattle.sshcore.specs.Phases.{past_kexinit, phase_at};
ghost use Rattle.sshcore.specs.Redrawn.{redrawn_client, redrawn_server};
ghost use Rattle.sshcore.specs.Sessions.{IsSession};
ghost use Rattle.sshcore.specs.Shown.{ShowsTheSame};
ghost use Rattle.sshcore.specs.EndpointData.{endpoint_setup};

use crate::asking_endpoint::AskingEndpoint;
use crate::asking_given::{Silent, Tells, told_to_nobody};
use crate::config::Config;
use crate::config_client::ClientConfig;
use crate::config_draws::Draws;
use crate::config_server::ServerConfig;
use crate::decisions::Decisions;
use crate::end::End;
use crate::kex_chosen_names::ChosenNames;
use crate::phase_table::Phase;
use crate::session::Session;
use sshpacket::Suite;
use sshwire::Memory;
use std::alloc::Global;
use std::marker::Model;

/// One endpoint of SSH, a client or a server, from the first byte of the version line to the
/// authenticated user (RFC 4253, RFC 4252).
#[derive(Drop)]
pub struct Endpoint<'a, S: Suite, D: Decisions> {
    /// The same without decisions. What it asks is answered at once, so between two calls it waits for nothing.
    asking: AskingEndpoint<'a, S, Silent>,
    decisions: &'a D,
}

impl<'a, S: Suite, D: Decisions> Model for Endpoint<'a, S, D> {
    ghost use Rattle.std.specs.Prelude.{◌≡◌, None};
    ghost use Rattle.sshcore.specs.EndpointData.{EndpointData};
    ghost use Rattle.sshcore.specs.AttemptProps.{IsAttempt-prop};
    ghost use Rattle.sshcore.specs.ConfigRules.{IsAttempt};
    ghost use Rattle.std.specs.Coded.{codes};
    ghost use Rattle.std.specs.List.{AllByRecursion-prop};

    ghost Value = { EndpointData S D };

    ghost coded = { Prim.hlevel (codes, AllByRecursion-prop IsAttempt IsAttempt-prop) };

    ghost view = { λ e. record {
      role = e.asking.role;
      config = e.asking.config;
      suite = e.asking.suite;
      decisions = e.decisions.now;
      input = e.asking.input;
      state = e.asking.state;
    } };

    ghost invariant = { λ e. e.asking.waiting ≡ None };
}

impl<'a, S: Suite, D: Decisions> Endpoint<'a, S, D> {
    /// A client that has received nothing yet. Its version line, its KEXINIT and, where its config
    /// announces a guess, its share are appended to `out` (RFC 4253 sections 4.2, 7.1 and 7). Answers
    /// `Memory` where an allocation failed; `out` is then unchanged.
    ///
    /// Its draws are the config's own, so one config serves one connection this way: a second one would
    /// send the same cookie and share again. [`Endpoint::client_with`] takes fresh draws.
    pub fn client(
        alloc: Global,
        config: &'a ClientConfig,
        suite: &'a S,
        decisions: &'a D,
        out: &mut Vec<u8>,
    ) -> Result<Endpoint<'a, S, D>, Memory>
        ensures made { IfOk result (λ e. EndpointMade S.meaning D.policy Client (config_of_client config.now) suite.now decisions.now e out.old.items out.new.items) }
        ensures memory { OnErr result (out.new.items ≡ out.old.items) }
    {
        Endpoint::client_with(alloc, config, config.draws(), suite, decisions, out)
    }

    /// The same with these draws: its KEXINIT has their cookie, its share is made of their exchange random,
    /// and its padding of their seed; all else is the config's. So one config serves any number of
    /// connections, each with fresh random draws.
    pub fn client_with(
        alloc: Global,
        config: &'a ClientConfig,
        draws: Draws,
        suite: &'a S,
        decisions: &'a D,
        out: &mut Vec<u8>,
    ) -> Result<Endpoint<'a, S, D>, Memory>
        ensures made { IfOk result (λ e. EndpointMade S.meaning D.policy Client (config_of_client (redrawn_client draws config.now)) suite.now decisions.now e out.old.items out.new.items) }
        ensures memory { OnErr result (out.new.items ≡ out.old.items) }
    {
        Endpoint::begin(alloc, Config::Client(config, draws), suite, decisions, out)
    }

    /// A server that has received nothing yet. Its notice lines, its version line and its KEXINIT are
    /// appended to `out` (RFC 4253 sections 4.2 and 7.1). Answers `Memory` where an allocation failed;
    /// `out` is then unchanged.
    ///
    /// Its draws are the config's own, so one config serves one connection this way. To a second server of
    /// the same draws the bytes of a client that were recorded at the first are accepted again, and it ends
    /// authenticated without that client. [`Endpoint::server_with`] takes fresh draws.
    pub fn server(
        alloc: Global,
        config: &'a ServerConfig,
        suite: &'a S,
        decisions: &'a D,
        out: &mut Vec<u8>,
    ) -> Result<Endpoint<'a, S, D>, Memory>
        ensures made { IfOk result (λ e. EndpointMade S.meaning D.policy Server (config_of_server config.now) suite.now decisions.now e out.old.items out.new.items) }
        ensures memory { OnErr result (out.new.items ≡ out.old.items) }
    {
        Endpoint::server_with(alloc, config, config.draws(), suite, decisions, out)
    }

    /// The same with these draws: its KEXINIT has their cookie, its share is made of their exchange random,
    /// and its padding of their seed; all else is the config's. So one config serves any number of
    /// connections, each with fresh random draws: what a client once sent is then accepted in none but the
    /// connection that it was sent in, since the session identifier depends on the cookie.
    pub fn server_with(
        alloc: Global,
        config: &'a ServerConfig,
        draws: Draws,
        suite: &'a S,
        decisions: &'a D,
        out: &mut Vec<u8>,
    ) -> Result<Endpoint<'a, S, D>, Memory>
        ensures made { IfOk result (λ e. EndpointMade S.meaning D.policy Server (config_of_server (redrawn_server draws config.now)) suite.now decisions.now e out.old.items out.new.items) }
        ensures memory { OnErr result (out.new.items ≡ out.old.items) }
    {
        Endpoint::begin(alloc, Config::Server(config, draws), suite, decisions, out)
    }

    /// An endpoint that has received nothing yet.
    fn begin(
        alloc: Global,
        config: Config<'a>,
        suite: &'a S,
        decisions: &'a D,
        out: &mut Vec<u8>,
    ) -> Result<Endpoint<'a, S, D>, Memory>
        ensures made { IfOk result (λ e. EndpointMade S.meaning D.policy (role_of config.entry) (config_data config.entry) suite.now decisions.now e out.old.items out.new.items) }
        ensures memory { OnErr result (out.new.items ≡ out.old.items) }
    {
        let asking = AskingEndpoint::begin(alloc, config, suite, told_to_nobody(), out)?;
        Ok(Endpoint { asking, decisions })
    }

    /// Reads the next bytes that the peer sent, in any piece, and appends to `out` what is sent to them.
    /// Answers how many bytes were used: all of them, unless the endpoint ends inside the piece; then
    /// those up to the place of the refusal, or to the end of the packet that ended it.
    ///
    /// Keep what it didn't use. After the packet that authenticated the user those are the first bytes of
    /// what follows, for the reader that goes on with the session, and a peer may send them in one piece
    /// with that packet: a server its first messages after SUCCESS, as OpenSSH's does; a client messages of
    /// the service, and further requests, after the one that succeeded (RFC 4252 section 5.1 has such
    /// requests ignored, by whoever goes on).
    ///
    /// An endpoint that has ended uses and appends nothing. Answers `Memory` where an allocation failed:
    /// the endpoint has then failed, and `out` has its old bytes followed by whole packets.
    pub fn feed(&mut self, piece: &[u8], out: &mut Vec<u8>) -> Result<usize, Memory>
        ensures fed { IfOk result (λ used. Fed S.meaning D.policy self.old self.new (take used piece.now) out.old.items out.new.items) }
        ensures used { IfOk result (λ used. (used ≤ length piece.now) × (endpoint_end self.new ≡ Open → used ≡ length piece.now)) }
        ensures memory { OnErr result ((endpoint_end self.new ≡ Failed fault.Memory) × Breaks S.meaning D.policy self.old self.new piece.now out.old.items out.new.items) }
        // Running out of memory is answered, and never found later.
        ensures kept { OnOk result (endpoint_end self.new ≡ Failed fault.Memory → endpoint_end self.old ≡ Failed fault.Memory) }
        // And no other end comes of it than those of what is received: its owner alone cuts it off or disconnects it.
        ensures owned { OnOk result (by_input (endpoint_end self.new) ≡ false → endpoint_end self.old ≡ endpoint_end self.new) }
        ensures ended { endpoint_end self.old ≢ Open → (result ≡ Ok 0) × (self.new ≡ self.old) × (out.new ≡ out.old) }
    {
        let mut used = 0;
        while used < piece.len() && self.is_open() {
            used += self.take(&piece[used..], out)?;
        }
        Ok(used)
    }

    /// Reads on up to the end of one unit, and answers what it asks.
    fn take(&mut self, piece: &[u8], out: &mut Vec<u8>) -> Result<usize, Memory>
        requires open { endpoint_end self.old ≡ Open }
        requires some { 0 < length piece.now }
        ensures fed { IfOk result (λ used. Fed S.meaning D.policy self.old self.new (take used piece.now) out.old.items out.new.items) }
        ensures used { IfOk result (λ used. used ≤ length piece.now) }
        ensures turns { IfOk result (λ used. turns_of self.new < turns_of self.old + 3 * used) }
        ensures memory { OnErr result ((endpoint_end self.new ≡ Failed fault.Memory) × Breaks S.meaning D.policy self.old self.new piece.now out.old.items out.new.items) }
        ensures kept { OnOk result (by_input (endpoint_end self.new) ≡ true) }
    {
        let decisions = self.decisions;
        let used = self.asking.take_for(&Tells { decisions }, piece, out)?;
        self.asking.decide(decisions, out)?;
        Ok(used)
    }

    /// The input has ended: an open endpoint fails as `Cut`, another doesn't change. Takes no memory.
    pub fn end_of_input(&mut self)
        ensures cuts { endpoint_end self.old ≡ Open → Cuts S.meaning D.policy self.old self.new }
        // What `phase`, `is_strict` and `algorithms` tell is as it was.
        ensures shows { ShowsTheSame self.old.state self.new.state }
        ensures ended { endpoint_end self.old ≢ Open → self.new ≡ self.old }
    {
        self.asking.end_of_input();
    }

    /// Disconnects: an open endpoint appends to `out` a DISCONNECT with this reason and description (RFC 4253
    /// section 11.1), and has ended as [`End::Disconnected`]. Send what was appended before the connection is
    /// closed.
    ///
    /// The reason may be any number. The language tag is empty, and a description of more than 1024 bytes isn't
    /// sent: the DISCONNECT has none then. Before NEWKEYS it goes in clear, as all that is sent there.
    ///
    /// An endpoint that has ended doesn't change, and nothing is appended. Answers `Memory` where an
    /// allocation failed: the endpoint has then failed, and `out` is unchanged.
    pub fn disconnect(
        &mut self,
        reason: u32,
        description: &str,
        out: &mut Vec<u8>,
    ) -> Result<(), Memory>
        ensures leaves { endpoint_end self.old ≡ Open → OnOk result (Leaves S.meaning D.policy self.old self.new reason description.now out.old.items out.new.items) }
        // What `phase`, `is_strict` and `algorithms` tell is as it was.
        ensures shows { OnOk result (ShowsTheSame self.old.state self.new.state) }
        ensures memory { OnErr result ((endpoint_end self.new ≡ Failed fault.Memory) × (out.new.items ≡ out.old.items) × Breaks S.meaning D.policy self.old self.new [] out.old.items out.new.items) }
        ensures ended { endpoint_end self.old ≢ Open → (result ≡ Ok tt) × (self.new ≡ self.old) × (out.new ≡ out.old) }
    {
        self.asking.disconnect(reason, description, out)
    }

    /// How the endpoint stands. Takes no memory.
    pub fn end(&self) -> &End
        ensures { result.now ≡ self.now.state.end }
    {
        self.asking.end()
    }

    /// What it waits for; of an endpoint that has ended, what it waited for last. Takes no memory.
    pub fn phase(&self) -> Phase
        ensures kept { result ≡ self.now.state.phase }
        // For every history of an open endpoint: the first phase whose leaving message it hasn't received.
        ensures waits { (h s : List ℕ) (a : EndpointAfter S.meaning D.policy self.now h s) → endpoint_end self.now ≡ Open → phase_at self.now.role self.now.config.offer (payloads_in a.units) ≡ result }
    {
        self.asking.phase()
    }

    /// Whether both sides are strict (OpenSSH's PROTOCOL, strict key exchange); None before the peer's KEXINIT has come,
    /// and where there is no choice. Who wants strict peers alone disconnects at `Some(false)`. Takes no memory.
    pub fn is_strict(&self) -> Option<bool>
        ensures some { IfSome result (λ strict. self.now.state.strict ≡ strict) }
        ensures there { is_some result ≡ past_kexinit self.now.state.phase }
        // For every history of an open endpoint: what both KEXINITs say.
        ensures both { (h s : List ℕ) (a : EndpointAfter S.meaning D.policy self.now h s) → endpoint_end self.now ≡ Open
            → IfSome result (λ strict. strict ≡ strict_at self.now.role self.now.config (payloads_in a.units)) }
    {
        self.asking.is_strict()
    }

    /// The names of the algorithms that both KEXINITs choose (RFC 4253 section 7.1); None before the peer's has
    /// come, and where there is no choice. Takes no memory.
    pub fn algorithms(&self) -> Option<ChosenNames<'_>>
        ensures some { IfSome result (λ names. self.now.state.algorithms ≡ Some (names_of names)) }
        ensures none { result ≡ None → self.now.state.algorithms ≡ None }
        // They are there from the peer's KEXINIT on.
        ensures there { is_some result ≡ past_kexinit self.now.state.phase }
        // For every history of an open endpoint: they are chosen by what was received and sent.
        ensures chosen { (h s : List ℕ) (a : EndpointAfter S.meaning D.policy self.now h s) → endpoint_end self.now ≡ Open
            → IfSome result (λ names. names_of names ≡ algorithms_at (S.meaning self.now.suite) self.now.role self.now.config (payloads_in a.units)) }
    {
        self.asking.algorithms()
    }

    /// How many bytes of the unfinished line or packet are held, at most `PACKET_LIMIT`; 0 once the
    /// endpoint has ended. Takes no memory.
    pub fn buffered(&self) -> usize
        ensures held { result ≡ buffered_of self.now }
        ensures bound { result ≤ PACKET_LIMIT }
        ensures unfinished { (h s : List ℕ) (a : EndpointAfter S.meaning D.policy self.now h s) → HasUnfinished self.now.role a.units a.rest (endpoint_end self.now) result }
    {
        self.asking.buffered()
    }

    /// What goes on after authentication, where the endpoint ended authenticated; None otherwise: what was
    /// agreed, both version lines, the server's public host key, at a server how the user was accepted, and the
    /// keys and numbers of both directions. The session's first byte is the one after those that `feed` has
    /// used. Takes no memory.
    pub fn into_session(self) -> Option<Session>
        ensures session { (h s : List ℕ) (p : EndpointAfter S.meaning D.policy self.entry h s) (a : AgreedData) → endpoint_end self.entry ≡ Authenticated a
            → (session : Session) × (result ≡ Some session) × IsSession (endpoint_setup S.meaning D.policy self.entry) p.units p.answers p.sizes a session × (p.rest ≡ []) }
        ensures none { ((a : AgreedData) → endpoint_end self.entry ≢ Authenticated a) → result ≡ None }
    {
        self.asking.into_session()
    }

    /// Whether it is open.
    fn is_open(&self) -> bool
        ensures { IsTrue result ↔ (endpoint_end self.now ≡ Open) }
    {
        self.asking.is_open()
    }
}
