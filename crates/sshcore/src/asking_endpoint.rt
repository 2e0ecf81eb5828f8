//! One endpoint that asks and waits, fed with bytes.

ghost use Rattle.std.specs.Prelude.{◌≡◌, ◌≢◌, ◌<◌, ◌≤◌, ◌+◌, ◌*◌, ◌↔◌, ◌++◌, ℕ, IfOk, IfSome, IsTrue, List, [], None, Ok, OnErr, OnOk, is_some, length, take, true, false};
ghost use Rattle.sshneg.specs.declared.side.Side.TheVariants.{Client, Server};
ghost use Rattle.sshcore.specs.declared.asking_endpoint.Fed.TheVariants as fed;
ghost use Rattle.sshcore.specs.declared.end.Fault.TheVariants as fault;
ghost use Rattle.sshcore.specs.Asking.{AskingBreaks, AskingFed, AskingMade, IsReadyForBytes, asked_by, asking_end, asking_turns, bytes_used, is_question};
ghost use Rattle.sshcore.specs.Brings.{IsOngoing};
ghost use Rattle.sshcore.specs.EndData.{Failed, Open, by_input, end_data};
ghost use Rattle.sshcore.specs.EndpointConfig.{config_data, role_of};
ghost use Rattle.sshcore.specs.EndpointParts.{config_of_client, config_of_server};
ghost use Rattle.sshcore.specs.Inputs.{CanRead, turns_left};
ghost use Rattle.sshcore.specs.Redrawn.{redrawn_client, redrawn_server};
ghost use Rattle.sshcore.specs.Keeping.{StillFits};
ghost use Rattle.sshcore.specs.StateData.{state_data};
ghost use Rattle.sshcore.specs.Unread.{AskingSteps};
ghost use Rattle.sshcore.specs.WaitingView.{waiting_of};

use crate::asking_given::Listener;
use crate::asking_input::Came;
use crate::asking_waiting::Waiting;
use crate::config::Config;
use crate::config_client::ClientConfig;
use crate::config_draws::Draws;
use crate::config_server::ServerConfig;
use crate::end::{End, Fault};
use crate::input::Input;
use crate::state::State;
use sshpacket::Suite;
use sshwire::Memory;
use std::alloc::Global;
use std::marker::Model;

/// One endpoint of SSH, a client or a server, from the first byte of the version line to the authenticated user (RFC 4253,
/// RFC 4252), which asks what it can't decide, and waits for the answer.
///
/// It is an [`Endpoint`](crate::Endpoint) without [`Decisions`](crate::Decisions): where a packet needs one,
/// [`feed`](AskingEndpoint::feed) stops after that packet, [`question`](AskingEndpoint::question) tells what is asked, and
/// [`answer`](AskingEndpoint::answer) goes on, at any later time.
#[derive(Drop)]
pub struct AskingEndpoint<'a, S: Suite, L: Listener> {
    pub(crate) config: Config<'a>,
    pub(crate) suite: &'a S,
    pub(crate) listener: &'a L,
    pub(crate) input: Input,
    pub(crate) state: State<'a>,
    /// The packet that waits for its answer.
    pub(crate) waiting: Option<Waiting>,
}

impl<'a, S: Suite, L: Listener> Model for AskingEndpoint<'a, S, L> {
    ghost use Rattle.sshcore.specs.AskingData.{AskingData};
    ghost use Rattle.sshcore.specs.EndpointConfig.{config_data, role_of};
    ghost use Rattle.sshcore.specs.StateData.{state_data};
    ghost use Rattle.sshcore.specs.Unread.{IsAskingEndpoint};
    ghost use Rattle.sshcore.specs.WaitingView.{waiting_of};
    ghost use Rattle.sshcore.specs.AttemptProps.{IsAttempt-prop};
    ghost use Rattle.sshcore.specs.ConfigRules.{IsAttempt};
    ghost use Rattle.std.specs.Coded.{codes};
    ghost use Rattle.std.specs.List.{AllByRecursion-prop};

    ghost Value = { AskingData S };

    ghost coded = { Prim.hlevel (codes, AllByRecursion-prop IsAttempt IsAttempt-prop) };

    ghost view = { λ e. record {
      role = role_of e.config;
      config = config_data e.config;
      suite = e.suite.now;
      input = e.input;
      state = e.state;
      waiting = waiting_of e.waiting;
    } };

    ghost invariant = { λ e. IsAskingEndpoint (S.meaning e.suite.now) (role_of e.config) (config_data e.config) (state_data e.state) e.input (waiting_of e.waiting) };
}

/// What came of a piece, with how many bytes of it were used.
#[derive(Clone, Copy, PartialEq, Eq, Debug)]
pub enum Fed {
    /// All of them, unless the endpoint ended inside the piece; then those up to the place of the refusal, or to the end
    /// of the packet that ended it.
    Used(usize),
    /// Those up to the end of a packet that asks: the endpoint waits for an answer.
    Asks {
        /// How many bytes of the piece were used.
        used: usize,
    },
}

impl<'a, S: Suite, L: Listener> AskingEndpoint<'a, S, L> {
    /// A client that has received nothing yet, with these draws. Its version line, its KEXINIT and, where its config
    /// announces a guess, its share are appended to `out` (RFC 4253 sections 4.2, 7.1 and 7). Answers
    /// `Memory` where an allocation failed; `out` is then unchanged.
    ///
    /// Its KEXINIT has the draws' cookie, its share is made of their exchange random, and its padding of their
    /// seed; all else is the config's. So one config serves any number of connections, each with fresh random
    /// draws.
    pub fn client(
        alloc: Global,
        config: &'a ClientConfig,
        draws: Draws,
        suite: &'a S,
        listener: &'a L,
        out: &mut Vec<u8>,
    ) -> Result<AskingEndpoint<'a, S, L>, Memory>
        ensures made { IfOk result (λ e. AskingMade S.meaning Client (config_of_client (redrawn_client draws config.now)) suite.now e out.old.items out.new.items) }
        ensures memory { OnErr result (out.new.items ≡ out.old.items) }
    {
        AskingEndpoint::begin(alloc, Config::Client(config, draws), suite, listener, out)
    }

    /// A server that has received nothing yet, with these draws. Its notice lines, its version line and its KEXINIT are
    /// appended to `out` (RFC 4253 sections 4.2 and 7.1). Answers `Memory` where an allocation failed;
    /// `out` is then unchanged.
    ///
    /// Its KEXINIT has the draws' cookie, its share is made of their exchange random, and its padding of their
    /// seed; all else is the config's. So one config serves any number of connections, each with fresh random
    /// draws: what a client once sent is then accepted in none but the connection that it was sent in, since the
    /// session identifier depends on the cookie.
    pub fn server(
        alloc: Global,
        config: &'a ServerConfig,
        draws: Draws,
        suite: &'a S,
        listener: &'a L,
        out: &mut Vec<u8>,
    ) -> Result<AskingEndpoint<'a, S, L>, Memory>
        ensures made { IfOk result (λ e. AskingMade S.meaning Server (config_of_server (redrawn_server draws config.now)) suite.now e out.old.items out.new.items) }
        ensures memory { OnErr result (out.new.items ≡ out.old.items) }
    {
        AskingEndpoint::begin(alloc, Config::Server(config, draws), suite, listener, out)
    }

    /// An endpoint that has received nothing yet.
    pub(crate) fn begin(
        alloc: Global,
        config: Config<'a>,
        suite: &'a S,
        listener: &'a L,
        out: &mut Vec<u8>,
    ) -> Result<AskingEndpoint<'a, S, L>, Memory>
        ensures made { IfOk result (λ e. AskingMade S.meaning (role_of config.entry) (config_data config.entry) suite.now e out.old.items out.new.items) }
        ensures memory { OnErr result (out.new.items ≡ out.old.items) }
    {
        sshpacket::parser_by_law();
        sshpacket::stream_law();
        sshmsg::numbers_law();
        sshneg::markers_law();
        let mut state = State::new(alloc, &config);
        state.send_greeting(&config, suite, out)?;
        Ok(AskingEndpoint {
            input: Input::new(alloc, config.role(), config.line_form()),
            config,
            suite,
            listener,
            state,
            waiting: None,
        })
    }

    /// Reads the next bytes that the peer sent, in any piece, and appends to `out` what is sent to them.
    /// Answers how many bytes were used: all of them, unless the endpoint ends inside the piece, as
    /// [`Endpoint::feed`](crate::Endpoint::feed) does; or unless a packet asks. Then those up to the end of that packet
    /// were used, and the endpoint waits: [`question`](AskingEndpoint::question) tells what is asked. Send what was
    /// appended, answer, and then feed what it didn't use.
    ///
    /// An endpoint that waits, or that has ended, uses and appends nothing. Answers `Memory` where an allocation failed:
    /// the endpoint has then failed, and `out` has its old bytes followed by whole packets.
    pub fn feed(&mut self, piece: &[u8], out: &mut Vec<u8>) -> Result<Fed, Memory>
        ensures fed { IfOk result (λ f. AskingFed S.meaning self.old self.new (take (bytes_used f) piece.now) out.old.items out.new.items) }
        ensures used { IfOk result (λ f. (bytes_used f ≤ length piece.now) × (asking_end self.new ≡ Open → asked_by self.new ≡ None → bytes_used f ≡ length piece.now)) }
        // It answers so exactly where it asks.
        ensures asks { IfOk result (λ f. is_question f ≡ is_some (asked_by self.new)) }
        // A call that used nothing asks nothing else.
        ensures nothing { IfOk result (λ f. bytes_used f ≡ 0 → asked_by self.new ≡ asked_by self.old) }
        ensures memory { OnErr result ((asking_end self.new ≡ Failed fault.Memory) × AskingBreaks S.meaning self.old self.new piece.now out.old.items out.new.items) }
        // Running out of memory is answered, and never found later.
        ensures kept { OnOk result (asking_end self.new ≡ Failed fault.Memory → asking_end self.old ≡ Failed fault.Memory) }
        // And no other end comes of it than those of what is received: its owner alone cuts it off or disconnects it.
        ensures owned { OnOk result (by_input (asking_end self.new) ≡ false → asking_end self.old ≡ asking_end self.new) }
        ensures waits { is_some (asked_by self.old) ≡ true → (result ≡ Ok (fed.Asks 0)) × (self.new ≡ self.old) × (out.new ≡ out.old) }
        ensures ended { asking_end self.old ≢ Open → (result ≡ Ok (fed.Used 0)) × (self.new ≡ self.old) × (out.new ≡ out.old) }
    {
        let mut used = 0;
        while used < piece.len() && self.is_ready() {
            let listener = self.listener;
            used += self.take_for(listener, &piece[used..], out)?;
        }
        Ok(self.fed(used))
    }

    /// Reads on up to the end of one unit, and tells this listener what that tells people.
    pub(crate) fn take_for<T: Listener>(
        &mut self,
        listener: &T,
        piece: &[u8],
        out: &mut Vec<u8>,
    ) -> Result<usize, Memory>
        requires ready { IsReadyForBytes self.old }
        requires some { 0 < length piece.now }
        ensures fed { IfOk result (λ used. AskingFed S.meaning self.old self.new (take used piece.now) out.old.items out.new.items) }
        ensures used { IfOk result (λ used. used ≤ length piece.now) }
        ensures turns { IfOk result (λ used. asking_turns self.new < asking_turns self.old + 3 * used) }
        ensures nothing { IfOk result (λ used. used ≡ 0 → asked_by self.new ≡ None) }
        // Where it waits it is open, and nothing was sent.
        ensures waits { IfOk result (λ used. IfSome self.new.waiting (λ w. (asking_end self.new ≡ Open) × (out.new.items ≡ out.old.items))) }
        ensures memory { OnErr result ((asking_end self.new ≡ Failed fault.Memory) × AskingBreaks S.meaning self.old self.new piece.now out.old.items out.new.items) }
        ensures broken { OnErr result (self.new.waiting ≡ self.old.waiting) }
        ensures kept { OnOk result (by_input (asking_end self.new) ≡ true) }
    {
        let received = receive(
            &mut self.input,
            &mut self.state,
            &self.config,
            self.suite,
            listener,
            piece,
            out,
        );
        match received {
            Ok(came) => {
                self.waiting = came.waiting;
                Ok(came.used)
            }
            Err(_) => {
                self.state.end = End::Failed(Fault::Memory);
                Err(Memory)
            }
        }
    }

    /// So many bytes were used.
    fn fed(&self, used: usize) -> Fed
        ensures used { bytes_used result ≡ used }
        ensures asks { is_question result ≡ is_some (asked_by self.now) }
    {
        if self.is_open() && self.waiting.is_some() {
            Fed::Asks { used }
        } else {
            Fed::Used(used)
        }
    }

    /// Whether it is open and asks nothing.
    fn is_ready(&self) -> bool
        ensures { IsTrue result ↔ IsReadyForBytes self.now }
    {
        self.is_open() && self.waiting.is_none()
    }

    /// Whether it is open.
    pub(crate) fn is_open(&self) -> bool
        ensures { IsTrue result ↔ (asking_end self.now ≡ Open) }
    {
        match self.state.end {
            End::Open => true,
            _ => false,
        }
    }
}

/// Reads on up to the end of one unit; where an allocation failed `out` is unchanged.
fn receive<S: Suite, L: Listener>(
    input: &mut Input,
    state: &mut State<'_>,
    config: &Config<'_>,
    suite: &S,
    listener: &L,
    piece: &[u8],
    out: &mut Vec<u8>,
) -> Result<Came, Memory>
    requires open { end_data state.old.end ≡ Open }
    requires some { 0 < length piece.now }
    requires reads { CanRead (S.meaning suite.now) input.old }
    ensures steps { IfOk result (λ came. (added : List ℕ) × (out.new.items ≡ out.old.items ++ added)
        × AskingSteps (S.meaning suite.now) (role_of config.now) (config_data config.now) input.old (state_data state.old) input.new (state_data state.new)
        (waiting_of came.waiting) (take came.used piece.now) [] added) }
    ensures used { IfOk result (λ came. came.used ≤ length piece.now) }
    ensures turns { IfOk result (λ came. turns_left (end_data state.new.end) input.new < turns_left (end_data state.old.end) input.old + 3 * came.used) }
    ensures reads { OnOk result (IsOngoing (end_data state.new.end) → CanRead (S.meaning suite.now) input.new) }
    ensures keeps { OnOk result (StillFits (S.meaning suite.now) (config_data config.now) (state_data state.old) (state_data state.new)) }
    ensures kept { OnOk result (by_input (end_data state.new.end) ≡ true) }
    ensures memory { OnErr result (out.new.items ≡ out.old.items) }
{
    let mut sent = Vec::new(state.alloc);
    let came = input.receive_asking(state, config, suite, listener, piece, &mut sent)?;
    out.extend_from_slice(&sent)?;
    Ok(came)
}
