//! How an asking endpoint stands, how its owner ends it, and what it hands over.

ghost use Rattle.std.specs.Prelude.{◌≡◌, ◌≢◌, ◌≤◌, None, Ok, Some, ℕ, IfSome, List, [], OnErr, OnOk, is_some, true};
ghost use Rattle.sshpacket.specs.declared.limits.TheConstants.{PACKET_LIMIT};
ghost use Rattle.sshcore.specs.declared.end.Fault.TheVariants as fault;
ghost use Rattle.sshcore.specs.Asking.{AskingAfter, AskingBreaks, AskingCuts, AskingLeaves, asked_by, asking_end, asking_held};
ghost use Rattle.sshcore.specs.AskingData.{asking_setup};
ghost use Rattle.sshcore.specs.Before.{strict_at};
ghost use Rattle.sshcore.specs.Directions.{payloads_in};
ghost use Rattle.sshcore.specs.EndData.{AgreedData, Authenticated, Failed, Open};
ghost use Rattle.sshcore.specs.EndpointParts.{DecisionsData};
ghost use Rattle.sshcore.specs.Endpoints.{HasUnfinished};
ghost use Rattle.sshcore.specs.Exchange.{algorithms_at};
ghost use Rattle.sshcore.specs.NamesView.{names_of};
ghost use Rattle.sshcore.specs.Phases.{past_kexinit, phase_at};
ghost use Rattle.sshcore.specs.Sessions.{IsSession};
ghost use Rattle.sshcore.specs.Shown.{ShowsTheSame};

use crate::asking_endpoint::AskingEndpoint;
use crate::asking_given::Listener;
use crate::end::{End, Fault};
use crate::kex_chosen_names::ChosenNames;
use crate::lent::set;
use crate::phase_table::Phase;
use crate::session::{Session, accepted_by, session_of};
use sshpacket::Suite;
use sshwire::Memory;

impl<S: Suite, L: Listener> AskingEndpoint<'_, S, L> {
    /// The input has ended: an open endpoint fails as `Cut`, whether it waits or not; another doesn't change. Takes no
    /// memory.
    pub fn end_of_input(&mut self)
        ensures cuts { asking_end self.old ≡ Open → AskingCuts S.meaning self.old self.new }
        // What `phase`, `is_strict` and `algorithms` tell is as it was.
        ensures shows { ShowsTheSame self.old.state self.new.state }
        ensures waits { self.new.waiting ≡ self.old.waiting }
        ensures ended { asking_end self.old ≢ Open → self.new ≡ self.old }
    {
        if self.is_open() {
            let state = &mut self.state;
            set(&mut state.end, End::Failed(Fault::Cut));
        }
    }

    /// Disconnects, whether it waits or not: an open endpoint appends to `out` a DISCONNECT with this reason and description
    /// (RFC 4253 section 11.1), and has ended as [`End::Disconnected`]. Send what was appended before the connection is
    /// closed.
    ///
    /// The reason may be any number. The language tag is empty, and a description of more than 1024 bytes isn't
    /// sent: the DISCONNECT has none then. Before NEWKEYS it goes in clear, as all that is sent there.
    ///
    /// An endpoint that has ended doesn't change, and nothing is appended. Answers `Memory` where an
    /// allocation failed: the endpoint has then failed, and `out` is unchanged.
    pub fn disconnect(
        &mut self,
        reason: u32,
        description: &str,
        out: &mut Vec<u8>,
    ) -> Result<(), Memory>
        ensures leaves { asking_end self.old ≡ Open → OnOk result (AskingLeaves S.meaning self.old self.new reason description.now out.old.items out.new.items) }
        // What `phase`, `is_strict` and `algorithms` tell is as it was.
        ensures shows { OnOk result (ShowsTheSame self.old.state self.new.state) }
        ensures waits { self.new.waiting ≡ self.old.waiting }
        ensures memory { OnErr result ((asking_end self.new ≡ Failed fault.Memory) × (out.new.items ≡ out.old.items) × AskingBreaks S.meaning self.old self.new [] out.old.items out.new.items) }
        ensures ended { asking_end self.old ≢ Open → (result ≡ Ok tt) × (self.new ≡ self.old) × (out.new ≡ out.old) }
    {
        sshpacket::stream_law();
        if !self.is_open() {
            return Ok(());
        }
        let sent = self
            .state
            .disconnect(&self.config, self.suite, reason, description, out);
        match sent {
            Ok(()) => Ok(()),
            Err(_) => {
                self.state.end = End::Failed(Fault::Memory);
                Err(Memory)
            }
        }
    }

    /// How the endpoint stands. Takes no memory.
    pub fn end(&self) -> &End
        ensures { result.now ≡ self.now.state.end }
    {
        &self.state.end
    }

    /// What it waits for, a packet that asks not counted; of an endpoint that has ended, what it waited for last. Takes no
    /// memory.
    pub fn phase(&self) -> Phase
        ensures kept { result ≡ self.now.state.phase }
        // For every history of an open endpoint: the first phase whose leaving message it hasn't received.
        ensures waits { (d : DecisionsData) (h s : List ℕ) (a : AskingAfter S.meaning d self.now h s) → asking_end self.now ≡ Open
            → phase_at self.now.role self.now.config.offer (payloads_in a.stands.units) ≡ result }
    {
        self.state.phase
    }

    /// Whether both sides are strict (OpenSSH's PROTOCOL, strict key exchange); None before the peer's KEXINIT has come,
    /// and where there is no choice. Who wants strict peers alone disconnects at `Some(false)`. Takes no memory.
    pub fn is_strict(&self) -> Option<bool>
        ensures some { IfSome result (λ strict. self.now.state.strict ≡ strict) }
        ensures there { is_some result ≡ past_kexinit self.now.state.phase }
        // For every history of an open endpoint: what both KEXINITs say.
        ensures both { (d : DecisionsData) (h s : List ℕ) (a : AskingAfter S.meaning d self.now h s) → asking_end self.now ≡ Open
            → IfSome result (λ strict. strict ≡ strict_at self.now.role self.now.config (payloads_in a.stands.units)) }
    {
        match &self.state.algorithms {
            Some(_) => Some(self.state.strict),
            None => None,
        }
    }

    /// The names of the algorithms that both KEXINITs choose (RFC 4253 section 7.1); None before the peer's has
    /// come, and where there is no choice. Takes no memory.
    pub fn algorithms(&self) -> Option<ChosenNames<'_>>
        ensures some { IfSome result (λ names. self.now.state.algorithms ≡ Some (names_of names)) }
        ensures none { result ≡ None → self.now.state.algorithms ≡ None }
        // They are there from the peer's KEXINIT on.
        ensures there { is_some result ≡ past_kexinit self.now.state.phase }
        // For every history of an open endpoint: they are chosen by what was received and sent.
        ensures chosen { (d : DecisionsData) (h s : List ℕ) (a : AskingAfter S.meaning d self.now h s) → asking_end self.now ≡ Open
            → IfSome result (λ names. names_of names ≡ algorithms_at (S.meaning self.now.suite) self.now.role self.now.config (payloads_in a.stands.units)) }
    {
        match &self.state.algorithms {
            Some(algorithms) => Some(algorithms.names()),
            None => None,
        }
    }

    /// How many bytes of the unfinished line or packet are held, at most `PACKET_LIMIT`; 0 while it asks, and once the
    /// endpoint has ended. Takes no memory.
    pub fn buffered(&self) -> usize
        ensures held { result ≡ asking_held self.now }
        ensures bound { result ≤ PACKET_LIMIT }
        ensures none { is_some (asked_by self.now) ≡ true → result ≡ 0 }
        ensures unfinished { (d : DecisionsData) (h s : List ℕ) (a : AskingAfter S.meaning d self.now h s) → asked_by self.now ≡ None
            → HasUnfinished self.now.role a.stands.units a.stands.rest (asking_end self.now) result }
    {
        if self.is_open() {
            self.input.buffered()
        } else {
            0
        }
    }

    /// What goes on after authentication, where the endpoint ended authenticated; None otherwise: what was
    /// agreed, both version lines, the server's public host key, at a server how the user was accepted, and the
    /// keys and numbers of both directions. The session's first byte is the one after those that
    /// [`feed`](AskingEndpoint::feed) has used. Takes no memory.
    pub fn into_session(self) -> Option<Session>
        ensures session { (d : DecisionsData) (h s : List ℕ) (p : AskingAfter S.meaning d self.entry h s) (a : AgreedData) → asking_end self.entry ≡ Authenticated a
            → (session : Session) × (result ≡ Some session) × IsSession (asking_setup S.meaning d self.entry) p.stands.units p.stands.answers p.stands.sizes a session
            × (p.stands.rest ≡ []) × (p.earlier ≡ h) }
        ensures none { ((a : AgreedData) → asking_end self.entry ≢ Authenticated a) → result ≡ None }
    {
        sshmsg::numbers_law();
        sshneg::markers_law();
        let role = self.config.role();
        let state = self.state;
        let outgoing = (state.keys_out, state.number_out);
        let versions = (state.own_version, state.version);
        let user_key = state.user_key;
        let accepted = accepted_by(role, &state.completed, user_key);
        session_of(
            state.end.into_agreed(),
            versions,
            state.host_key,
            accepted,
            self.input.into_keys(),
            outgoing,
        )
    }
}
