//! Phase newkeys: the peer's NEWKEYS (RFC 4253 section 7.3).

ghost use Rattle.std.specs.Prelude.{◌≡◌};
ghost use Rattle.sshcore.specs.declared.phase_table.Phase.TheVariants as phase;
ghost use Rattle.sshcore.specs.Brings.{received_newkeys};
ghost use Rattle.sshcore.specs.EndpointConfig.{config_data};
ghost use Rattle.sshcore.specs.StateData.{keys_due, keys_left, state_data};

use crate::config::Config;
use crate::phase_table::Phase;
use crate::state::State;
use sshpacket::Keys;

impl State<'_> {
    /// Is told that the peer goes over to the new keys. From here on what says nothing counts.
    pub(crate) fn receive_new_keys(&mut self, config: &Config<'_>)
        requires { self.old.phase ≡ phase.NewKeys }
        ensures { state_data self.new ≡ record (state_data self.old) { phase = phase.Service; known = received_newkeys (config_data config.now) (state_data self.old).known } }
    {
        self.phase = Phase::Service;
        self.first = false;
        self.allowance = config.side().ignored_limit;
    }

    /// The keys of what is received from here on, right after NEWKEYS.
    pub(crate) fn take_keys(&mut self) -> Option<Keys>
        ensures keys { result ≡ keys_due self.old.phase self.old.pending }
        ensures left { state_data self.new ≡ record (state_data self.old) { carried = record (state_data self.old).carried { pending = keys_left self.old.phase self.old.pending } } }
    {
        match self.phase {
            Phase::Service => self.pending.take(),
            _ => None,
        }
    }
}
