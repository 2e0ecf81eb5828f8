//! What says nothing, and how much of it is taken.

ghost use Rattle.std.specs.Prelude.{◌≡◌, ◌≤◌, ◌&&◌, length};
ghost use Rattle.sshpacket.specs.declared.limits.TheConstants.{PACKET_LIMIT};
ghost use Rattle.sshcore.specs.IgnoredLimit.{cost, is_taken, less, overspends};
ghost use Rattle.sshcore.specs.Brings.{received_counted};
ghost use Rattle.sshcore.specs.StateData.{state_data};

use crate::config_parts::IGNORED_OVERHEAD;
use crate::packet_dispositions::{is_ignorable, message_number};
use crate::phase_table::Disposition;
use crate::state::State;

impl State<'_> {
    /// Whether a payload that this line would take says nothing, and counts more than may still come.
    pub(crate) fn takes_too_much(&self, disposition: Disposition, payload: &[u8]) -> bool
        requires short { length payload.now ≤ PACKET_LIMIT }
        ensures { result ≡ (is_taken disposition && overspends (state_data self.now).known.allowance payload.now) }
    {
        match disposition {
            Disposition::Reads | Disposition::Unknown => self.overspends(payload),
            _ => false,
        }
    }

    /// Whether a payload says nothing, and counts more than may still come.
    fn overspends(&self, payload: &[u8]) -> bool
        requires short { length payload.now ≤ PACKET_LIMIT }
        ensures { result ≡ overspends (state_data self.now).known.allowance payload.now }
    {
        match self.allowance {
            None => false,
            Some(left) => is_ignorable(message_number(payload)) && left < cost(payload),
        }
    }

    /// Has received a payload, which counts if it says nothing.
    pub(crate) fn count(&mut self, payload: &[u8])
        requires short { length payload.now ≤ PACKET_LIMIT }
        ensures { state_data self.new ≡ record (state_data self.old) { known = received_counted (state_data self.old).known payload.now } }
    {
        self.first = false;
        if is_ignorable(message_number(payload)) {
            self.allowance = less(self.allowance, cost(payload));
        }
    }
}

/// What a packet with this payload counts.
fn cost(payload: &[u8]) -> u32
    requires short { length payload.now ≤ PACKET_LIMIT }
    ensures { result ≡ cost payload.now }
{
    payload.len() as u32 + IGNORED_OVERHEAD
}

/// What is left of an allowance, if there is one.
fn less(allowance: Option<u32>, spent: u32) -> Option<u32>
    ensures { result ≡ less allowance spent }
{
    match allowance {
        None => None,
        Some(left) => Some(left.saturating_sub(spent)),
    }
}
