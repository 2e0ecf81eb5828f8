//! A packet that waits for its answer.

ghost use Rattle.std.specs.Prelude.{◌≡◌, ◌≤◌, IfOk, length};
ghost use Rattle.sshpacket.specs.declared.limits.TheConstants.{PACKET_LIMIT};

use crate::pending::Pending;
use sshwire::Memory;
use std::alloc::Global;

/// A packet that was read and isn't answered yet.
#[derive(Drop)]
pub(crate) struct Waiting {
    pub(crate) payload: Vec<u8>,
    /// What it asks, with all that its answer needs.
    pub(crate) pending: Pending,
}

impl Waiting {
    ghost use Rattle.sshcore.specs.QuestionsView.{pending_question};
    ghost use Rattle.sshcore.specs.WaitingView.{waiting_data};

    /// A packet with this payload, and what it asks.
    pub(crate) fn new(alloc: Global, payload: &[u8], pending: Pending) -> Result<Waiting, Memory>
        requires short { length payload.now ≤ PACKET_LIMIT }
        ensures same { IfOk result (λ w. waiting_data w ≡ record { payload = payload.now; question = pending_question pending; pending = pending }) }
        ensures short { IfOk result (λ w. length (waiting_data w).payload ≤ PACKET_LIMIT) }
    {
        let payload = Vec::from_slice(alloc, payload)?;
        Ok(Waiting { payload, pending })
    }
}
