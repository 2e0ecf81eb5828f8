//! A packet that waits for its answer, made again from a record.

ghost use Rattle.std.specs.Prelude.{◌≡◌, IfOk, IsTrue, ◌↔◌, Option, option_map};
ghost use Rattle.sshcore.specs.AskingData.{WaitingData};
ghost use Rattle.sshcore.specs.EndData.{Open, end_data};
ghost use Rattle.sshcore.specs.EndpointConfig.{config_data, role_of};
ghost use Rattle.sshcore.specs.Record.{IsMadeSo, payload_of};
ghost use Rattle.sshcore.specs.RecordMade.{IsSameWaiting};
ghost use Rattle.sshcore.specs.StateData.{state_data};
ghost use Rattle.sshcore.specs.Unread.{IsAskedBy, IsIdle};
ghost use Rattle.sshcore.specs.WaitingView.{waiting_of};

use crate::asking_waiting::Waiting;
use crate::config::Config;
use crate::input::Input;
use crate::record_fault::RecordFault;
use crate::state::State;
use sshpacket::{PACKET_LIMIT, Suite};

/// Whether it reads packets, and holds no byte of an unfinished one.
fn is_idle(input: &Input) -> bool
    ensures { IsTrue result ↔ IsIdle input.now }
{
    match input {
        Input::Lines(_) => false,
        Input::Packets(packets) => packets.is_idle(),
    }
}

/// The packet that waits, where one does: what it asks is told by it.
pub(crate) fn waiting_by<S: Suite>(
    config: &Config<'_>,
    suite: &S,
    state: &State<'_>,
    input: &Input,
    waiting: Option<&[u8]>,
) -> Result<Option<Waiting>, RecordFault>
    requires open { end_data state.now.end ≡ Open }
    ensures asked { IfOk result (λ w. IsAskedBy (S.meaning suite.now) (role_of config.now) (config_data config.now) (state_data state.now) input.now (waiting_of w)) }
    ensures made { (v : Option WaitingData) → IsAskedBy (S.meaning suite.now) (role_of config.now) (config_data config.now) (state_data state.now) input.now v
        → option_map payload_of v ≡ option_map (λ payload. payload.now) waiting.entry → IsMadeSo (λ w. IsSameWaiting v (waiting_of w)) result }
{
    sshmsg::messages_law();
    let Some(payload) = waiting else {
        return Ok(None);
    };
    if payload.len() > PACKET_LIMIT {
        return Err(RecordFault::Unreadable);
    }
    if !is_idle(input) {
        return Err(RecordFault::Unreadable);
    }
    let Ok(judged) = state.judge(config, suite, payload) else {
        return Err(RecordFault::Memory);
    };
    let Some(pending) = judged.pending() else {
        return Err(RecordFault::Unreadable);
    };
    match Waiting::new(state.alloc, payload, pending) {
        Ok(waiting) => Ok(Some(waiting)),
        Err(_) => Err(RecordFault::Memory),
    }
}
