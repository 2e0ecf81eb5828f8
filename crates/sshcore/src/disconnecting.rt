//! The DISCONNECT of an endpoint that its owner ends.

ghost use Rattle.std.specs.Prelude.{◌≡◌, ◌≤◌, Bool, OnErr, OnOk, length};
ghost use Rattle.sshpacket.specs.KeysData.{KeysData};
ghost use Rattle.sshcore.specs.Brings.{Gives};
ghost use Rattle.sshcore.specs.EndpointConfig.{config_data};
ghost use Rattle.sshcore.specs.EndData.{Disconnected, Open, description_sent, disconnects, end_data};
ghost use Rattle.sshcore.specs.Shown.{ShowsTheSame};
ghost use Rattle.sshcore.specs.StateData.{state_data};

use crate::config::Config;
use crate::end::End;
use crate::reply::Answers;
use crate::state::State;
use sshmsg::Message;
use sshpacket::Suite;
use sshwire::Memory;

/// The most bytes of a description that an endpoint sends for its owner (profile).
pub const DESCRIPTION_LIMIT: usize = 1024;

impl State<'_> {
    /// Sends a DISCONNECT with this reason and description (RFC 4253 section 11.1), and has ended. Where
    /// an allocation failed `out` is unchanged.
    pub(crate) fn disconnect<S: Suite>(
        &mut self,
        config: &Config<'_>,
        suite: &S,
        reason: u32,
        description: &str,
        out: &mut Vec<u8>,
    ) -> Result<(), Memory>
        requires open { end_data self.old.end ≡ Open }
        ensures gives { OnOk result ((strict : Bool) (next : KeysData)
            → Gives (S.meaning suite.now) (config_data config.now).seed strict next (state_data self.old) (state_data self.new) out.old.items out.new.items
            (disconnects reason description.now)) }
        ensures stays { OnOk result (state_data self.new ≡ record (state_data self.old) { end = Disconnected reason; sending = (state_data self.new).sending }) }
        ensures ends { OnOk result (end_data self.new.end ≡ Disconnected reason) }
        ensures shows { OnOk result (ShowsTheSame self.old self.new) }
        ensures memory { OnErr result (out.new.items ≡ out.old.items) }
    {
        sshmsg::lengths_law();
        let mut sent = Vec::new(self.alloc);
        let parting = Message::Disconnect {
            reason,
            description: sent_text(description),
            language: b"",
        };
        let answers = Answers::message(self.alloc, parting)?;
        self.send_answers(config, suite, &answers, &mut sent)?;
        out.extend_from_slice(&sent)?;
        self.end = End::Disconnected(reason);
        Ok(())
    }
}

/// What is sent of a description: all of it, or none where it is too long.
fn sent_text(description: &str) -> &[u8]
    ensures same { result.now ≡ description_sent description.now }
    ensures short { length result.now ≤ DESCRIPTION_LIMIT }
{
    if description.len() <= DESCRIPTION_LIMIT {
        description.as_bytes()
    } else {
        b""
    }
}
