//! How an endpoint reads its bytes: up to a packet that can't be answered before its question is.

ghost use Rattle.std.specs.Prelude.{◌≡◌, ◌+◌, ◌*◌, ◌<◌, ◌≤◌, IfOk, OnOk, [], length, take, true};
ghost use Rattle.sshpacket.specs.PacketReaderData.{ReaderWaits, packet_reader_data};
ghost use Rattle.sshpacket.specs.declared.limits.TheConstants.{PACKET_LIMIT};
ghost use Rattle.sshpacket.specs.Suite.{SuiteData};
ghost use Rattle.sshcore.specs.declared.end.Fault.TheVariants as failed;
ghost use Rattle.sshcore.specs.declared.input.Input.TheVariants as input;
ghost use Rattle.sshcore.specs.Brings.{IsOngoing};
ghost use Rattle.sshcore.specs.EndpointConfig.{config_data, role_of};
ghost use Rattle.sshcore.specs.EndData.{Failed, Open, by_input, end_data};
ghost use Rattle.sshcore.specs.Inputs.{CanRead, turns_left};
ghost use Rattle.sshcore.specs.Keeping.{StillFits};
ghost use Rattle.sshcore.specs.StateData.{state_data};
ghost use Rattle.sshcore.specs.Unread.{AskingSteps, TakesPacket, Turns};
ghost use Rattle.sshcore.specs.WaitingView.{waiting_of};

use crate::asking_given::Listener;
use crate::asking_waiting::Waiting;
use crate::config::Config;
use crate::input::{Input, Received, fail_packet, receive_lines};
use crate::judging::Judged;
use crate::notice::{give_lines, give_notice, line_of};
use crate::state::State;
use sshpacket::{PacketReader, PacketStep, Suite};
use sshwire::Memory;

/// What came of a piece: how many bytes were used, and the packet that asks, where one was read.
#[derive(Drop)]
pub(crate) struct Came {
    pub(crate) used: usize,
    pub(crate) waiting: Option<Waiting>,
}

impl Input {
    /// Reads on up to the end of one unit, a version line or a packet, and answers how many bytes of the
    /// piece were used; what is sent to it is appended to `sent`. A packet that asks is read, and nothing more.
    pub(crate) fn receive_asking<S: Suite, L: Listener>(
        &mut self,
        state: &mut State<'_>,
        config: &Config<'_>,
        suite: &S,
        listener: &L,
        piece: &[u8],
        sent: &mut Vec<u8>,
    ) -> Result<Came, Memory>
        requires open { end_data state.old.end ≡ Open }
        requires some { 0 < length piece.now }
        requires reads { CanRead (S.meaning suite.now) self.old }
        ensures steps { IfOk result (λ came. AskingSteps (S.meaning suite.now) (role_of config.now) (config_data config.now)
            self.old (state_data state.old) self.new (state_data state.new) (waiting_of came.waiting) (take came.used piece.now) sent.old.items sent.new.items) }
        ensures used { IfOk result (λ came. came.used ≤ length piece.now) }
        ensures turns { IfOk result (λ came. turns_left (end_data state.new.end) self.new < turns_left (end_data state.old.end) self.old + 3 * came.used) }
        ensures reads { OnOk result (IsOngoing (end_data state.new.end) → CanRead (S.meaning suite.now) self.new) }
        ensures keeps { OnOk result (StillFits (S.meaning suite.now) (config_data config.now) (state_data state.old) (state_data state.new)) }
        ensures kept { OnOk result (by_input (end_data state.new.end) ≡ true) }
    {
        sshpacket::parser_by_law();
        sshpacket::stream_law();
        sshmsg::numbers_law();
        sshneg::markers_law();
        let alloc = state.alloc;
        match self {
            Input::Lines(reader) => {
                let begun = line_of(reader.unfinished());
                let received = receive_lines(reader, state, piece)?;
                give_lines(listener, begun, piece.get(..received.used()).unwrap_or(&[]));
                match received {
                    Received::Part(used) => Ok(Came {
                        used,
                        waiting: None,
                    }),
                    Received::Refused(used) => Ok(Came {
                        used,
                        waiting: None,
                    }),
                    Received::Whole(used) => {
                        *self = Input::Packets(PacketReader::new(alloc));
                        Ok(Came {
                            used,
                            waiting: None,
                        })
                    }
                }
            }
            Input::Packets(reader) => {
                ask_packets(reader, state, config, suite, listener, piece, sent)
            }
        }
    }
}

/// Reads on up to the end of one packet, and answers it, unless it asks; fails where it is refused.
fn ask_packets<S: Suite, L: Listener>(
    reader: &mut PacketReader,
    state: &mut State<'_>,
    config: &Config<'_>,
    suite: &S,
    listener: &L,
    piece: &[u8],
    sent: &mut Vec<u8>,
) -> Result<Came, Memory>
    requires open { end_data state.old.end ≡ Open }
    requires some { 0 < length piece.now }
    requires reads { ReaderWaits (S.meaning suite.now) reader.old }
    ensures steps { IfOk result (λ came. AskingSteps (S.meaning suite.now) (role_of config.now) (config_data config.now)
        (input.Packets reader.old) (state_data state.old) (input.Packets reader.new) (state_data state.new) (waiting_of came.waiting) (take came.used piece.now) sent.old.items sent.new.items) }
    ensures used { IfOk result (λ came. (0 < came.used) × (came.used ≤ length piece.now)) }
    ensures reads { OnOk result (IsOngoing (end_data state.new.end) → ReaderWaits (S.meaning suite.now) reader.new) }
    ensures keeps { OnOk result (StillFits (S.meaning suite.now) (config_data config.now) (state_data state.old) (state_data state.new)) }
    ensures kept { OnOk result (by_input (end_data state.new.end) ≡ true) }
{
    sshpacket::parser_by_law();
    sshpacket::stream_law();
    sshmsg::numbers_law();
    sshneg::markers_law();
    match reader.next(suite, piece) {
        Ok(PacketStep::More) => Ok(Came {
            used: piece.len(),
            waiting: None,
        }),
        Ok(PacketStep::Payload { payload, seq, used }) => {
            match take_packet(state, config, suite, listener, payload, seq, sent)? {
                Some(waiting) => Ok(Came {
                    used,
                    waiting: Some(waiting),
                }),
                None => {
                    turn(reader, state);
                    Ok(Came {
                        used,
                        waiting: None,
                    })
                }
            }
        }
        Err(fault) => {
            let used = reader.taken();
            fail_packet(state, config, suite, fault, sent)?;
            Ok(Came {
                used,
                waiting: None,
            })
        }
    }
}

/// Judges a packet with this number, and answers it, unless it asks: then it waits.
fn take_packet<S: Suite, L: Listener>(
    state: &mut State<'_>,
    config: &Config<'_>,
    suite: &S,
    listener: &L,
    payload: &[u8],
    packet: u32,
    sent: &mut Vec<u8>,
) -> Result<Option<Waiting>, Memory>
    requires open { end_data state.old.end ≡ Open }
    requires short { length payload.now ≤ PACKET_LIMIT }
    ensures takes { IfOk result (λ waiting. TakesPacket (S.meaning suite.now) (role_of config.now) (config_data config.now)
        (state_data state.old) (state_data state.new) packet payload.now sent.old.items sent.new.items (waiting_of waiting)) }
    ensures kept { OnOk result (by_input (end_data state.new.end) ≡ true) }
{
    sshmsg::messages_law();
    let judged = state.judge(config, suite, payload)?;
    give_notice_of(listener, &judged);
    if judged.is_at_once() {
        state.receive(config, suite, &judged, payload, packet, sent)?;
        return Ok(None);
    }
    match judged.pending() {
        None => unreachable!(),
        Some(pending) => Ok(Some(Waiting::new(state.alloc, payload, pending)?)),
    }
}

/// Tells what a message tells people, if a packet was judged to be one.
fn give_notice_of<L: Listener>(listener: &L, judged: &Judged<'_>) {
    match judged {
        Judged::Reads(message) | Judged::Asks(message, _) => give_notice(listener, message),
        _ => {}
    }
}

/// Reads on with the keys that are due after a packet.
pub(crate) fn turn(reader: &mut PacketReader, state: &mut State<'_>)
    requires idle { (packet_reader_data reader.old).held ≡ [] }
    ensures turns { Turns (state_data state.old) (state_data state.new) reader.old reader.new }
    ensures reads { (m : SuiteData) → ReaderWaits m reader.old → ReaderWaits m reader.new }
    ensures ends { end_data state.new.end ≡ end_data state.old.end }
{
    if let Some(keys) = state.take_keys() {
        reader.use_keys(keys, state.strict);
    }
}
