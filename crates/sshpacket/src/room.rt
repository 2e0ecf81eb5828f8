//! The room that the bytes of a packet take.

ghost use Rattle.sshpacket.specs.declared.limits.TheConstants.{PACKET_LIMIT};
ghost use Rattle.sshpacket.specs.declared.room.TheConstants.{ROOM_KEPT};
ghost use Rattle.std.specs.Prelude.{◌≡◌, ◌+◌, ◌≤◌, OnOk, [], length};

use bytes::BytesMut;
use sshwire::Memory;
use std::alloc::Global;

/// The most bytes of room that a reader keeps for the packets to come (profile).
pub const ROOM_KEPT: usize = 1024;

/// Makes room for so many bytes more. A reader asks for no other room: with what it holds at most that
/// of one packet.
pub(crate) fn make_room(held: &mut BytesMut, more: usize) -> Result<(), Memory>
    requires bound { length held.old.items + more ≤ PACKET_LIMIT }
    ensures items { held.new.items ≡ held.old.items }
    ensures room { OnOk result (more ≤ held.new.spare) }
{
    held.reserve(more)?;
    Ok(())
}

/// Gives up what is held; its room too, where that is more than `ROOM_KEPT`.
pub(crate) fn give_up(alloc: Global, held: &mut BytesMut)
    ensures items { held.new.items ≡ [] }
    ensures room { held.new.spare ≤ ROOM_KEPT }
{
    if held.capacity() > ROOM_KEPT {
        *held = BytesMut::new(alloc);
    } else {
        held.truncate(0);
    }
}
