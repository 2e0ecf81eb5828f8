//! How much padding a packet has.

ghost use Rattle.sshwire.specs.declared.limits.TheConstants.{PAYLOAD_LIMIT};
ghost use Rattle.sshpacket.specs.declared.limits.TheConstants.{BLOCK_LIMIT};
ghost use Rattle.std.specs.Prelude.{◌≡◌, ◌≤◌, false, true};
ghost use Rattle.sshpacket.specs.Packet.{IsLeastPadding, counted, least_padding};

/// The least padding of a packet with a payload of so many bytes (RFC 4253 section 6): at least 4
/// bytes, so that the packet is a multiple of the block, or of 8 where that is larger, and has at
/// least 16 bytes. Takes no memory.
///
/// The caller's conditions are a block of at most `BLOCK_LIMIT` bytes and a payload of at most
/// `PAYLOAD_LIMIT`.
pub fn padding_len(block: u8, payload_len: usize) -> u8
    requires block { block ≤ BLOCK_LIMIT }
    requires payload { payload_len ≤ PAYLOAD_LIMIT }
    ensures least { IsLeastPadding true block payload_len result }
    ensures value { result ≡ least_padding true block payload_len }
{
    least_padding_len(true, block, payload_len)
}

/// The same where the four bytes of packet_length don't count (RFC 5647 section 7.2;
/// chacha20-poly1305@openssh.com and the MACs -etm of OpenSSH): what stands after them is the
/// multiple, and has at least 8 bytes.
pub fn padding_len_uncounted(block: u8, payload_len: usize) -> u8
    requires block { block ≤ BLOCK_LIMIT }
    requires payload { payload_len ≤ PAYLOAD_LIMIT }
    ensures least { IsLeastPadding false block payload_len result }
    ensures value { result ≡ least_padding false block payload_len }
{
    least_padding_len(false, block, payload_len)
}

/// The least padding, where packet_length counts or not.
pub(crate) fn least_padding_len(counts: bool, block: u8, payload_len: usize) -> u8
    requires block { block ≤ BLOCK_LIMIT }
    requires payload { payload_len ≤ PAYLOAD_LIMIT }
    ensures least { IsLeastPadding counts block payload_len result }
    ensures value { result ≡ least_padding counts block payload_len }
{
    let unit = usize::from(block.max(8));
    let counted = counted(counts);
    let len = counted + 5 + payload_len;
    let missing = (unit - len % unit) % unit;
    let least = 4 + missing;
    if 5 + payload_len + missing < 8 + counted {
        (least + unit) as u8
    } else {
        least as u8
    }
}

/// How many bytes of packet_length count.
pub(crate) fn counted(counts: bool) -> usize
    ensures value { result ≡ counted counts }
    ensures high { result ≤ 4 }
{
    if counts { 4 } else { 0 }
}
