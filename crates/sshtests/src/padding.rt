//! How much is padded where a block has 64 bytes, which no suite of rows has: at least 4 bytes, up to a multiple of the
//! block, with packet_length (RFC 4253 section 6) or without it (RFC 5647 section 7.2).

use sshpacket::{padding_len, padding_len_uncounted};

#[test]
fn pads_to_blocks_of_64(rt: HostRuntime) {
    assert_eq!(rt; padding_len(64, 1), 58);
    assert_eq!(rt; padding_len(64, 56), 67);
    assert_eq!(rt; padding_len_uncounted(64, 60), 67);
}
