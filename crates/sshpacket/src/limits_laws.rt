//! What the layers above may rest on: the limits by their digits.

ghost use Rattle.std.specs.Prelude.{◌≡◌};
ghost use Rattle.sshpacket.specs.declared.limits.TheConstants.{BLOB_LIMIT, BLOCK_LIMIT, DIGEST_LIMIT, KEY_LIMIT, PACKET_LIMIT, SHARE_LIMIT, SIGNATURE_LIMIT, TAG_LIMIT};
ghost use Rattle.sshpacket.specs.declared.room.TheConstants.{ROOM_KEPT};

/// The law of limits: code and definitions cite each by its name, and here it is a number. 35000
/// bytes of a packet are of RFC 4253 section 6.1. What a suite may ask for and answer is profile:
/// blocks, tags, keys and hashes of at most 64 bytes (tags of HMAC-SHA-512 and hashes of SHA-512 have
/// as many), public keys and signatures of 8192, and shares and shared secrets of 4096. That a reader keeps
/// room of at most 1024 bytes for the packets to come is profile too. Takes no memory.
pub fn limits_law()
    ensures packet { PACKET_LIMIT ≡ 35000 }
    ensures block { BLOCK_LIMIT ≡ 64 }
    ensures tag { TAG_LIMIT ≡ 64 }
    ensures key { KEY_LIMIT ≡ 64 }
    ensures digest { DIGEST_LIMIT ≡ 64 }
    ensures blob { BLOB_LIMIT ≡ 8192 }
    ensures share { SHARE_LIMIT ≡ 4096 }
    ensures signature { SIGNATURE_LIMIT ≡ 8192 }
    ensures room { ROOM_KEPT ≡ 1024 }
{}
