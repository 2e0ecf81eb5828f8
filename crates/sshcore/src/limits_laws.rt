//! What the layers above may rest on: the limits of configs, of links and of an owner's DISCONNECT, by their digits.

ghost use Rattle.std.specs.Prelude.{◌≡◌};
ghost use Rattle.sshcore.specs.declared.config_parts.TheConstants.{BANNER_LIMIT, IGNORED_OVERHEAD, LIST_LIMIT, NOTICE_LIMIT, NOTICE_LINE_LIMIT, PASSWORD_LIMIT, PLAN_LIMIT, PRIVATE_KEY_LIMIT, TRIES_LIMIT, USER_LIMIT};
ghost use Rattle.sshcore.specs.declared.disconnecting.TheConstants.{DESCRIPTION_LIMIT};
ghost use Rattle.sshcore.specs.declared.link.TheConstants.{LINK_BYTES_LIMIT, LINK_LIMIT};

/// The law of limits, of configs, of links and of an owner's DISCONNECT: code and definitions cite each by its name, and here it
/// is a number. All are profile. A notice line has 253 bytes, so 255 with its CR LF, as many as a version line may have
/// (RFC 4253 section 4.2); 20 tries are what RFC 4252 section 4 recommends; 2^31 packets are half of all numbers, and 2^35 bytes half of
/// the blocks after which RFC 4344 section 3.2 wants new keys. Takes no memory.
pub fn limits_law()
    ensures list { LIST_LIMIT ≡ 1000 }
    ensures notices { NOTICE_LIMIT ≡ 20 }
    ensures notice_line { NOTICE_LINE_LIMIT ≡ 253 }
    ensures user { USER_LIMIT ≡ 255 }
    ensures password { PASSWORD_LIMIT ≡ 1024 }
    ensures private_key { PRIVATE_KEY_LIMIT ≡ 8192 }
    ensures banner { BANNER_LIMIT ≡ 8192 }
    ensures plan { PLAN_LIMIT ≡ 64 }
    ensures tries { TRIES_LIMIT ≡ 20 }
    ensures link { LINK_LIMIT ≡ 2147483648 }
    ensures link_bytes { LINK_BYTES_LIMIT ≡ 34359738368 }
    ensures description { DESCRIPTION_LIMIT ≡ 1024 }
    ensures ignored { IGNORED_OVERHEAD ≡ 276 }
{}
