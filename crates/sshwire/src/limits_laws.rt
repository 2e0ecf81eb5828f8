//! What the layers above may rest on: the limits by their digits.

ghost use Rattle.std.specs.Prelude.{◌≡◌};
ghost use Rattle.sshwire.specs.declared.limits.TheConstants.{LINE_LIMIT, NAME_LIMIT, OTHER_LINE_LIMIT, PAYLOAD_LIMIT};

/// The law of limits: code and definitions cite each by its name, and here it is a number. 255 bytes
/// of a line are of RFC 4253 section 4.2 (profile for the lines before the version line, and so is
/// their number, 20), 64 bytes of a name of RFC 4251 section 6, and 32768 bytes of a payload of RFC
/// 4253 section 6.1. Takes no memory.
pub fn limits_law()
    ensures line { LINE_LIMIT ≡ 255 }
    ensures other_lines { OTHER_LINE_LIMIT ≡ 20 }
    ensures name { NAME_LIMIT ≡ 64 }
    ensures payload { PAYLOAD_LIMIT ≡ 32768 }
{}
