//! Why parts make no config.

ghost use Rattle.std.specs.Prelude.{◌≡◌};
ghost use Rattle.sshcore.specs.declared.config_fault.ConfigFault.TheVariants as fault;

use sshwire::Memory;

/// Why a config was refused. Where several causes hold, the one with the least number is told; all
/// limits are profile. It prints a sentence with its code: `C1: a list of algorithms is empty`.
#[derive(Clone, Copy, Debug, PartialEq, Eq)]
pub enum ConfigFault {
    /// C1: a list of key exchange methods, host key algorithms, ciphers or MACs is empty.
    EmptyList,
    /// C2: an entry of a list, a service, or an algorithm of a host key or of an attempt is no name
    /// (RFC 4251 section 6); a marker stands in the kex list; or a server has or requires another method
    /// than `password` and `publickey`.
    Name,
    /// C3: the text of a list, markers left out, has more than 1000 bytes.
    ListTooLong,
    /// C4: softwareversion and comments spell no version line (RFC 4253 section 4.2); there are more
    /// than 20 notice lines; or one has more than 253 bytes or a byte outside 32 to 126, or begins with
    /// `SSH-`.
    Line,
    /// C5: a user's name has more than 255 bytes.
    User,
    /// C6: a password has more than 1024 bytes.
    Secret,
    /// C7: a private key or a banner has more than 8192 bytes.
    Blob,
    /// C8: the plan has more than 64 attempts.
    Plan,
    /// C9: the tries aren't 1 to 20.
    Tries,
    /// C10: the cookie hasn't 16 bytes, or the exchange random or the padding seed hasn't 32.
    Random,
    /// C11: an allocation failed. It comes only where no other cause holds.
    Memory,
    /// C12: a required method isn't one of the server's methods, or stands twice.
    Required,
}

impl From<Memory> for ConfigFault {
    ghost from_gives = { λ _ e. e ≡ fault.Memory };

    fn from(_e: Memory) -> ConfigFault {
        ConfigFault::Memory
    }
}
