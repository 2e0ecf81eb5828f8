//! What is drawn for one connection.

ghost use Rattle.std.specs.Prelude.{◌≡◌, length};
ghost use Rattle.sshcore.specs.ConfigRules.{HasLengths};
ghost use Rattle.sshcore.specs.ConfigView.{side_data};
ghost use Rattle.sshcore.specs.Redrawn.{draws_of};

use crate::config_parts::SideParts;

/// The bytes that one connection draws: a config that serves many connections is given fresh ones for
/// each. They are random, and two of them are secrets, so there is no `Debug`. There is no `Clone`
/// either: what takes them by value is the one that they serve.
///
/// **All ephemeral secrets of the key exchange are made from `exchange_random`**, of a hybrid method each of its
/// parts. Who knows these bytes, or draws them anew, can compute the keys of the connection: keep them secret, and wipe them
/// once they are handed in.
#[derive(Drop)]
pub struct Draws {
    /// The cookie of the KEXINIT. By it no two connections have one session identifier, whatever the peer
    /// sends again (RFC 4253 section 7.1).
    pub cookie: [u8; 16],
    /// The secret from which the suite makes all ephemeral secrets of this side, and with them its share (RFC 4253 section 8).
    pub exchange_random: [u8; 32],
    /// The secret of which the suite makes padding.
    pub padding_seed: [u8; 32],
}

/// The draws that these parts hold.
pub(crate) fn draws_of(side: &SideParts) -> Draws
    requires { HasLengths (side_data side.now) }
    ensures { result ≡ draws_of (side_data side.now) }
{
    Draws {
        cookie: *cookie_of(&side.cookie),
        exchange_random: *random_of(&side.exchange_random),
        padding_seed: *random_of(&side.padding_seed),
    }
}

/// The 16 bytes of a cookie.
pub(crate) fn cookie_of(cookie: &[u8]) -> &[u8; 16]
    requires { length cookie.now ≡ 16 }
    ensures { result.now ≡ cookie.now }
{
    cookie.as_array::<16>().unwrap()
}

/// The 32 bytes of a secret.
fn random_of(random: &[u8]) -> &[u8; 32]
    requires { length random.now ≡ 32 }
    ensures { result.now ≡ random.now }
{
    random.as_array::<32>().unwrap()
}
