//! Public keys, as peers send them: what stands for a key that is elsewhere has to be one, so that no private key is sent.

ghost use Rattle.std.specs.Prelude.{◌≡◌};
ghost use Rattle.sshwire.specs.TypeReadings.{is_name};
ghost use Rattle.rezdolin.specs.PublicKeys.{is_ed25519_key, is_found, is_other_key, is_public_key, is_token_key};

use sshwire::{Reader, WireFault, as_name};

/// The name of the kind whose keys have one string.
const ED25519: &[u8] = b"ssh-ed25519";

/// The name of the kind whose keys have three strings.
const TOKEN: &[u8] = b"sk-ecdsa-sha2-nistp256@openssh.com";

/// Whether the bytes are a public key: of ssh-ed25519 its name and a string of 32 bytes, of a security key by ECDSA its name and three
/// strings, of another kind a name and two strings, as those of RSA and of ECDSA have. A private key has more, and a certificate too.
pub(crate) fn is_public_key(bytes: &[u8]) -> bool
    ensures { result ≡ is_public_key bytes.now }
{
    is_found(is_ed25519_key(bytes))
        || is_found(is_token_key(bytes))
        || is_found(is_other_key(bytes))
}

/// Whether something was found.
fn is_found(found: Result<bool, WireFault>) -> bool
    ensures { result ≡ is_found found }
{
    match found {
        Ok(found) => found,
        Err(_) => false,
    }
}

/// Whether they are one of ssh-ed25519.
#[tactic(auto, unfolding(crate::specs::PublicKeys::is_ed25519_key))]
fn is_ed25519_key(bytes: &[u8]) -> Result<bool, WireFault>
    ensures { result ≡ is_ed25519_key bytes.now }
{
    let mut reader = Reader::new(bytes);
    let name = reader.string()?;
    let key = reader.string()?;
    Ok(name == ED25519 && (key.len() == 32 && reader.rest().is_empty()))
}

/// Whether they are one of a security key by ECDSA: the curve, the point and the application (OpenSSH PROTOCOL.u2f).
#[tactic(auto, unfolding(crate::specs::PublicKeys::is_token_key))]
fn is_token_key(bytes: &[u8]) -> Result<bool, WireFault>
    ensures { result ≡ is_token_key bytes.now }
{
    let mut reader = Reader::new(bytes);
    let name = reader.string()?;
    reader.string()?;
    reader.string()?;
    reader.string()?;
    Ok(name == TOKEN && reader.rest().is_empty())
}

/// Whether they are one of another kind.
#[tactic(auto, unfolding(crate::specs::PublicKeys::is_other_key))]
fn is_other_key(bytes: &[u8]) -> Result<bool, WireFault>
    ensures { result ≡ is_other_key bytes.now }
{
    let mut reader = Reader::new(bytes);
    let name = reader.string()?;
    reader.string()?;
    reader.string()?;
    Ok(is_name(name) && (name != ED25519 && reader.rest().is_empty()))
}

/// Whether the bytes are a name (RFC 4251 section 6).
fn is_name(bytes: &[u8]) -> bool
    ensures { result ≡ is_name bytes.now }
{
    sshwire::names_law();
    as_name(bytes).is_some()
}
