//! Whom an endpoint trusts that a check is played to.

ghost use Rattle.std.specs.Prelude.{◌≡◌};
ghost use Rattle.sshcore.specs.EndpointPartsView.{proof_data};
ghost use Rattle.sshrows_checks.specs.Trust.{proves};

use crate::parts::{ALGORITHM, PASSWORD, PLAYER_KEY, USER};
use sshcore::{Decisions, Proof};
use sshpacket::Suite;
use sshrows_acts::Stop;
use sshsuite::DeployedSuite;
use sshwire::Memory;
use std::alloc::Global;

/// One user with one password, and one key: that of a server, or the user's.
///
/// It has no `Debug`: passwords are never printed.
#[derive(Drop)]
pub(crate) struct Trust {
    user: String,
    password: Vec<u8>,
    key: Vec<u8>,
}

/// The user, the password and the key of the player.
pub(crate) fn trust_of(alloc: Global) -> Result<Trust, Stop> {
    let Ok(key) = DeployedSuite.blob(alloc, ALGORITHM, &PLAYER_KEY) else {
        return Err(Stop::Memory);
    };
    Ok(Trust {
        user: String::from_str(alloc, USER)?,
        password: Vec::from_slice(alloc, PASSWORD)?,
        key,
    })
}

impl Decisions for Trust {
    ghost use Rattle.std.specs.Prelude.{◌&&◌, None, string_bytes};
    ghost use Rattle.std.specs.Str.{bytes_eq};
    ghost use Rattle.sshrows_checks.specs.Trust.{proves};

    ghost policy = { λ trust. record {
      host_key = λ _ blob. bytes_eq trust.key.items blob;
      user = λ _ user _ proof. bytes_eq (string_bytes trust.user) user && proves trust.password.items trust.key.items proof;
      signature = λ _ _ _ _. None;
    } };

    fn host_key(&self, _algorithm: &str, blob: &[u8]) -> bool {
        self.key.as_slice() == blob
    }

    fn user(&self, _request_number: u32, user: &str, _service: &str, proof: &Proof<'_>) -> bool {
        let is_user = self.user.as_str() == user;
        let proves = proves(&self.password, &self.key, proof);
        is_user && proves
    }

    fn signature(
        &self,
        _alloc: Global,
        _number: usize,
        _algorithm: &str,
        _blob: &[u8],
        _input: &[u8],
    ) -> Result<Option<Vec<u8>>, Memory> {
        Ok(None)
    }
}

/// Whether the proof is this password or this key.
fn proves(password: &[u8], key: &[u8], proof: &Proof<'_>) -> bool
    ensures { result ≡ proves password.now key.now (proof_data proof.now) }
{
    match proof {
        Proof::None => false,
        Proof::Password(shown) => password == *shown,
        Proof::Key { blob, .. } => key == *blob,
    }
}
