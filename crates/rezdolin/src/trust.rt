//! Whom an endpoint trusts: decisions that are data.

ghost use Rattle.std.specs.Prelude.{◌≡◌, ◌&&◌};
ghost use Rattle.sshcore.specs.EndpointPartsView.{proof_data};
ghost use Rattle.rezdolin.specs.Trust.{accepts, is_entry_of, is_looked_at, is_trusted, proves, trust_policy};

use crate::inputs::{METHOD_NONE, METHOD_PASSWORD, METHOD_PUBLICKEY, UserInput};
use sshcore::{Decisions, PASSWORD_LIMIT, Proof};
use sshsuite::is_same_secret;
use sshwire::Memory;
use std::alloc::Global;

/// The host keys that are trusted, and who is accepted by what.
///
/// It has no `Debug`: passwords are never printed.
#[derive(Clone, Copy)]
pub(crate) struct Trust<'a> {
    pub(crate) host_keys: &'a [&'a [u8]],
    pub(crate) users: &'a [UserInput<'a>],
}

impl Decisions for Trust<'_> {
    ghost use Rattle.rezdolin.specs.Trust.{trust_policy};

    ghost policy = { λ t. trust_policy t.host_keys.now t.users.now };

    fn host_key(&self, _algorithm: &str, blob: &[u8]) -> bool {
        is_trusted(self.host_keys, blob)
    }

    fn user(&self, _request_number: u32, user: &str, _service: &str, proof: &Proof<'_>) -> bool {
        accepts(self.users, user.as_bytes(), proof)
    }

    fn signature(
        &self,
        _alloc: Global,
        _number: usize,
        _algorithm: &str,
        _blob: &[u8],
        _input: &[u8],
    ) -> Result<Option<Vec<u8>>, Memory> {
        Ok(None)
    }
}

/// Whether the key is one of these.
fn is_trusted(keys: &[&[u8]], blob: &[u8]) -> bool
    ensures { result ≡ is_trusted keys.now blob.now }
{
    keys.iter().any(|key| *key == blob)
}

/// Whether one of the entries has this user and this proof. A password that is too long isn't looked at. Of any other one each entry
/// is compared whole, so the time doesn't tell whether an entry has the user.
fn accepts(users: &[UserInput<'_>], user: &[u8], proof: &Proof<'_>) -> bool
    ensures { result ≡ accepts users.now user.now (proof_data proof.now) }
{
    let mut is_accepted = false;
    if is_looked_at(proof) {
        for entry in users {
            is_accepted |= is_entry_of(entry, user, proof);
        }
    }
    is_accepted
}

/// Whether a proof is looked at: a password has at most as many bytes as one of a plan (C6).
fn is_looked_at(proof: &Proof<'_>) -> bool
    ensures { result ≡ is_looked_at (proof_data proof.now) }
{
    match proof {
        Proof::Password(password) => password.len() <= PASSWORD_LIMIT,
        Proof::None | Proof::Key { .. } => true,
    }
}

/// Whether an entry has this user and this proof: both are compared, whatever the first comparison gives.
fn is_entry_of(entry: &UserInput<'_>, user: &[u8], proof: &Proof<'_>) -> bool
    ensures { result ≡ is_entry_of entry.now user.now (proof_data proof.now) }
{
    is_same_secret(entry.user, user) & proves(entry, proof)
}

/// Whether the proof is the one of an entry. Passwords are compared in a time that doesn't tell where they differ.
fn proves(entry: &UserInput<'_>, proof: &Proof<'_>) -> bool
    ensures { result ≡ proves entry.now (proof_data proof.now) }
{
    match proof {
        Proof::None => entry.method == METHOD_NONE,
        Proof::Password(password) => {
            entry.method == METHOD_PASSWORD && is_same_secret(entry.proof, password)
        }
        Proof::Key { blob, .. } => entry.method == METHOD_PUBLICKEY && entry.proof == *blob,
    }
}
