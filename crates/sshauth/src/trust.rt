//! Whom the program trusts.

ghost use Rattle.std.specs.Prelude.{◌≡◌, option_map};
ghost use Rattle.sshcore.specs.EndpointPartsView.{proof_data};
ghost use Rattle.sshcore.specs.Questions.{decided, is_yes};
ghost use Rattle.sshcore.specs.QuestionsView.{question_data};
ghost use Rattle.sshauth.specs.Trust.{accepts, has_key, is_own, is_trusted, leaves_open, proves, trust_policy};

use sshcore::{Decisions, PASSWORD_LIMIT, Proof, Question};
use sshsuite::is_same_secret;
use sshwire::Memory;
use std::alloc::Global;

/// The public keys that are trusted, of a host at a client and of the user at a server, but for those that a client's file
/// revokes; the one user, and a password.
///
/// It has no `Debug`: passwords are never printed.
#[derive(Drop)]
pub(crate) struct Trust {
    pub(crate) keys: Vec<Vec<u8>>,
    /// How many lines of a client's file stand before the first one of the host, if there is one.
    pub(crate) known: Option<usize>,
    pub(crate) revoked: Vec<Vec<u8>>,
    pub(crate) user: String,
    pub(crate) password: Option<Vec<u8>>,
}

impl Decisions for Trust {
    ghost use Rattle.sshauth.specs.Trust.{trust_policy};

    ghost policy = { trust_policy };

    fn host_key(&self, _algorithm: &str, blob: &[u8]) -> bool {
        is_trusted(self, blob)
    }

    fn user(&self, _request_number: u32, user: &str, _service: &str, proof: &Proof<'_>) -> bool {
        accepts(self, user, proof)
    }

    fn signature(
        &self,
        _alloc: Global,
        _number: usize,
        _algorithm: &str,
        _blob: &[u8],
        _input: &[u8],
    ) -> Result<Option<Vec<u8>>, Memory> {
        Ok(None)
    }
}

impl Trust {
    /// What is answered, where no person is asked. A signature is never made.
    pub(crate) fn decides(&self, question: &Question<'_>) -> bool
        ensures { result ≡ is_yes (decided (trust_policy self.now) (question_data question.now)) }
    {
        match question {
            Question::HostKey { algorithm, blob } => self.host_key(algorithm, blob),
            Question::User {
                number,
                user,
                service,
                proof,
                ..
            } => self.user(*number, user, service, proof),
            Question::Signature { .. } => false,
        }
    }

    /// Whether a person may be asked about this host key: no line is the host's, and this key isn't revoked.
    pub(crate) fn leaves_open(&self, blob: &[u8]) -> bool
        ensures { result ≡ leaves_open self.now blob.now }
    {
        self.known.is_none() && !has_key(&self.revoked, blob)
    }
}

/// Whether the key is trusted: one of the keys, and not revoked.
fn is_trusted(trust: &Trust, blob: &[u8]) -> bool
    ensures { result ≡ is_trusted trust.now blob.now }
{
    has_key(&trust.keys, blob) && !has_key(&trust.revoked, blob)
}

/// Whether the key is one of these.
pub(crate) fn has_key(keys: &[Vec<u8>], blob: &[u8]) -> bool
    ensures { result ≡ has_key keys.now blob.now }
{
    keys.iter().any(|key| key.as_slice() == blob)
}

/// Whether it is the one user, and the proof is accepted. Both are looked at always, so that the time doesn't tell which of them
/// failed.
fn accepts(trust: &Trust, user: &str, proof: &Proof<'_>) -> bool
    ensures { result ≡ accepts trust.now user.now (proof_data proof.now) }
{
    let is_user = is_same_secret(trust.user.as_bytes(), user.as_bytes());
    let proves = proves(trust, proof);
    is_user & proves
}

/// Whether the proof is accepted.
fn proves(trust: &Trust, proof: &Proof<'_>) -> bool
    ensures { result ≡ proves trust.now (proof_data proof.now) }
{
    match proof {
        Proof::None => false,
        Proof::Password(password) => is_own(&trust.password, password),
        Proof::Key { blob, .. } => is_trusted(trust, blob),
    }
}

/// Whether there is a password, and it is this one. One that is longer than a client of this project sends isn't looked at.
fn is_own(own: &Option<Vec<u8>>, bytes: &[u8]) -> bool
    ensures { result ≡ is_own (option_map (λ v. v.items) own.now) bytes.now }
{
    match own {
        Some(own) => bytes.len() <= PASSWORD_LIMIT && is_same_secret(own, bytes),
        None => false,
    }
}
