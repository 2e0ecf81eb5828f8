//! Decisions for tests: which host keys are trusted, and who is accepted by what.

ghost use Rattle.std.specs.Prelude.{◌≡◌, ◌==◌, ◌++◌, ◌∷◌, ◌↔◌, [], ℕ, false, true, List, Contains, IfOk, OnErr, OnOk, string_bytes};
ghost use Rattle.std.specs.List.{list_any};
ghost use Rattle.std.specs.Str.{bytes_eq};
ghost use Rattle.sshcore.specs.ConfigRules.{IsNamed};
ghost use Rattle.sshcore.specs.ConfigView.{credential_data};
ghost use Rattle.sshcore.specs.EndpointParts.{ProofData};
ghost use Rattle.sshcore.specs.EndpointPartsView.{proof_data};
ghost use Rattle.sshlabsuites.specs.LabDecisionsData.{LabDecisionsData, accepts, is_proof, lab_policy, proof_by};
ghost use Rattle.sshlabsuites.specs.LabDecisionsView.{allowed_data, own_proof_data};

use crate::lab_suite::blob;
use sshcore::{Credential, Decisions, Proof};
use sshwire::Memory;
use std::alloc::Global;
use std::marker::Model;

/// The decisions of a lab endpoint, by lists that are empty at first.
///
/// - A host key is trusted unless its algorithm is distrusted.
/// - A request is accepted exactly where user and proof were allowed together and its number
///   isn't denied. The service doesn't matter.
///
/// It has no `Debug`: passwords are never printed.
#[derive(Drop)]
pub struct LabDecisions {
    distrusted: Vec<String>,
    allowed: Vec<Allowed>,
    denied: Vec<u32>,
    alloc: Global,
}

/// A user, and by what the user is accepted.
#[derive(Drop)]
struct Allowed {
    user: String,
    proof: OwnProof,
}

/// What is to be proved.
#[derive(Drop)]
enum OwnProof {
    None,
    Password(Vec<u8>),
    Key { algorithm: String, blob: Vec<u8> },
}

impl Model for LabDecisions {
    ghost use Rattle.std.specs.Prelude.{map, string_bytes};
    ghost use Rattle.sshlabsuites.specs.LabDecisionsData.{LabDecisionsData};
    ghost use Rattle.sshlabsuites.specs.LabDecisionsView.{allowed_data};

    ghost Value = { LabDecisionsData };

    ghost view = { λ d. record {
      distrusted = map string_bytes d.distrusted.items;
      allowed = map allowed_data d.allowed.items;
      denied = d.denied.items;
    } };
}

impl LabDecisions {
    /// Every host key is trusted, and nobody is accepted. Takes no memory.
    pub fn new(alloc: Global) -> LabDecisions
        ensures { result ≡ record { distrusted = []; allowed = []; denied = [] } }
    {
        LabDecisions {
            distrusted: Vec::new(alloc),
            allowed: Vec::new(alloc),
            denied: Vec::new(alloc),
            alloc,
        }
    }

    /// Host keys of this algorithm aren't trusted. At `Memory` nothing is changed.
    pub fn distrust(&mut self, algorithm: &str) -> Result<(), Memory>
        ensures done { OnOk result (self.new ≡ record self.old { distrusted = self.old.distrusted ++ algorithm.now ∷ [] }) }
        ensures memory { OnErr result (self.new ≡ self.old) }
    {
        let algorithm = String::from_str(self.alloc, algorithm)?;
        self.distrusted.push(algorithm)?;
        Ok(())
    }

    /// Whoever proves so to be this user is accepted: without a proof, by the password, or by the key
    /// whose blob the lab suite makes of the private key. The algorithm's name has at most 64 bytes. At
    /// `Memory` nothing is changed.
    pub fn allow(&mut self, user: &str, credential: &Credential) -> Result<(), Memory>
        requires { IsNamed (credential_data credential.now) }
        ensures done { OnOk result (self.new ≡ record self.old { allowed = self.old.allowed ++ record { user = user.now; proof = proof_by (credential_data credential.now) } ∷ [] }) }
        ensures memory { OnErr result (self.new ≡ self.old) }
    {
        let proof = proof_by(self.alloc, credential)?;
        let user = String::from_str(self.alloc, user)?;
        self.allowed.push(Allowed { user, proof })?;
        Ok(())
    }

    /// A request with this number, of requests counted from 1, is never accepted. At `Memory` nothing is
    /// changed.
    pub fn deny(&mut self, request_number: u32) -> Result<(), Memory>
        ensures done { OnOk result (self.new ≡ record self.old { denied = self.old.denied ++ request_number ∷ [] }) }
        ensures memory { OnErr result (self.new ≡ self.old) }
    {
        self.denied.push(request_number)?;
        Ok(())
    }
}

impl Decisions for LabDecisions {
    ghost use Rattle.sshlabsuites.specs.LabDecisionsData.{lab_policy};

    ghost policy = { lab_policy };

    fn host_key(&self, algorithm: &str, _blob: &[u8]) -> bool {
        !is_distrusted(&self.distrusted, algorithm)
    }

    fn user(&self, request_number: u32, user: &str, _service: &str, proof: &Proof<'_>) -> bool {
        let allowed = is_allowed(&self.allowed, user, proof);
        let denied = is_denied(&self.denied, request_number);
        allowed && !denied
    }

    fn signature(
        &self,
        _alloc: Global,
        _number: usize,
        _algorithm: &str,
        _blob: &[u8],
        _input: &[u8],
    ) -> Result<Option<Vec<u8>>, Memory> {
        Ok(None)
    }
}

/// What a request proves that is made so.
fn proof_by(alloc: Global, credential: &Credential) -> Result<OwnProof, Memory>
    requires { IsNamed (credential_data credential.now) }
    ensures { IfOk result (λ own. own_proof_data own ≡ proof_by (credential_data credential.now)) }
{
    match credential {
        Credential::None => Ok(OwnProof::None),
        Credential::Password(password) => {
            Ok(OwnProof::Password(Vec::from_slice(alloc, password)?))
        }
        Credential::PublicKey {
            algorithm,
            private_key,
            ..
        } => Ok(OwnProof::Key {
            algorithm: String::from_str(alloc, algorithm)?,
            blob: blob(alloc, algorithm, private_key)?,
        }),
    }
}

/// The law of these decisions: no is answered exactly to the host keys of distrusted algorithms, and yes
/// exactly to the requests whose user and proof are allowed together and whose number isn't denied.
pub fn lab_decisions_law()
    ensures host_key { (rules : LabDecisionsData) (algorithm blob : List ℕ) → ((lab_policy rules).host_key algorithm blob ≡ false)
        ↔ Contains rules.distrusted algorithm }
    ensures user { (rules : LabDecisionsData) (number : ℕ) (user service : List ℕ) (proof : ProofData)
        → ((lab_policy rules).user number user service proof ≡ true)
        ↔ (Contains rules.allowed (record { user = user; proof = proof }) × (Contains rules.denied number → ⊥)) }
{}

/// Whether the algorithm is one of these.
fn is_distrusted(names: &[String], algorithm: &str) -> bool
    ensures { result ≡ list_any (λ name. bytes_eq (string_bytes name) algorithm.now) names.now }
{
    names.iter().any(|name| name.as_str() == algorithm)
}

/// Whether the number is one of these.
fn is_denied(numbers: &[u32], request_number: u32) -> bool
    ensures { result ≡ list_any (λ denied. denied == request_number) numbers.now }
{
    numbers.iter().any(|denied| *denied == request_number)
}

/// Whether user and proof are allowed together.
fn is_allowed(all: &[Allowed], user: &str, proof: &Proof<'_>) -> bool
    ensures { result ≡ list_any (λ allowed. accepts (allowed_data allowed) user.now (proof_data proof.now)) all.now }
{
    all.iter().any(|allowed| accepts(allowed, user, proof))
}

/// Whether user and proof are these.
fn accepts(allowed: &Allowed, user: &str, proof: &Proof<'_>) -> bool
    ensures { result ≡ accepts (allowed_data allowed.now) user.now (proof_data proof.now) }
{
    allowed.user.as_str() == user && is_proof(&allowed.proof, proof)
}

/// Whether the proof is this one.
fn is_proof(own: &OwnProof, proof: &Proof<'_>) -> bool
    ensures { result ≡ is_proof (own_proof_data own.now) (proof_data proof.now) }
{
    match (own, proof) {
        (OwnProof::None, Proof::None) => true,
        (OwnProof::Password(own), Proof::Password(password)) => own.as_slice() == *password,
        (
            OwnProof::Key {
                algorithm: own,
                blob: own_blob,
            },
            Proof::Key { algorithm, blob },
        ) => own.as_str() == *algorithm && own_blob.as_slice() == *blob,
        _ => false,
    }
}
