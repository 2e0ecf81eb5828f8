//! What a request of authentication claims and proves (RFC 4252 sections 5.2, 7 and 8).

ghost use Rattle.std.specs.Prelude.{◌≡◌, ◌<◌, ◌≤◌, [], IfOk, IfSome, List, None, Some, false, if◌then◌else◌, length, option_map, ℕ};
ghost use Rattle.sshwire.specs.Types.{IsName};
ghost use Rattle.sshwire.specs.declared.limits.TheConstants.{NAME_LIMIT};
ghost use Rattle.sshmsg.specs.MessageData.{Password, PublicKey, PublicKeyQuery};
ghost use Rattle.sshmsg.specs.View.{method_data};
ghost use Rattle.sshneg.specs.Derivations.{signed_text};
ghost use Rattle.sshpacket.specs.Suite.{SuiteData};
ghost use Rattle.sshpacket.specs.declared.limits.TheConstants.{BLOB_LIMIT, PACKET_LIMIT};
ghost use Rattle.sshcore.specs.Authenticating.{FitsMethod, HasName};
ghost use Rattle.sshcore.specs.EndpointConfig.{config_data};
ghost use Rattle.sshcore.specs.StateData.{state_data};
ghost use Rattle.sshcore.specs.Judging.{KeepsMethod};
ghost use Rattle.sshcore.specs.Questions.{UserQuestion};
ghost use Rattle.sshcore.specs.QuestionsView.{claim_method, claim_proof};
ghost use Rattle.sshcore.specs.Requests.{is_signed, method_step, query_step};
ghost use Rattle.sshcore.specs.Step.{asked_in};
ghost use Rattle.sshcore.specs.Tries.{is_supported, proof_in};

use crate::config::Config;
use crate::pending::Claim;
use crate::state::State;
use sshmsg::Method;
use sshneg::signed_request;
use sshpacket::{BLOB_LIMIT, Suite};
use sshwire::{Memory, as_name};

impl State<'_> {
    /// What a request claims of its user, if its method may be used and what it claims is proved: a wrong signature claims
    /// nothing. Or the key of a query, if it may be asked about.
    #[tactic(auto, unfolding(crate::specs::Tries::proof_in))]
    pub(crate) fn claim_of<S: Suite>(
        &self,
        config: &Config<'_>,
        suite: &S,
        user: &str,
        service: &str,
        method: &Method<'_>,
    ) -> Result<Option<Claim>, Memory>
        requires user { length user.now ≤ PACKET_LIMIT }
        requires service { length service.now ≤ NAME_LIMIT }
        requires method { FitsMethod (method_data method.now) }
        ensures asks { IfOk result (λ o. option_map (λ c. UserQuestion self.now.request user.now service.now (claim_proof c) (is_signed (claim_method c))) o
            ≡ asked_in (method_step (S.meaning suite.now) (config_data config.now) (state_data self.now).known user.now service.now (method_data method.now))) }
        ensures keeps { IfOk result (λ o. IfSome o (KeepsMethod (config_data config.now) (state_data self.now).known (method_data method.now))) }
    {
        match method {
            Method::None => Ok(Some(Claim::None)),
            Method::Password { password } => self.password_claim(config, password),
            Method::PublicKey {
                algorithm,
                key,
                signature,
            } => self.key_claim(config, suite, user, service, algorithm, key, signature),
            Method::PublicKeyQuery { algorithm, key } => {
                self.query_claim(config, suite, algorithm, key)
            }
            _ => Ok(None),
        }
    }

    /// A password, where the method is listed (RFC 4252 section 8).
    #[tactic(auto, unfolding(crate::specs::Tries::proof_in))]
    fn password_claim(&self, config: &Config<'_>, password: &[u8]) -> Result<Option<Claim>, Memory>
        ensures proves { IfOk result (λ o. (m : SuiteData) (session user service : List ℕ)
            → option_map claim_proof o ≡ proof_in m (config_data config.now) session user service (Password password.now)) }
        ensures keeps { IfOk result (λ o. IfSome o (λ c. claim_method c ≡ Password password.now)) }
    {
        if !config.lists("password") {
            return Ok(None);
        }
        Ok(Some(Claim::Password(Vec::from_slice(self.alloc, password)?)))
    }

    /// A key, where the method is listed and the algorithm supported, and the signature of the session identifier and the
    /// request is the key's (RFC 4252 section 7). It is verified here, once.
    #[tactic(auto, unfolding(crate::specs::Tries::proof_in))]
    fn key_claim<S: Suite>(
        &self,
        config: &Config<'_>,
        suite: &S,
        user: &str,
        service: &str,
        algorithm: &[u8],
        key: &[u8],
        signature: &[u8],
    ) -> Result<Option<Claim>, Memory>
        requires user { length user.now ≤ PACKET_LIMIT }
        requires service { length service.now ≤ NAME_LIMIT }
        requires key { length key.now ≤ PACKET_LIMIT }
        requires signature { length signature.now ≤ PACKET_LIMIT }
        ensures proves { IfOk result (λ o. option_map claim_proof o
            ≡ proof_in (S.meaning suite.now) (config_data config.now) (state_data self.now).known.session user.now service.now (PublicKey algorithm.now key.now signature.now)) }
        ensures keeps { IfOk result (λ o. IfSome o (λ c. claim_method c ≡ PublicKey algorithm.now key.now [])) }
        ensures named { IfOk result (λ o. IfSome o (λ c. HasName (claim_method c))) }
    {
        if !config.lists("publickey") {
            return Ok(None);
        }
        let Some(name) = supported_name(suite, algorithm) else {
            return Ok(None);
        };
        if !self.is_signed(suite, user, service, name, key, signature)? {
            return Ok(None);
        }
        let algorithm = String::from_str(self.alloc, name)?;
        let blob = Vec::from_slice(self.alloc, key)?;
        Ok(Some(Claim::Key { algorithm, blob }))
    }

    /// Whether the signature of the session identifier and the request is the key's (RFC 4252 section 7).
    fn is_signed<S: Suite>(
        &self,
        suite: &S,
        user: &str,
        service: &str,
        algorithm: &str,
        key: &[u8],
        signature: &[u8],
    ) -> Result<bool, Memory>
        requires user { length user.now ≤ PACKET_LIMIT }
        requires service { length service.now ≤ NAME_LIMIT }
        requires named { IsName algorithm.now }
        requires key { length key.now ≤ PACKET_LIMIT }
        requires signature { length signature.now ≤ PACKET_LIMIT }
        ensures { IfOk result (λ signed. signed
            ≡ (S.meaning suite.now).verify algorithm.now key.now (signed_text (state_data self.now).known.session user.now service.now algorithm.now key.now) signature.now) }
    {
        sshneg::exchange_law();
        let input = signed_request(
            self.alloc,
            &self.session,
            user,
            service.as_bytes(),
            algorithm,
            key,
        )?;
        suite.verify(self.alloc, algorithm, key, &input, signature)
    }

    /// The key of a query, where it may be asked about: not at the last try, and only if its method is listed, the algorithm
    /// is supported, and the key isn't longer than one that a suite answers.
    fn query_claim<S: Suite>(
        &self,
        config: &Config<'_>,
        suite: &S,
        algorithm: &[u8],
        key: &[u8],
    ) -> Result<Option<Claim>, Memory>
        ensures asks { IfOk result (λ o. (user service : List ℕ) → option_map (λ c. UserQuestion self.now.request user service (claim_proof c) (is_signed (claim_method c))) o
            ≡ asked_in (query_step (S.meaning suite.now) (config_data config.now) (state_data self.now).known user service algorithm.now key.now)) }
        ensures keeps { IfOk result (λ o. IfSome o (λ c. KeepsMethod (config_data config.now) (state_data self.now).known (PublicKeyQuery algorithm.now key.now) c)) }
    {
        if config.tries() <= self.request || !config.lists("publickey") {
            return Ok(None);
        }
        let Some(name) = supported_name(suite, algorithm) else {
            return Ok(None);
        };
        if key.len() > BLOB_LIMIT {
            return Ok(None);
        }
        let algorithm = String::from_str(self.alloc, name)?;
        let blob = Vec::from_slice(self.alloc, key)?;
        Ok(Some(Claim::Query { algorithm, blob }))
    }
}

/// The name of an algorithm of users' keys, if it is supported: it is a name, and the suite signs with it (RFC 4252
/// section 7).
fn supported_name<'m, S: Suite>(suite: &S, algorithm: &'m [u8]) -> Option<&'m str>
    ensures supported { option_map (λ name. name.now) result ≡ (if is_supported (S.meaning suite.now) algorithm.now then Some algorithm.now else None) }
    ensures short { IfSome result (λ name. length name.now ≤ NAME_LIMIT) }
    ensures named { IfSome result (λ name. IsName name.now) }
{
    sshwire::names_law();
    let name = as_name(algorithm)?;
    if suite.can(name).signature {
        Some(name)
    } else {
        None
    }
}
