//! Judges whether a suite fits a config, without memory.

ghost use Rattle.std.specs.Prelude.{◌≡◌, ◌≤◌, IfErr, IfOk, length, map, option_map, string_bytes};
ghost use Rattle.std.specs.List.{AllByRecursion};
ghost use Rattle.std.specs.Option.{option_or};
ghost use Rattle.std.specs.Result.{result_err};
ghost use Rattle.sshwire.specs.Types.{AreNames, IsName};
ghost use Rattle.sshcore.specs.declared.config_parts.TheConstants.{PRIVATE_KEY_LIMIT};
ghost use Rattle.sshcore.specs.declared.config_suite_fault.AlgorithmList.TheVariants as algorithms;
ghost use Rattle.sshcore.specs.ConfigParts.{HostKeyData, key_algorithms};
ghost use Rattle.sshcore.specs.ConfigRules.{HasShortKey, IsAttempt, IsNamed};
ghost use Rattle.sshcore.specs.ConfigView.{attempt_data, credential_data, host_key_data};
ghost use Rattle.sshcore.specs.SuiteFit.{IsFit, client_asked, client_names, has_algorithm, host_keys_asked, key_asked, named_in, plan_asked, server_asked, server_names, suite_fault_data, suite_refusal};

use crate::config_client::ClientConfig;
use crate::config_parts::{Attempt, Credential, HostKey, SideParts};
use crate::config_server::ServerConfig;
use crate::config_suite_fault::{AlgorithmList, SuiteFault};
use sshpacket::Inventory;

impl ClientConfig {
    /// Judges this config over a suite: the suite has to have each key exchange method, cipher and MAC that is listed, to sign by
    /// each host key algorithm, and to hold each private key of the plan. Takes no memory.
    ///
    /// Answers the first name that the suite doesn't have, list by list in the order of a KEXINIT, else the first private key
    /// that it doesn't hold. Nothing else depends on it: an endpoint of a config that is refused here keeps its promises,
    /// and may agree with its peer about an algorithm that its suite doesn't have.
    pub fn judge<'a, S: Inventory>(&'a self, suite: &S) -> Result<(), SuiteFault<'a>>
        ensures refusal { option_map suite_fault_data (result_err result) ≡ suite_refusal (S.meaning suite.now) (S.inventory suite.now) (client_asked self.now) }
        ensures fit { IfOk result (λ _. IsFit (S.meaning suite.now) (S.inventory suite.now) (client_asked self.now)) }
        ensures unfit { IfErr result (λ _. IsFit (S.meaning suite.now) (S.inventory suite.now) (client_asked self.now) → ⊥) }
    {
        match self.judge_names(suite) {
            Err(fault) => Err(fault),
            Ok(()) => match unheld_attempt(suite, &self.parts().plan) {
                Some(fault) => Err(fault),
                None => Ok(()),
            },
        }
    }

    /// Judges the names of this config over a suite as [`judge`](ClientConfig::judge) does, and no private keys: those that the
    /// suite doesn't hold stand for keys that are held elsewhere. It is for who answers questions for signatures
    /// ([`answer_signature`](crate::AskingEndpoint::answer_signature)). Takes no memory.
    pub fn judge_names<'a, S: Inventory>(&'a self, suite: &S) -> Result<(), SuiteFault<'a>>
        ensures refusal { option_map suite_fault_data (result_err result) ≡ suite_refusal (S.meaning suite.now) (S.inventory suite.now) (client_names self.now) }
        ensures fit { IfOk result (λ _. IsFit (S.meaning suite.now) (S.inventory suite.now) (client_names self.now)) }
        ensures unfit { IfErr result (λ _. IsFit (S.meaning suite.now) (S.inventory suite.now) (client_names self.now) → ⊥) }
    {
        let parts = self.parts();
        let host_keys = unknown_name(
            suite,
            AlgorithmList::HostKey,
            &parts.server_host_key_algorithms,
        );
        match unknown_algorithm(suite, &parts.side, host_keys) {
            Some(fault) => Err(fault),
            None => Ok(()),
        }
    }
}

impl ServerConfig {
    /// Judges this config over a suite: the suite has to have each key exchange method, cipher and MAC that is listed, to sign by
    /// the algorithm of each host key, and to hold each host key's private key. Takes no memory.
    ///
    /// Answers the first name that the suite doesn't have, list by list in the order of a KEXINIT, else the first private key
    /// that it doesn't hold. Nothing else depends on it: an endpoint of a config that is refused here keeps its promises,
    /// and may agree with its peer about an algorithm that its suite doesn't have.
    pub fn judge<'a, S: Inventory>(&'a self, suite: &S) -> Result<(), SuiteFault<'a>>
        ensures refusal { option_map suite_fault_data (result_err result) ≡ suite_refusal (S.meaning suite.now) (S.inventory suite.now) (server_asked self.now) }
        ensures fit { IfOk result (λ _. IsFit (S.meaning suite.now) (S.inventory suite.now) (server_asked self.now)) }
        ensures unfit { IfErr result (λ _. IsFit (S.meaning suite.now) (S.inventory suite.now) (server_asked self.now) → ⊥) }
    {
        match self.judge_names(suite) {
            Err(fault) => Err(fault),
            Ok(()) => match unheld_host_key(suite, &self.parts().host_keys) {
                Some(fault) => Err(fault),
                None => Ok(()),
            },
        }
    }

    /// Judges the names of this config over a suite as [`judge`](ServerConfig::judge) does, and no private keys: those that the
    /// suite doesn't hold stand for keys that are held elsewhere. It is for who answers questions for signatures
    /// ([`answer_signature`](crate::AskingEndpoint::answer_signature)). Takes no memory.
    pub fn judge_names<'a, S: Inventory>(&'a self, suite: &S) -> Result<(), SuiteFault<'a>>
        ensures refusal { option_map suite_fault_data (result_err result) ≡ suite_refusal (S.meaning suite.now) (S.inventory suite.now) (server_names self.now) }
        ensures fit { IfOk result (λ _. IsFit (S.meaning suite.now) (S.inventory suite.now) (server_names self.now)) }
        ensures unfit { IfErr result (λ _. IsFit (S.meaning suite.now) (S.inventory suite.now) (server_names self.now) → ⊥) }
    {
        let parts = self.parts();
        let host_keys = unknown_host_key(suite, &parts.host_keys);
        match unknown_algorithm(suite, &parts.side, host_keys) {
            Some(fault) => Err(fault),
            None => Ok(()),
        }
    }
}

/// The first name of a side's lists that the suite doesn't have, where it is known of the host key algorithms.
fn unknown_algorithm<'a, S: Inventory>(
    suite: &S,
    side: &'a SideParts,
    host_keys: Option<SuiteFault<'a>>,
) -> Option<SuiteFault<'a>>
    requires kex { AreNames (map string_bytes side.now.kex_algorithms.items) }
    requires to_server { AreNames (map string_bytes side.now.encryption_client_to_server.items) }
    requires to_client { AreNames (map string_bytes side.now.encryption_server_to_client.items) }
    requires mac_to_server { AreNames (map string_bytes side.now.mac_client_to_server.items) }
    requires mac_to_client { AreNames (map string_bytes side.now.mac_server_to_client.items) }
    ensures { option_map suite_fault_data result
        ≡ option_or (suite_refusal (S.meaning suite.now) (S.inventory suite.now) (named_in algorithms.Kex (map string_bytes side.now.kex_algorithms.items)))
        (option_or (option_map suite_fault_data host_keys.entry)
        (option_or (suite_refusal (S.meaning suite.now) (S.inventory suite.now) (named_in algorithms.EncryptionClientToServer (map string_bytes side.now.encryption_client_to_server.items)))
        (option_or (suite_refusal (S.meaning suite.now) (S.inventory suite.now) (named_in algorithms.EncryptionServerToClient (map string_bytes side.now.encryption_server_to_client.items)))
        (option_or (suite_refusal (S.meaning suite.now) (S.inventory suite.now) (named_in algorithms.MacClientToServer (map string_bytes side.now.mac_client_to_server.items)))
        (suite_refusal (S.meaning suite.now) (S.inventory suite.now) (named_in algorithms.MacServerToClient (map string_bytes side.now.mac_server_to_client.items))))))) }
{
    let kex = unknown_name(suite, AlgorithmList::Kex, &side.kex_algorithms);
    if kex.is_some() {
        return kex;
    }
    if host_keys.is_some() {
        return host_keys;
    }
    unknown_cipher_or_mac(suite, side)
}

/// The first name of a side's lists of ciphers and MACs that the suite doesn't have.
fn unknown_cipher_or_mac<'a, S: Inventory>(suite: &S, side: &'a SideParts) -> Option<SuiteFault<'a>>
    requires to_server { AreNames (map string_bytes side.now.encryption_client_to_server.items) }
    requires to_client { AreNames (map string_bytes side.now.encryption_server_to_client.items) }
    requires mac_to_server { AreNames (map string_bytes side.now.mac_client_to_server.items) }
    requires mac_to_client { AreNames (map string_bytes side.now.mac_server_to_client.items) }
    ensures { option_map suite_fault_data result
        ≡ option_or (suite_refusal (S.meaning suite.now) (S.inventory suite.now) (named_in algorithms.EncryptionClientToServer (map string_bytes side.now.encryption_client_to_server.items)))
        (option_or (suite_refusal (S.meaning suite.now) (S.inventory suite.now) (named_in algorithms.EncryptionServerToClient (map string_bytes side.now.encryption_server_to_client.items)))
        (option_or (suite_refusal (S.meaning suite.now) (S.inventory suite.now) (named_in algorithms.MacClientToServer (map string_bytes side.now.mac_client_to_server.items)))
        (suite_refusal (S.meaning suite.now) (S.inventory suite.now) (named_in algorithms.MacServerToClient (map string_bytes side.now.mac_server_to_client.items))))) }
{
    let to_server = unknown_name(
        suite,
        AlgorithmList::EncryptionClientToServer,
        &side.encryption_client_to_server,
    );
    if to_server.is_some() {
        return to_server;
    }
    let to_client = unknown_name(
        suite,
        AlgorithmList::EncryptionServerToClient,
        &side.encryption_server_to_client,
    );
    if to_client.is_some() {
        return to_client;
    }
    let mac_to_server = unknown_name(
        suite,
        AlgorithmList::MacClientToServer,
        &side.mac_client_to_server,
    );
    if mac_to_server.is_some() {
        return mac_to_server;
    }
    unknown_name(
        suite,
        AlgorithmList::MacServerToClient,
        &side.mac_server_to_client,
    )
}

/// The first name of a list that the suite doesn't have.
fn unknown_name<'a, S: Inventory>(
    suite: &S,
    list: AlgorithmList,
    names: &'a [String],
) -> Option<SuiteFault<'a>>
    requires { AreNames (map string_bytes names.now) }
    ensures { option_map suite_fault_data result ≡ suite_refusal (S.meaning suite.now) (S.inventory suite.now) (named_in list (map string_bytes names.now)) }
{
    for name in names {
        if !has_algorithm(suite, list, name) {
            return Some(SuiteFault::Algorithm { list, name });
        }
    }
    None
}

/// The first host key algorithm of a server by which the suite doesn't sign.
fn unknown_host_key<'a, S: Inventory>(suite: &S, keys: &'a [HostKey]) -> Option<SuiteFault<'a>>
    requires { AreNames (key_algorithms (map host_key_data keys.now)) }
    ensures { option_map suite_fault_data result ≡ suite_refusal (S.meaning suite.now) (S.inventory suite.now) (named_in algorithms.HostKey (key_algorithms (map host_key_data keys.now))) }
{
    for key in keys {
        if !has_algorithm(suite, AlgorithmList::HostKey, &key.algorithm) {
            return Some(SuiteFault::Algorithm {
                list: AlgorithmList::HostKey,
                name: &key.algorithm,
            });
        }
    }
    None
}

/// Whether the suite has the algorithm of this name.
fn has_algorithm<S: Inventory>(suite: &S, list: AlgorithmList, name: &str) -> bool
    requires { IsName name.now }
    ensures { result ≡ has_algorithm (S.meaning suite.now) (S.inventory suite.now) list name.now }
{
    match list {
        AlgorithmList::Kex => suite.has_kex(name),
        AlgorithmList::HostKey => suite.can(name).signature,
        AlgorithmList::EncryptionClientToServer => suite.has_cipher(name),
        AlgorithmList::EncryptionServerToClient => suite.has_cipher(name),
        AlgorithmList::MacClientToServer => suite.has_mac(name),
        AlgorithmList::MacServerToClient => suite.has_mac(name),
    }
}

/// The first host key whose private key the suite doesn't hold.
fn unheld_host_key<'a, S: Inventory>(suite: &S, keys: &'a [HostKey]) -> Option<SuiteFault<'a>>
    requires names { AreNames (key_algorithms (map host_key_data keys.now)) }
    requires short { AllByRecursion (λ (key : HostKeyData). length key.secret ≤ PRIVATE_KEY_LIMIT) (map host_key_data keys.now) }
    ensures { option_map suite_fault_data result ≡ suite_refusal (S.meaning suite.now) (S.inventory suite.now) (host_keys_asked 0 (map host_key_data keys.now)) }
{
    for position in 0..keys.len() {
        let key = &keys[position];
        if !suite.holds(&key.algorithm, &key.private_key) {
            return Some(SuiteFault::PrivateKey {
                position,
                algorithm: &key.algorithm,
            });
        }
    }
    None
}

/// The first attempt of a plan whose private key the suite doesn't hold.
fn unheld_attempt<'a, S: Inventory>(suite: &S, plan: &'a [Attempt]) -> Option<SuiteFault<'a>>
    requires { AllByRecursion IsAttempt (map attempt_data plan.now) }
    ensures { option_map suite_fault_data result ≡ suite_refusal (S.meaning suite.now) (S.inventory suite.now) (plan_asked 0 (map attempt_data plan.now)) }
{
    for position in 0..plan.len() {
        let fault = unheld_key(suite, position, &plan[position].credential);
        if fault.is_some() {
            return fault;
        }
    }
    None
}

/// The private key of the attempt at this position, if it has one that the suite doesn't hold.
fn unheld_key<'a, S: Inventory>(
    suite: &S,
    position: usize,
    credential: &'a Credential,
) -> Option<SuiteFault<'a>>
    requires named { IsNamed (credential_data credential.now) }
    requires short { HasShortKey (credential_data credential.now) }
    ensures { option_map suite_fault_data result ≡ suite_refusal (S.meaning suite.now) (S.inventory suite.now) (key_asked position (credential_data credential.now)) }
{
    let Credential::PublicKey {
        algorithm,
        private_key,
        ..
    } = credential
    else {
        return None;
    };
    if suite.holds(algorithm, private_key) {
        return None;
    }
    Some(SuiteFault::PrivateKey {
        position,
        algorithm,
    })
}
