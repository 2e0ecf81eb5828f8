//! The exchange hash of what both sides have sent, and the keys that come of it (RFC 4253 sections 7.2 and 8).

ghost use Rattle.std.specs.Prelude.{◌≡◌, ◌≤◌, ◌<◌, ◌^◌, IfOk, Ok, is_some, length, true};
ghost use Rattle.sshpacket.specs.declared.limits.TheConstants.{DIGEST_LIMIT, PACKET_LIMIT, SHARE_LIMIT};
ghost use Rattle.sshneg.specs.declared.side.Side.TheVariants.{Client, Server};
ghost use Rattle.sshneg.specs.Derivations.{exchange_text};
ghost use Rattle.sshneg.specs.ExchangeEnd.{client_of, exchange_hash, server_of};
ghost use Rattle.sshneg.specs.Markers.{other};
ghost use Rattle.sshcore.specs.EndpointConfig.{config_data, role_of};
ghost use Rattle.sshcore.specs.Exchanged.{exchanged, kex_keys};
ghost use Rattle.sshcore.specs.ExchangedView.{shares_data};
ghost use Rattle.sshcore.specs.StateData.{state_data};

use crate::config::Config;
use crate::kex_algorithms::Algorithms;
use crate::kex_exchange::{BothKeys, Shares};
use crate::payloads::kexinit_payload;
use crate::state::State;
use sshneg::{Exchange, KeyMaterial, Side, exchange_input, keys_of};
use sshpacket::{Keys, Suite};
use sshwire::Memory;
use std::alloc::Global;

impl State<'_> {
    /// The exchange hash (RFC 4253 section 8).
    pub(crate) fn hash<S: Suite>(
        &self,
        config: &Config<'_>,
        suite: &S,
        shares: &Shares<'_>,
    ) -> Result<Vec<u8>, Memory>
        requires chosen { is_some self.now.algorithms ≡ true }
        requires host_key { length shares.now.host_key.now ≤ PACKET_LIMIT }
        requires client_share { length shares.now.client_share.now ≤ PACKET_LIMIT }
        requires server_share { length shares.now.server_share.now ≤ PACKET_LIMIT }
        requires shared { length shares.now.shared.now ≤ SHARE_LIMIT }
        ensures hash { IfOk result (λ hash. hash.items ≡ exchange_hash (S.meaning suite.now) (state_data self.now).known.algorithms.kex
            (exchanged (role_of config.now) (config_data config.now) (state_data self.now).known (shares_data shares.now))) }
        ensures short { IfOk result (λ hash. length hash.items ≤ DIGEST_LIMIT) }
    {
        sshneg::exchange_law();
        let input = self.hash_input(config, shares)?;
        let algorithms = self.algorithms.as_ref().unwrap();
        suite.digest(self.alloc, algorithms.kex(), &input)
    }

    /// What is hashed (RFC 4253 section 8).
    pub(crate) fn hash_input(
        &self,
        config: &Config<'_>,
        shares: &Shares<'_>,
    ) -> Result<Vec<u8>, Memory>
        requires host_key { length shares.now.host_key.now ≤ PACKET_LIMIT }
        requires client_share { length shares.now.client_share.now ≤ PACKET_LIMIT }
        requires server_share { length shares.now.server_share.now ≤ PACKET_LIMIT }
        requires shared { length shares.now.shared.now ≤ SHARE_LIMIT }
        ensures input { IfOk result (λ input. input.items ≡ exchange_text (exchanged (role_of config.now) (config_data config.now) (state_data self.now).known (shares_data shares.now))) }
        ensures short { IfOk result (λ input. length input.items < 2 ^ 32) }
    {
        sshneg::exchange_law();
        let own = kexinit_payload(self.alloc, config)?;
        let versions = in_order(config, config.version().text(), &self.version);
        let kexinits = in_order(config, &own, &self.kexinit);
        exchange_input(
            self.alloc,
            &Exchange {
                client_version: versions.0,
                server_version: versions.1,
                client_kexinit: kexinits.0,
                server_kexinit: kexinits.1,
                host_key: shares.host_key,
                client_share: shares.client_share,
                server_share: shares.server_share,
                shared: shares.shared,
            },
        )
    }

    /// The keys of both directions (RFC 4253 section 7.2).
    pub(crate) fn both_keys<S: Suite>(
        &self,
        config: &Config<'_>,
        suite: &S,
        shared: &[u8],
        hash: &[u8],
    ) -> Result<BothKeys, Memory>
        requires chosen { is_some self.now.algorithms ≡ true }
        requires shared { length shared.now ≤ SHARE_LIMIT }
        requires hash { length hash.now ≤ DIGEST_LIMIT }
        ensures incoming { IfOk result (λ keys. keys.incoming ≡ kex_keys (S.meaning suite.now) (state_data self.now).known.algorithms shared.now hash.now (other (role_of config.now))) }
        ensures outgoing { IfOk result (λ keys. keys.outgoing ≡ kex_keys (S.meaning suite.now) (state_data self.now).known.algorithms shared.now hash.now (role_of config.now)) }
    {
        let role = config.role();
        let algorithms = self.algorithms.as_ref().unwrap();
        Ok(BothKeys {
            incoming: direction_keys(self.alloc, suite, algorithms, shared, hash, role.other())?,
            outgoing: direction_keys(self.alloc, suite, algorithms, shared, hash, role)?,
        })
    }
}

/// What this side has and what its peer has, the client's first.
fn in_order<'a>(config: &Config<'_>, own: &'a [u8], peer: &'a [u8]) -> (&'a [u8], &'a [u8])
    ensures client { result.0.now ≡ client_of (role_of config.now) own.now peer.now }
    ensures server { result.1.now ≡ server_of (role_of config.now) own.now peer.now }
{
    match config {
        Config::Client(..) => (own, peer),
        Config::Server(..) => (peer, own),
    }
}

/// The keys with which this role sends.
fn direction_keys<S: Suite>(
    alloc: Global,
    suite: &S,
    algorithms: &Algorithms,
    shared: &[u8],
    hash: &[u8],
    sender: Side,
) -> Result<Keys, Memory>
    requires shared { length shared.now ≤ SHARE_LIMIT }
    requires hash { length hash.now ≤ DIGEST_LIMIT }
    ensures { IfOk result (λ keys. keys ≡ kex_keys (S.meaning suite.now) algorithms.now shared.now hash.now sender) }
{
    let material = KeyMaterial {
        kex: algorithms.kex(),
        shared,
        hash,
        session: hash,
    };
    let cipher = algorithms.cipher(sender);
    let mac = algorithms.mac(sender);
    keys_of(alloc, suite, &material, sender, cipher, mac)
}
