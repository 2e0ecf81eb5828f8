//! Parts of a client, accepted.

ghost use Rattle.std.specs.Prelude.{◌≡◌, ◌≢◌, ◌≤◌, Err, IfErr, IfOk, length};
ghost use Rattle.sshwire.specs.declared.limits.TheConstants.{PAYLOAD_LIMIT};
ghost use Rattle.sshmsg.specs.MessageData as content;
ghost use Rattle.sshmsg.specs.View.{kexinit_data};
ghost use Rattle.sshmsg.specs.Written.{IsOffer, written_message};
ghost use Rattle.sshcore.specs.declared.config_fault.ConfigFault.{ConfigFault};
ghost use Rattle.sshcore.specs.declared.config_fault.ConfigFault.TheVariants as fault;
ghost use Rattle.sshcore.specs.ConfigParts.{client_offer, version_of};
ghost use Rattle.sshcore.specs.ConfigRules.{ClientRule, IsClient, IsLeastBroken};
ghost use Rattle.sshcore.specs.ConfigView.{client_data};
ghost use Rattle.sshcore.specs.Redrawn.{draws_of, redrawn_client};

use crate::config_draws::{Draws, cookie_of, draws_of};
use crate::config_fault::ConfigFault;
use crate::config_judge::client_refusal;
use crate::config_kexinit::{kexinit_of, list_of};
use crate::config_laws::{config_law, draws_law};
use crate::config_parts::ClientParts;
use crate::config_version::{side_law, version_line};
use sshmsg::KexInit;
use sshneg::Side;
use sshwire::{Memory, VersionLine};
use std::alloc::Global;
use std::marker::Model;

/// What a client is made of, accepted.
///
/// Contracts see its parts as plain data, of which every rule of configs holds.
#[derive(Drop)]
pub struct ClientConfig {
    parts: ClientParts,
    version: VersionLine,
    alloc: Global,
}

impl Model for ClientConfig {
    ghost use Rattle.std.specs.Prelude.{◌≡◌};
    ghost use Rattle.sshcore.specs.ConfigParts.{ClientData, version_of};
    ghost use Rattle.sshcore.specs.ConfigRules.{IsClient};
    ghost use Rattle.sshcore.specs.ConfigView.{client_data};

    ghost Value = { ClientData };

    ghost view = { λ c. client_data c.parts };

    ghost invariant = { λ c. (c.version ≡ version_of (client_data c.parts).side) × IsClient (client_data c.parts) };
}

impl ClientConfig {
    /// The config of these parts, which a refusal drops.
    ///
    /// Answers the refusal with the least number whose cause holds ([`ConfigFault`] says which cause
    /// each has), and `Memory` only where none does and an allocation failed.
    pub fn new(alloc: Global, parts: ClientParts) -> Result<ClientConfig, ConfigFault>
        ensures accepted { IfOk result (λ config. (config ≡ client_data parts) × IsClient config) }
        ensures refused { IfErr result (λ code. code ≢ fault.Memory → IsLeastBroken (λ rule. ClientRule rule (client_data parts)) code) }
        ensures memory { result ≡ Err fault.Memory → (rule : ConfigFault) → ClientRule rule (client_data parts) }
    {
        sshwire::names_law();
        side_law(&parts.side);
        match client_refusal(&parts) {
            Some(fault) => Err(fault),
            None => match version_line(alloc, &parts.side) {
                Ok(version) => Ok(ClientConfig {
                    parts,
                    version,
                    alloc,
                }),
                Err(_) => Err(ConfigFault::Memory),
            },
        }
    }

    /// The parts that were handed in. Takes no memory.
    pub fn parts(&self) -> &ClientParts
        ensures same { client_data result.now ≡ self.now }
        ensures accepted { IsClient self.now }
    {
        &self.parts
    }

    /// How many attempts the plan has, at most 64. Takes no memory.
    pub fn attempts(&self) -> usize
        ensures count { result ≡ length self.now.plan }
        ensures accepted { IsClient self.now }
    {
        self.parts.plan.len()
    }

    /// The draws that stand in the parts, with which [`Endpoint::client`](crate::Endpoint::client) is made.
    /// They serve one connection. Takes no memory.
    pub fn draws(&self) -> Draws
        ensures own { result ≡ draws_of self.now.side }
        ensures same { redrawn_client result self.now ≡ self.now }
    {
        draws_of(&self.parts.side)
    }

    /// The KEXINIT that an endpoint of this config sends (RFC 4253 section 7.1): the lists as they are,
    /// after the methods the own marker where the side is willing to be strict, no compression and no
    /// languages. It fits a payload. Answers `Memory` where an allocation failed.
    pub fn kexinit(&self) -> Result<KexInit<'_>, Memory>
        ensures offer { IfOk result (λ kexinit. kexinit_data kexinit ≡ client_offer self.now) }
        ensures formed { IsOffer (client_offer self.now) }
        ensures fits { length (written_message (content.KexInit (client_offer self.now))) ≤ PAYLOAD_LIMIT }
    {
        config_law();
        self.kexinit_by(cookie_of(&self.parts.side.cookie))
    }

    /// The KEXINIT that an endpoint of this config with these draws sends: it has their cookie, and the rest
    /// is that of [`ClientConfig::kexinit`]. It fits a payload. Answers `Memory` where an allocation failed.
    pub fn kexinit_with<'b>(&'b self, draws: &'b Draws) -> Result<KexInit<'b>, Memory>
        ensures offer { IfOk result (λ kexinit. kexinit_data kexinit ≡ client_offer (redrawn_client draws.now self.now)) }
        ensures formed { IsOffer (client_offer (redrawn_client draws.now self.now)) }
        ensures fits { length (written_message (content.KexInit (client_offer (redrawn_client draws.now self.now)))) ≤ PAYLOAD_LIMIT }
    {
        config_law();
        draws_law(draws);
        self.kexinit_by(&draws.cookie)
    }

    /// The KEXINIT of this config with this cookie.
    fn kexinit_by<'b>(&'b self, cookie: &'b [u8; 16]) -> Result<KexInit<'b>, Memory>
        ensures offer { IfOk result (λ kexinit. kexinit_data kexinit ≡ record (client_offer self.now) { cookie = cookie.now }) }
        ensures accepted { IsClient self.now }
    {
        config_law();
        let host_keys = list_of(self.alloc, &self.parts.server_host_key_algorithms)?;
        kexinit_of(
            self.alloc,
            Side::Client,
            &self.parts.side,
            cookie,
            host_keys,
            self.parts.guess,
        )
    }

    /// The version line that an endpoint of this config sends. Takes no memory.
    pub(crate) fn version(&self) -> &VersionLine
        ensures same { result.now ≡ version_of self.now.side }
        ensures accepted { IsClient self.now }
    {
        &self.version
    }
}
