//! Parts of a server, accepted.

ghost use Rattle.std.specs.Prelude.{◌≡◌, ◌≢◌, ◌≤◌, Err, IfErr, IfOk, length};
ghost use Rattle.sshwire.specs.declared.limits.TheConstants.{PAYLOAD_LIMIT};
ghost use Rattle.sshmsg.specs.MessageData as content;
ghost use Rattle.sshmsg.specs.View.{kexinit_data};
ghost use Rattle.sshmsg.specs.Written.{IsOffer, written_message};
ghost use Rattle.sshcore.specs.declared.config_fault.ConfigFault.{ConfigFault};
ghost use Rattle.sshcore.specs.declared.config_fault.ConfigFault.TheVariants as fault;
ghost use Rattle.sshcore.specs.ConfigParts.{server_offer, version_of};
ghost use Rattle.sshcore.specs.ConfigRules.{ServerRule, IsServer, IsLeastBroken};
ghost use Rattle.sshcore.specs.ConfigView.{server_data};
ghost use Rattle.sshcore.specs.Redrawn.{draws_of, redrawn_server};

use crate::config_draws::{Draws, cookie_of, draws_of};
use crate::config_fault::ConfigFault;
use crate::config_judge::server_refusal;
use crate::config_kexinit::{kexinit_of, list_of_host_keys};
use crate::config_laws::{config_law, draws_law};
use crate::config_parts::ServerParts;
use crate::config_version::{side_law, version_line};
use sshmsg::KexInit;
use sshneg::Side;
use sshwire::{Memory, VersionLine};
use std::alloc::Global;
use std::marker::Model;

/// What a server is made of, accepted.
///
/// Contracts see its parts as plain data, of which every rule of configs holds.
#[derive(Drop)]
pub struct ServerConfig {
    parts: ServerParts,
    version: VersionLine,
    alloc: Global,
}

impl Model for ServerConfig {
    ghost use Rattle.std.specs.Prelude.{◌≡◌};
    ghost use Rattle.sshcore.specs.ConfigParts.{ServerData, version_of};
    ghost use Rattle.sshcore.specs.ConfigRules.{IsServer};
    ghost use Rattle.sshcore.specs.ConfigView.{server_data};

    ghost Value = { ServerData };

    ghost view = { λ c. server_data c.parts };

    ghost invariant = { λ c. (c.version ≡ version_of (server_data c.parts).side) × IsServer (server_data c.parts) };
}

impl ServerConfig {
    /// The config of these parts, which a refusal drops.
    ///
    /// Answers the refusal with the least number whose cause holds ([`ConfigFault`] says which cause
    /// each has), and `Memory` only where none does and an allocation failed.
    pub fn new(alloc: Global, parts: ServerParts) -> Result<ServerConfig, ConfigFault>
        ensures accepted { IfOk result (λ config. (config ≡ server_data parts) × IsServer config) }
        ensures refused { IfErr result (λ code. code ≢ fault.Memory → IsLeastBroken (λ rule. ServerRule rule (server_data parts)) code) }
        ensures memory { result ≡ Err fault.Memory → (rule : ConfigFault) → ServerRule rule (server_data parts) }
    {
        sshwire::names_law();
        side_law(&parts.side);
        match server_refusal(&parts) {
            Some(fault) => Err(fault),
            None => match version_line(alloc, &parts.side) {
                Ok(version) => Ok(ServerConfig {
                    parts,
                    version,
                    alloc,
                }),
                Err(_) => Err(ConfigFault::Memory),
            },
        }
    }

    /// The parts that were handed in. Takes no memory.
    pub fn parts(&self) -> &ServerParts
        ensures same { server_data result.now ≡ self.now }
        ensures accepted { IsServer self.now }
    {
        &self.parts
    }

    /// The draws that stand in the parts, with which [`Endpoint::server`](crate::Endpoint::server) is made.
    /// They serve one connection. Takes no memory.
    pub fn draws(&self) -> Draws
        ensures own { result ≡ draws_of self.now.side }
        ensures same { redrawn_server result self.now ≡ self.now }
    {
        draws_of(&self.parts.side)
    }

    /// The KEXINIT that an endpoint of this config sends (RFC 4253 section 7.1): the lists as they are,
    /// after the methods the own marker where the side is willing to be strict, no compression and no
    /// languages, and no guess. It fits a payload. Answers `Memory` where an allocation failed.
    pub fn kexinit(&self) -> Result<KexInit<'_>, Memory>
        ensures offer { IfOk result (λ kexinit. kexinit_data kexinit ≡ server_offer self.now) }
        ensures formed { IsOffer (server_offer self.now) }
        ensures fits { length (written_message (content.KexInit (server_offer self.now))) ≤ PAYLOAD_LIMIT }
    {
        config_law();
        self.kexinit_by(cookie_of(&self.parts.side.cookie))
    }

    /// The KEXINIT that an endpoint of this config with these draws sends: it has their cookie, and the rest
    /// is that of [`ServerConfig::kexinit`]. It fits a payload. Answers `Memory` where an allocation failed.
    pub fn kexinit_with<'b>(&'b self, draws: &'b Draws) -> Result<KexInit<'b>, Memory>
        ensures offer { IfOk result (λ kexinit. kexinit_data kexinit ≡ server_offer (redrawn_server draws.now self.now)) }
        ensures formed { IsOffer (server_offer (redrawn_server draws.now self.now)) }
        ensures fits { length (written_message (content.KexInit (server_offer (redrawn_server draws.now self.now)))) ≤ PAYLOAD_LIMIT }
    {
        config_law();
        draws_law(draws);
        self.kexinit_by(&draws.cookie)
    }

    /// The KEXINIT of this config with this cookie.
    fn kexinit_by<'b>(&'b self, cookie: &'b [u8; 16]) -> Result<KexInit<'b>, Memory>
        ensures offer { IfOk result (λ kexinit. kexinit_data kexinit ≡ record (server_offer self.now) { cookie = cookie.now }) }
        ensures accepted { IsServer self.now }
    {
        config_law();
        let host_keys = list_of_host_keys(self.alloc, &self.parts.host_keys)?;
        kexinit_of(
            self.alloc,
            Side::Server,
            &self.parts.side,
            cookie,
            host_keys,
            false,
        )
    }

    /// The version line that an endpoint of this config sends. Takes no memory.
    pub(crate) fn version(&self) -> &VersionLine
        ensures same { result.now ≡ version_of self.now.side }
        ensures accepted { IsServer self.now }
    {
        &self.version
    }
}
