//! Accepted configs with the draws of one connection.

ghost use Rattle.std.specs.Prelude.{◌≡◌, ◌≤◌, [], IfOk, length};
ghost use Rattle.sshwire.specs.declared.limits.TheConstants.{PAYLOAD_LIMIT};
ghost use Rattle.sshmsg.specs.MessageData as content;
ghost use Rattle.sshmsg.specs.View.{kexinit_data};
ghost use Rattle.sshmsg.specs.Written.{written_message};
ghost use Rattle.sshneg.specs.declared.side.Side.TheVariants as role;
ghost use Rattle.sshcore.specs.ConfigParts.{client_offer, server_offer, version_of};
ghost use Rattle.sshcore.specs.ConfigRules.{IsClient, IsServer};
ghost use Rattle.sshcore.specs.ConfigView.{side_data};
ghost use Rattle.sshcore.specs.Endpoints.{EndpointMade};
ghost use Rattle.sshcore.specs.EndpointParts.{config_of_client, config_of_server};
ghost use Rattle.sshcore.specs.Redrawn.{draws_of, redrawn_client, redrawn_server};

use sshcore::{ClientConfig, Decisions, Draws, Endpoint, ServerConfig, SideParts};
use sshmsg::KexInit;
use sshpacket::Suite;
use sshwire::Memory;
use std::alloc::Global;
use std::marker::Model;

/// The same draws again, for a world that keeps what its endpoints were made with.
pub(crate) fn again(draws: &Draws) -> Draws
    ensures { result ≡ draws.now }
{
    Draws {
        cookie: draws.cookie,
        exchange_random: draws.exchange_random,
        padding_seed: draws.padding_seed,
    }
}

/// A client's config with the draws of one connection.
///
/// Contracts see it as the config that has these draws, of which every rule of configs holds.
#[derive(Drop)]
pub(crate) struct DrawnClient<'a> {
    config: &'a ClientConfig,
    draws: Draws,
}

impl<'a> Model for DrawnClient<'a> {
    ghost use Rattle.sshcore.specs.ConfigParts.{ClientData};
    ghost use Rattle.sshcore.specs.ConfigRules.{IsClient};
    ghost use Rattle.sshcore.specs.Redrawn.{redrawn_client};

    ghost Value = { ClientData };

    ghost view = { λ d. redrawn_client d.draws d.config.now };

    ghost invariant = { λ d. IsClient (redrawn_client d.draws d.config.now) };
}

impl<'a> DrawnClient<'a> {
    /// This config with these draws.
    pub(crate) fn new(config: &'a ClientConfig, draws: Draws) -> DrawnClient<'a>
        ensures drawn { result ≡ redrawn_client draws config.now }
        ensures accepted { IsClient result }
    {
        sshcore::config_law();
        sshcore::draws_law(&draws);
        config.parts();
        DrawnClient { config, draws }
    }

    /// The config, which has draws of its own.
    pub(crate) fn config(&self) -> &'a ClientConfig
        ensures { redrawn_client (draws_of self.now.side) result.now ≡ self.now }
    {
        self.config
    }

    /// What both roles have, besides draws.
    pub(crate) fn side(&self) -> &'a SideParts
        ensures version { version_of (side_data result.now) ≡ version_of self.now.side }
        ensures strict { result.now.strict ≡ self.now.side.strict }
    {
        &self.config.parts().side
    }

    /// The secret of which the suite makes this side's share.
    pub(crate) fn exchange_random(&self) -> &[u8]
        ensures random { result.now ≡ self.now.side.random }
        ensures long { length self.now.side.random ≡ 32 }
    {
        &self.draws.exchange_random
    }

    /// The KEXINIT that is sent. Answers `Memory` where an allocation failed, as the next one.
    pub(crate) fn kexinit(&self) -> Result<KexInit<'_>, Memory>
        ensures offer { IfOk result (λ kexinit. kexinit_data kexinit ≡ client_offer self.now) }
        ensures fits { length (written_message (content.KexInit (client_offer self.now))) ≤ PAYLOAD_LIMIT }
    {
        self.config.kexinit_with(&self.draws)
    }

    /// A client that has received nothing yet. What it sends is appended to `out`.
    pub(crate) fn endpoint<S: Suite, D: Decisions>(
        &self,
        alloc: Global,
        suite: &'a S,
        decisions: &'a D,
        out: &mut Vec<u8>,
    ) -> Result<Endpoint<'a, S, D>, Memory>
        ensures { IfOk result (λ e. EndpointMade S.meaning D.policy role.Client (config_of_client self.now) suite.now decisions.now e out.old.items out.new.items) }
    {
        let draws = again(&self.draws);
        Endpoint::client_with(alloc, self.config, draws, suite, decisions, out)
    }
}

/// A server's config with the draws of one connection.
///
/// Contracts see it as the config that has these draws, of which every rule of configs holds.
#[derive(Drop)]
pub(crate) struct DrawnServer<'a> {
    config: &'a ServerConfig,
    draws: Draws,
}

impl<'a> Model for DrawnServer<'a> {
    ghost use Rattle.sshcore.specs.ConfigParts.{ServerData};
    ghost use Rattle.sshcore.specs.ConfigRules.{IsServer};
    ghost use Rattle.sshcore.specs.Redrawn.{redrawn_server};

    ghost Value = { ServerData };

    ghost view = { λ d. redrawn_server d.draws d.config.now };

    ghost invariant = { λ d. IsServer (redrawn_server d.draws d.config.now) };
}

impl<'a> DrawnServer<'a> {
    /// This config with these draws.
    pub(crate) fn new(config: &'a ServerConfig, draws: Draws) -> DrawnServer<'a>
        ensures drawn { result ≡ redrawn_server draws config.now }
        ensures accepted { IsServer result }
    {
        sshcore::config_law();
        sshcore::draws_law(&draws);
        config.parts();
        DrawnServer { config, draws }
    }

    /// The config, which has draws of its own.
    pub(crate) fn config(&self) -> &'a ServerConfig
        ensures { redrawn_server (draws_of self.now.side) result.now ≡ self.now }
    {
        self.config
    }

    /// What both roles have, besides draws.
    pub(crate) fn side(&self) -> &'a SideParts
        ensures version { version_of (side_data result.now) ≡ version_of self.now.side }
        ensures strict { result.now.strict ≡ self.now.side.strict }
    {
        &self.config.parts().side
    }

    /// The secret of which the suite makes this side's share.
    pub(crate) fn exchange_random(&self) -> &[u8]
        ensures random { result.now ≡ self.now.side.random }
        ensures long { length self.now.side.random ≡ 32 }
    {
        &self.draws.exchange_random
    }

    /// The KEXINIT that is sent. Answers `Memory` where an allocation failed, as the next one.
    pub(crate) fn kexinit(&self) -> Result<KexInit<'_>, Memory>
        ensures offer { IfOk result (λ kexinit. kexinit_data kexinit ≡ server_offer self.now) }
        ensures fits { length (written_message (content.KexInit (server_offer self.now))) ≤ PAYLOAD_LIMIT }
    {
        self.config.kexinit_with(&self.draws)
    }

    /// A server that has received nothing yet. What it sends is appended to `out`.
    pub(crate) fn endpoint<S: Suite, D: Decisions>(
        &self,
        alloc: Global,
        suite: &'a S,
        decisions: &'a D,
        out: &mut Vec<u8>,
    ) -> Result<Endpoint<'a, S, D>, Memory>
        ensures { IfOk result (λ e. EndpointMade S.meaning D.policy role.Server (config_of_server self.now) suite.now decisions.now e out.old.items out.new.items) }
    {
        let draws = again(&self.draws);
        Endpoint::server_with(alloc, self.config, draws, suite, decisions, out)
    }
}
