//! What a program puts in for an endpoint of either role, and the endpoint's config.

ghost use Rattle.std.specs.Prelude.{◌≡◌, ◌≢◌, IfErr, IfOk, IsSome, false, true};
ghost use Rattle.sshsuite.specs.declared.deployed_suite.DeployedSuite.{DeployedSuite};
ghost use Rattle.sshcore.specs.declared.record_fault.RecordFault.TheVariants as no_record;
ghost use Rattle.sshcore.specs.Asking.{AskingMade};
ghost use Rattle.sshcore.specs.EndpointParts.{DecisionsData};
ghost use Rattle.rezdolin.specs.Endpoints.{AreAllowed, AreListed, AreRead, HasDrawn, IsConfigOf, IsNone, RefusesParts, Resumes, Trusts, config_in, digest_of, means, role_in};

use crate::drawn::are_drawn;
use crate::inputs::{ClientInput, ServerInput};
use crate::parts::{NoConfig, client_config, server_config};
use crate::parts_digest::{client_digest, server_digest};
use crate::readable::{is_client_read, is_server_read};
use crate::trust::Trust;
use sshcore::{AskingEndpoint, ClientConfig, PausedEndpoint, RecordFault, ServerConfig, Silent};
use sshsuite::DeployedSuite;
use sshwire::Memory;
use std::alloc::Global;

/// The parts of an endpoint.
#[derive(Clone, Copy)]
pub(crate) enum Parts<'a> {
    Client(&'a ClientInput<'a>),
    Server(&'a ServerInput<'a>),
}

/// Their config.
#[derive(Drop)]
pub(crate) enum Config {
    Client(ClientConfig),
    Server(ServerConfig),
}

impl<'a> Parts<'a> {
    /// Whether their numbers and entries can be read.
    pub(crate) fn are_read(&self) -> bool
        ensures yes { result ≡ true → AreRead self.now }
        ensures no { result ≡ false → AreRead self.now → ⊥ }
    {
        match self {
            Parts::Client(client) => is_client_read(client),
            Parts::Server(server) => is_server_read(server),
        }
    }

    /// Whether none of their draws has bytes that are all equal.
    pub(crate) fn are_drawn(&self) -> bool
        ensures yes { result ≡ true → HasDrawn self.now }
        ensures no { result ≡ false → HasDrawn self.now → ⊥ }
    {
        match self {
            Parts::Client(client) => are_drawn(&client.side),
            Parts::Server(server) => are_drawn(&server.side),
        }
    }

    /// Whom the endpoint trusts; nothing where it asks.
    pub(crate) fn trust(&self) -> Option<Trust<'a>>
        ensures trusts { (d : DecisionsData) → AreAllowed self.now d → Trusts result d }
        ensures lists { AreListed self.now → IsSome result }
    {
        match self {
            Parts::Client(client) if client.asks == 1 => None,
            Parts::Server(server) if server.asks == 1 => None,
            Parts::Client(client) => Some(Trust {
                host_keys: client.trusted_host_keys,
                users: &[],
            }),
            Parts::Server(server) => Some(Trust {
                host_keys: &[],
                users: server.users,
            }),
        }
    }

    /// The digest of all that is read of them.
    pub(crate) fn digest(&self, alloc: Global) -> Result<[u8; 32], Memory>
        ensures { IfOk result (λ digest. digest ≡ digest_of self.now) }
    {
        match self {
            Parts::Client(client) => client_digest(alloc, client),
            Parts::Server(server) => server_digest(alloc, server),
        }
    }

    /// Their config.
    pub(crate) fn config(&self, alloc: Global) -> Result<Config, NoConfig>
        ensures made { IfOk result (λ config. IsConfigOf self.now config) }
        ensures refused { IfErr result (λ f. RefusesParts self.now f) }
    {
        match self {
            Parts::Client(client) => match client_config(alloc, client) {
                Ok(config) => Ok(Config::Client(config)),
                Err(fault) => Err(fault),
            },
            Parts::Server(server) => match server_config(alloc, server) {
                Ok(config) => Ok(Config::Server(config)),
                Err(fault) => Err(fault),
            },
        }
    }
}

impl Config {
    /// An endpoint that has received nothing yet, with the draws of the parts.
    pub(crate) fn begin<'a>(
        &'a self,
        alloc: Global,
        out: &mut Vec<u8>,
    ) -> Result<AskingEndpoint<'a, DeployedSuite, Silent>, Memory>
        ensures made { IfOk result (λ e. (suite : DeployedSuite) × AskingMade means (role_in self.now) (config_in self.now) suite e out.old.items out.new.items) }
    {
        match self {
            Config::Client(config) => {
                AskingEndpoint::client(alloc, config, config.draws(), &DeployedSuite, &Silent, out)
            }
            Config::Server(config) => {
                AskingEndpoint::server(alloc, config, config.draws(), &DeployedSuite, &Silent, out)
            }
        }
    }

    /// The endpoint of which this is the record.
    pub(crate) fn resume<'a>(
        &'a self,
        alloc: Global,
        text: &[u8],
    ) -> Result<AskingEndpoint<'a, DeployedSuite, Silent>, RecordFault>
        ensures resumes { IfOk result (λ e. Resumes (role_in self.now) (config_in self.now) text.now e) }
        ensures refused { IfErr result (λ f. f ≢ no_record.Memory → IsNone (role_in self.now) (config_in self.now) text.now) }
    {
        match self {
            Config::Client(config) => {
                let draws = config.draws();
                let paused = PausedEndpoint::client_of_record(
                    alloc,
                    text,
                    config,
                    draws,
                    &DeployedSuite,
                )?;
                Ok(paused.resume_client(config, &DeployedSuite, &Silent))
            }
            Config::Server(config) => {
                let draws = config.draws();
                let paused = PausedEndpoint::server_of_record(
                    alloc,
                    text,
                    config,
                    draws,
                    &DeployedSuite,
                )?;
                Ok(paused.resume_server(config, &DeployedSuite, &Silent))
            }
        }
    }
}
