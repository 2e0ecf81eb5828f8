//! The config with which an endpoint was made, for proofs alone.

ghost use Rattle.std.specs.Prelude.{◌≡◌, [], ◌∷◌};
ghost use Rattle.sshcore.specs.EndpointConfig.{config_data};
ghost use Rattle.sshcore.specs.MadeWith.{configs_seen, draws_in};

use crate::config::Config;
use crate::config_client::ClientConfig;
use crate::config_server::ServerConfig;
use crate::seen::Seen;

/// The config of either role, without its draws, which only proofs see again.
#[derive(Drop)]
pub(crate) enum MadeWith {
    Client(Seen<ClientConfig>),
    Server(Seen<ServerConfig>),
}

impl Config<'_> {
    /// This config.
    pub(crate) fn seen(&self) -> MadeWith
        ensures { configs_seen (draws_in self.now) result ≡ config_data self.now ∷ [] }
    {
        match self {
            Config::Client(client, _) => MadeWith::Client(Seen::of(*client)),
            Config::Server(server, _) => MadeWith::Server(Seen::of(*server)),
        }
    }
}
