//! The config of an endpoint of either role.

ghost use Rattle.std.specs.Prelude.{◌≡◌, ◌<◌, ◌≤◌, ◌^◌, if◌then◌else◌, IfOk, IfSome, None, Some, length, map, option_map, string_bytes};
ghost use Rattle.std.specs.List.{AllByRecursion};
ghost use Rattle.sshwire.specs.declared.limits.TheConstants.{LINE_LIMIT, NAME_LIMIT, PAYLOAD_LIMIT};
ghost use Rattle.sshwire.specs.Lines.{version_line};
ghost use Rattle.sshcore.specs.declared.config_parts.TheConstants.{BANNER_LIMIT, LIST_LIMIT, PRIVATE_KEY_LIMIT, TRIES_LIMIT};
ghost use Rattle.sshmsg.specs.MessageData as content;
ghost use Rattle.sshmsg.specs.View.{kexinit_data};
ghost use Rattle.sshmsg.specs.Written.{written_message};
ghost use Rattle.sshcore.specs.EndpointConfig.{config_data, role_of};
ghost use Rattle.sshcore.specs.MadeWith.{draws_in};
ghost use Rattle.sshcore.specs.declared.config_draws.Draws.{Draws};
ghost use Rattle.sshcore.specs.ConfigParts.{ClientData, ServerData};
ghost use Rattle.sshcore.specs.ConfigRules.{IsAttempt};
ghost use Rattle.sshcore.specs.EndpointParts.{config_of_client, config_of_server};
ghost use Rattle.sshcore.specs.Redrawn.{redrawn_client, redrawn_server};
ghost use Rattle.sshcore.specs.ConfigView.{attempt_data, host_key_data};
ghost use Rattle.sshcore.specs.Directions.{form_of};
ghost use Rattle.sshcore.specs.Exchange.{secret_of};
ghost use Rattle.sshcore.specs.Work.{guessed_method};
ghost use Rattle.sshwire.specs.Types.{AreNames, IsName, names_body};
ghost use Rattle.sshneg.specs.ChoiceReadings.{is_in};
ghost use Rattle.sshneg.specs.Markers.{methods};

use crate::config_client::ClientConfig;
use crate::config_draws::Draws;
use crate::config_parts::{Attempt, HostKey, PeerReading, SideParts};
use crate::config_server::ServerConfig;
use sshmsg::KexInit;
use sshneg::Side;
use sshwire::{LineForm, Memory, ReadBy, VersionLine};

/// The config of an endpoint, which tells its role, and the draws of its connection.
#[derive(Drop)]
pub(crate) enum Config<'a> {
    Client(&'a ClientConfig, Draws),
    Server(&'a ServerConfig, Draws),
}

impl<'a> Config<'a> {
    pub(crate) fn role(&self) -> Side
        ensures { result ≡ role_of self.now }
    {
        match self {
            Config::Client(..) => Side::Client,
            Config::Server(..) => Side::Server,
        }
    }

    /// What both roles have, besides draws.
    pub(crate) fn side(&self) -> &'a SideParts
        ensures strict { result.now.strict ≡ (config_data self.now).strict }
        ensures reading { result.now.reading ≡ (config_data self.now).reading }
        ensures ignored_limit { result.now.ignored_limit ≡ (config_data self.now).ignored_limit }
        // The methods are some names, and they are those of the KEXINIT, whose marker is no method.
        ensures methods { map string_bytes result.now.kex_algorithms.items ≡ methods (config_data self.now).offer.kex_algorithms }
        ensures some { 0 < length result.now.kex_algorithms.items }
        ensures names { AreNames (map string_bytes result.now.kex_algorithms.items) }
    {
        match self {
            Config::Client(client, _) => &client.parts().side,
            Config::Server(server, _) => &server.parts().side,
        }
    }

    /// Which of the peer's lines is its version line.
    pub(crate) fn line_form(&self) -> LineForm
        ensures { result ≡ form_of (config_data self.now).reading (role_of self.now) }
    {
        match self.side().reading {
            PeerReading::Strict => LineForm::Strict,
            PeerReading::Deployed => LineForm::Deployed(match self.role() {
                Side::Client => ReadBy::Client,
                Side::Server => ReadBy::Server,
            }),
        }
    }

    /// What this connection has drawn.
    fn draws(&self) -> &Draws
        ensures random { result.now.exchange_random ≡ (config_data self.now).random }
        ensures seed { result.now.padding_seed ≡ (config_data self.now).seed }
    {
        match self {
            Config::Client(_, draws) => draws,
            Config::Server(_, draws) => draws,
        }
    }

    /// What this connection has drawn, of a config that is put aside.
    pub(crate) fn into_draws(self) -> Draws
        ensures draws { result ≡ draws_in self.entry }
        ensures client { (client : ClientData) (draws : Draws) → config_data self.entry ≡ config_of_client (redrawn_client draws client) → result ≡ draws }
        ensures server { (server : ServerData) (draws : Draws) → config_data self.entry ≡ config_of_server (redrawn_server draws server) → result ≡ draws }
    {
        match self {
            Config::Client(_, draws) => draws,
            Config::Server(_, draws) => draws,
        }
    }

    /// The secret of which the suite makes this side's share.
    pub(crate) fn exchange_random(&self) -> &[u8]
        ensures random { result.now ≡ (config_data self.now).random }
        ensures random_length { length (config_data self.now).random ≡ 32 }
    {
        &self.draws().exchange_random
    }

    /// The secret of which the suite makes padding.
    pub(crate) fn padding_seed(&self) -> &[u8]
        ensures seed { result.now ≡ (config_data self.now).seed }
        ensures seed_length { length (config_data self.now).seed ≡ 32 }
    {
        &self.draws().padding_seed
    }

    /// The version line that is sent.
    pub(crate) fn version(&self) -> &'a VersionLine
        ensures version { result.now ≡ (config_data self.now).version }
        ensures short { length (version_line (config_data self.now).version) ≤ LINE_LIMIT }
    {
        match self {
            Config::Client(client, _) => client.version(),
            Config::Server(server, _) => server.version(),
        }
    }

    /// The KEXINIT that is sent.
    pub(crate) fn kexinit(&self) -> Result<KexInit<'_>, Memory>
        ensures offer { IfOk result (λ kexinit. kexinit_data kexinit ≡ (config_data self.now).offer) }
        ensures fits { length (written_message (content.KexInit (config_data self.now).offer)) ≤ PAYLOAD_LIMIT }
    {
        match self {
            Config::Client(client, draws) => client.kexinit_with(draws),
            Config::Server(server, draws) => server.kexinit_with(draws),
        }
    }

    /// Whether the KEXINIT that is sent announces a guess; a server guesses nothing (profile).
    pub(crate) fn guesses(&self) -> bool
        ensures { result ≡ (config_data self.now).offer.first_kex_packet_follows }
    {
        match self {
            Config::Client(client, _) => client.parts().guess,
            Config::Server(..) => false,
        }
    }

    /// The first of the methods, for which a guess is made.
    pub(crate) fn first_method(&self) -> &'a str
        ensures method { result.now ≡ guessed_method (config_data self.now) }
        ensures name { IsName result.now }
    {
        self.side().kex_algorithms[0].as_str()
    }

    /// The notice lines of a server.
    pub(crate) fn notices(&self) -> &'a [Vec<u8>]
        ensures { map (λ line. line.items) result.now ≡ (config_data self.now).notices }
    {
        match self {
            Config::Client(..) => &[],
            Config::Server(server, _) => &server.parts().notice_lines,
        }
    }

    /// The private key of the first host key of this algorithm; none of a client (no bytes).
    pub(crate) fn secret(&self, algorithm: &str) -> &'a [u8]
        ensures secret { result.now ≡ secret_of (config_data self.now).host_keys algorithm.now }
        ensures short { length result.now ≤ PRIVATE_KEY_LIMIT }
    {
        match self {
            Config::Client(..) => &[],
            Config::Server(server, _) => secret_in(&server.parts().host_keys, algorithm),
        }
    }

    /// The attempts of a client's plan; a server has none.
    pub(crate) fn plan(&self) -> &'a [Attempt]
        ensures plan { map attempt_data result.now ≡ (config_data self.now).plan }
        ensures accepted { AllByRecursion IsAttempt (map attempt_data result.now) }
    {
        match self {
            Config::Client(client, _) => &client.parts().plan,
            Config::Server(..) => &[],
        }
    }

    /// The service of a server that has this name; a client has none.
    pub(crate) fn service(&self, name: &[u8]) -> Option<&'a str>
        ensures service { option_map (λ service. service.now) result ≡ (if is_in (config_data self.now).services name.now then Some name.now else None) }
        ensures short { IfSome result (λ service. length service.now ≤ NAME_LIMIT) }
    {
        match self {
            Config::Client(..) => None,
            Config::Server(server, _) => name_in(&server.parts().services, name),
        }
    }

    /// Whether a server lists this method in a FAILURE; a client lists none.
    pub(crate) fn lists(&self, method: &str) -> bool
        ensures { result ≡ is_in (config_data self.now).methods method.now }
    {
        match self {
            Config::Client(..) => false,
            Config::Server(server, _) => name_in(
                &server.parts().methods,
                method.as_bytes(),
            ).is_some(),
        }
    }

    /// The methods that a server's FAILURE lists; a client lists none.
    pub(crate) fn methods(&self) -> &'a [String]
        ensures methods { map string_bytes result.now ≡ (config_data self.now).methods }
        ensures names { AreNames (config_data self.now).methods }
        ensures short { length (names_body (config_data self.now).methods) ≤ LIST_LIMIT }
    {
        match self {
            Config::Client(..) => &[],
            Config::Server(server, _) => &server.parts().methods,
        }
    }

    /// The methods that a user has to prove all; a client requires none.
    pub(crate) fn required(&self) -> &'a [String]
        ensures { map string_bytes result.now ≡ (config_data self.now).required }
    {
        match self {
            Config::Client(..) => &[],
            Config::Server(server, _) => &server.parts().required,
        }
    }

    /// The algorithms of users' keys that a server tells to a client that asks; a client tells none.
    pub(crate) fn signature_algorithms(&self) -> &'a [String]
        ensures names { map string_bytes result.now ≡ (config_data self.now).signature_algorithms }
        ensures short { length (names_body (config_data self.now).signature_algorithms) ≤ LIST_LIMIT }
    {
        match self {
            Config::Client(..) => &[],
            Config::Server(server, _) => &server.parts().signature_algorithms,
        }
    }

    /// How many requests a server grants; a client none.
    pub(crate) fn tries(&self) -> u32
        ensures tries { result ≡ (config_data self.now).tries }
        ensures bound { result ≤ TRIES_LIMIT }
    {
        match self {
            Config::Client(..) => 0,
            Config::Server(server, _) => server.parts().tries,
        }
    }

    /// The text of a server's banner.
    pub(crate) fn banner(&self) -> Option<&'a [u8]>
        ensures banner { option_map (λ text. text.now) result ≡ (config_data self.now).banner }
        ensures short { IfSome result (λ text. length text.now ≤ BANNER_LIMIT) }
    {
        match self {
            Config::Client(..) => None,
            Config::Server(server, _) => server.parts().banner.as_deref(),
        }
    }
}

/// The first of these names that these bytes are.
pub(crate) fn name_in<'a>(names: &'a [String], name: &[u8]) -> Option<&'a str>
    ensures { option_map (λ own. own.now) result ≡ (if is_in (map string_bytes names.now) name.now then Some name.now else None) }
{
    match names.iter().find(|own| name == own.as_bytes()) {
        Some(own) => Some(own.as_str()),
        None => None,
    }
}

/// The private key of the first of these keys that has this algorithm, or no bytes.
fn secret_in<'a>(keys: &'a [HostKey], algorithm: &str) -> &'a [u8]
    ensures { result.now ≡ secret_of (map host_key_data keys.now) algorithm.now }
{
    match keys.iter().find(|key| algorithm == key.algorithm.as_str()) {
        Some(key) => &key.private_key,
        None => &[],
    }
}
