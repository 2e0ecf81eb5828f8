//! The names of the algorithms that are used.

ghost use Rattle.std.specs.Prelude.{[], ◌≡◌, ◌<◌, ◌∷◌, IfOk, Some, length, string_bytes};
ghost use Rattle.std.specs.List.{slice_get};
ghost use Rattle.sshwire.specs.Types.{AreNames, IsName};
ghost use Rattle.sshmsg.specs.View.{kexinit_data};
ghost use Rattle.sshneg.specs.Fields as fields;
ghost use Rattle.sshcore.specs.Chosen.{AreAt, ArePlaced, cipher_of, mac_of};
ghost use Rattle.sshcore.specs.EndData.{agreed_data};
ghost use Rattle.sshcore.specs.NamesView.{names_of};
ghost use Rattle.sshcore.specs.Record.{HasNames};

use crate::end::Agreed;
use crate::kex_chosen_names::ChosenNames;
use sshmsg::KexInit;
use sshneg::{Chosen, Side};
use sshwire::{Memory, NameList};
use std::alloc::Global;
use std::marker::Model;

/// The algorithm of each direction.
#[derive(Drop)]
pub(crate) struct Directions {
    pub(crate) client_to_server: String,
    pub(crate) server_to_client: String,
}

impl Directions {
    /// The same names once more.
    fn copy(&self, alloc: Global) -> Result<Directions, Memory>
        ensures to_server { IfOk result (λ d. string_bytes d.client_to_server ≡ string_bytes self.now.client_to_server) }
        ensures to_client { IfOk result (λ d. string_bytes d.server_to_client ≡ string_bytes self.now.server_to_client) }
    {
        Ok(Directions {
            client_to_server: String::from_str(alloc, &self.client_to_server)?,
            server_to_client: String::from_str(alloc, &self.server_to_client)?,
        })
    }
}

/// The algorithms of a choice (RFC 4253 section 7.1), by their names.
#[derive(Drop)]
pub(crate) struct Algorithms {
    kex: String,
    host_key: String,
    encryption: Directions,
    mac: Directions,
    compression: Directions,
}

impl Model for Algorithms {
    ghost use Rattle.std.specs.Prelude.{string_bytes};
    ghost use Rattle.sshneg.specs.Fields as fields;
    ghost use Rattle.sshcore.specs.Chosen.{AreNamed};
    ghost use Rattle.sshcore.specs.ChosenView.{algorithms_of};

    ghost Value = { fields.AlgorithmsData };

    ghost view = { algorithms_of };

    ghost invariant = { λ a. AreNamed (algorithms_of a) };
}

impl Algorithms {
    /// The algorithms of these names.
    pub(crate) fn of(
        kex: String,
        host_key: String,
        encryption: Directions,
        mac: Directions,
        compression: Directions,
    ) -> Algorithms
        requires kex { IsName (string_bytes kex) }
        requires host_key { IsName (string_bytes host_key) }
        requires encryption { AreNames (string_bytes encryption.client_to_server ∷ string_bytes encryption.server_to_client ∷ []) }
        requires mac { AreNames (string_bytes mac.client_to_server ∷ string_bytes mac.server_to_client ∷ []) }
        requires compression { AreNames (string_bytes compression.client_to_server ∷ string_bytes compression.server_to_client ∷ []) }
        ensures { result ≡ record {
          kex = string_bytes kex;
          host_key = string_bytes host_key;
          encryption_client_to_server = string_bytes encryption.client_to_server;
          encryption_server_to_client = string_bytes encryption.server_to_client;
          mac_client_to_server = string_bytes mac.client_to_server;
          mac_server_to_client = string_bytes mac.server_to_client;
          compression_client_to_server = string_bytes compression.client_to_server;
          compression_server_to_client = string_bytes compression.server_to_client;
        } }
    {
        Algorithms {
            kex,
            host_key,
            encryption,
            mac,
            compression,
        }
    }

    /// The names at these positions of the client's lists.
    pub(crate) fn at(
        alloc: Global,
        client: &KexInit<'_>,
        chosen: &Chosen,
    ) -> Result<Algorithms, Memory>
        requires { ArePlaced (kexinit_data client.now) chosen.now }
        ensures { (a : fields.AlgorithmsData) → AreAt (kexinit_data client.now) chosen.now a → IfOk result (λ names. names ≡ a) }
    {
        let kex = name_at(alloc, &client.kex_algorithms, chosen.kex)?;
        let host_key = name_at(alloc, &client.server_host_key_algorithms, chosen.host_key)?;
        let encryption = ciphers_at(alloc, client, chosen)?;
        let mac = macs_at(alloc, client, chosen)?;
        let compression = compressions_at(alloc, client, chosen)?;
        Ok(Algorithms {
            kex,
            host_key,
            encryption,
            mac,
            compression,
        })
    }

    /// The same names once more.
    pub(crate) fn copy(&self, alloc: Global) -> Result<Algorithms, Memory>
        ensures { IfOk result (λ names. names ≡ self.now) }
    {
        let kex = String::from_str(alloc, &self.kex)?;
        let host_key = String::from_str(alloc, &self.host_key)?;
        let encryption = self.encryption.copy(alloc)?;
        let mac = self.mac.copy(alloc)?;
        let compression = self.compression.copy(alloc)?;
        Ok(Algorithms {
            kex,
            host_key,
            encryption,
            mac,
            compression,
        })
    }

    /// What is agreed with these algorithms.
    pub(crate) fn agreed(
        self,
        strict: bool,
        session: Vec<u8>,
        user: String,
        service: String,
    ) -> Agreed
        ensures { agreed_data result ≡ record { algorithms = self; strict = strict; session = session.items; user = string_bytes user; service = string_bytes service } }
    {
        Agreed {
            kex: self.kex,
            host_key: self.host_key,
            encryption_client_to_server: self.encryption.client_to_server,
            encryption_server_to_client: self.encryption.server_to_client,
            mac_client_to_server: self.mac.client_to_server,
            mac_server_to_client: self.mac.server_to_client,
            compression_client_to_server: self.compression.client_to_server,
            compression_server_to_client: self.compression.server_to_client,
            strict,
            session,
            user,
            service,
        }
    }

    /// The names, lent.
    pub(crate) fn names(&self) -> ChosenNames<'_>
        ensures same { names_of result ≡ self.now }
        ensures named { HasNames self.now }
    {
        ChosenNames {
            kex: &self.kex,
            host_key: &self.host_key,
            encryption_client_to_server: &self.encryption.client_to_server,
            encryption_server_to_client: &self.encryption.server_to_client,
            mac_client_to_server: &self.mac.client_to_server,
            mac_server_to_client: &self.mac.server_to_client,
            compression_client_to_server: &self.compression.client_to_server,
            compression_server_to_client: &self.compression.server_to_client,
        }
    }

    /// The key exchange method.
    pub(crate) fn kex(&self) -> &str
        ensures kex { result.now ≡ self.now.kex }
        ensures name { IsName self.now.kex }
    {
        &self.kex
    }

    /// The algorithm of the server's host key.
    pub(crate) fn host_key(&self) -> &str
        ensures host_key { result.now ≡ self.now.host_key }
        ensures name { IsName self.now.host_key }
    {
        &self.host_key
    }

    /// The cipher of what this role sends.
    pub(crate) fn cipher(&self, sender: Side) -> &str
        ensures cipher { result.now ≡ cipher_of self.now sender }
        ensures name { IsName (cipher_of self.now sender) }
    {
        match sender {
            Side::Client => &self.encryption.client_to_server,
            Side::Server => &self.encryption.server_to_client,
        }
    }

    /// The MAC of what this role sends.
    pub(crate) fn mac(&self, sender: Side) -> &str
        ensures mac { result.now ≡ mac_of self.now sender }
        ensures name { IsName (mac_of self.now sender) }
    {
        match sender {
            Side::Client => &self.mac.client_to_server,
            Side::Server => &self.mac.server_to_client,
        }
    }
}

fn ciphers_at(alloc: Global, client: &KexInit<'_>, chosen: &Chosen) -> Result<Directions, Memory>
    requires { ArePlaced (kexinit_data client.now) chosen.now }
    ensures to_server { IfOk result (λ d. slice_get client.now.encryption_client_to_server chosen.now.encryption_client_to_server ≡ Some (string_bytes d.client_to_server)) }
    ensures to_client { IfOk result (λ d. slice_get client.now.encryption_server_to_client chosen.now.encryption_server_to_client ≡ Some (string_bytes d.server_to_client)) }
    ensures names { IfOk result (λ d. IsName (string_bytes d.client_to_server) × IsName (string_bytes d.server_to_client)) }
{
    Ok(Directions {
        client_to_server: name_at(
            alloc,
            &client.encryption_client_to_server,
            chosen.encryption_client_to_server,
        )?,
        server_to_client: name_at(
            alloc,
            &client.encryption_server_to_client,
            chosen.encryption_server_to_client,
        )?,
    })
}

fn macs_at(alloc: Global, client: &KexInit<'_>, chosen: &Chosen) -> Result<Directions, Memory>
    requires { ArePlaced (kexinit_data client.now) chosen.now }
    ensures to_server { IfOk result (λ d. slice_get client.now.mac_client_to_server chosen.now.mac_client_to_server ≡ Some (string_bytes d.client_to_server)) }
    ensures to_client { IfOk result (λ d. slice_get client.now.mac_server_to_client chosen.now.mac_server_to_client ≡ Some (string_bytes d.server_to_client)) }
    ensures names { IfOk result (λ d. IsName (string_bytes d.client_to_server) × IsName (string_bytes d.server_to_client)) }
{
    Ok(Directions {
        client_to_server: name_at(
            alloc,
            &client.mac_client_to_server,
            chosen.mac_client_to_server,
        )?,
        server_to_client: name_at(
            alloc,
            &client.mac_server_to_client,
            chosen.mac_server_to_client,
        )?,
    })
}

fn compressions_at(
    alloc: Global,
    client: &KexInit<'_>,
    chosen: &Chosen,
) -> Result<Directions, Memory>
    requires { ArePlaced (kexinit_data client.now) chosen.now }
    ensures to_server { IfOk result (λ d. slice_get client.now.compression_client_to_server chosen.now.compression_client_to_server ≡ Some (string_bytes d.client_to_server)) }
    ensures to_client { IfOk result (λ d. slice_get client.now.compression_server_to_client chosen.now.compression_server_to_client ≡ Some (string_bytes d.server_to_client)) }
    ensures names { IfOk result (λ d. IsName (string_bytes d.client_to_server) × IsName (string_bytes d.server_to_client)) }
{
    Ok(Directions {
        client_to_server: name_at(
            alloc,
            &client.compression_client_to_server,
            chosen.compression_client_to_server,
        )?,
        server_to_client: name_at(
            alloc,
            &client.compression_server_to_client,
            chosen.compression_server_to_client,
        )?,
    })
}

/// A copy of the name at a position of a list.
fn name_at(alloc: Global, list: &NameList, position: usize) -> Result<String, Memory>
    requires { position < length list.now }
    ensures stands { IfOk result (λ name. slice_get list.now position ≡ Some (string_bytes name)) }
    ensures name { IfOk result (λ name. IsName (string_bytes name)) }
{
    Ok(String::from_str(alloc, list.name_at(position).unwrap())?)
}
