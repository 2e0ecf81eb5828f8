//! What the words say.

use crate::agent::Agent;
use sshcore::PeerReading;

/// Which side the program is.
#[derive(Clone, Copy)]
pub(crate) enum Job {
    Client,
    Server,
    /// A client that only looks at a server.
    Probe,
}

/// What the words say, each as it stands.
#[derive(Clone, Copy)]
pub(crate) struct Settings<'a> {
    pub(crate) role: Job,
    /// The user who is to be authenticated, or who may be.
    pub(crate) user: &'a str,
    /// A client's private key, a file of OpenSSH's form, or with an agent a public key's file.
    pub(crate) identity: Option<&'a str>,
    /// A file whose first line is the password.
    pub(crate) password_file: Option<&'a str>,
    /// A client's file of host keys that are trusted, and the name by which they stand there, which a probe has too.
    pub(crate) known_hosts: Option<&'a str>,
    pub(crate) host: Option<&'a str>,
    /// A server's host key, such a file too, and the file of the keys by which the user is accepted.
    pub(crate) host_key: Option<&'a str>,
    pub(crate) authorized_keys: Option<&'a str>,
    /// A file whose bytes a server sends as BANNER.
    pub(crate) banner: Option<&'a str>,
    /// A server's methods, and those of them that are required.
    pub(crate) methods: &'a str,
    pub(crate) required: Option<&'a str>,
    /// How many requests a server grants.
    pub(crate) tries: u32,
    /// Whether the side is willing to be strict.
    pub(crate) strict: bool,
    /// By which grammar the peer's version line is read.
    pub(crate) reading: PeerReading,
    /// Whether a client sends its share with its first packet.
    pub(crate) guess: bool,
    /// Names with commas between.
    pub(crate) kex: &'a str,
    pub(crate) cipher: &'a str,
    pub(crate) mac: &'a str,
    /// What a client asks the server to execute.
    pub(crate) exec: Option<&'a str>,
    /// A file to which a probe writes what it finds.
    pub(crate) report: Option<&'a str>,
    /// Who signs by keys whose private ones this program doesn't have.
    pub(crate) agent: Option<Agent<'a>>,
}
