//! Why a config doesn't fit a suite.

use std::error::Error;
use std::fmt;

/// A list of algorithms that a config is judged by over a suite.
#[derive(Clone, Copy, Debug, PartialEq, Eq)]
pub enum AlgorithmList {
    /// Key exchange methods.
    Kex,
    /// Host key algorithms: a client's list, or those of a server's host keys.
    HostKey,
    /// Ciphers from client to server.
    EncryptionClientToServer,
    /// Ciphers from server to client.
    EncryptionServerToClient,
    /// MACs from client to server.
    MacClientToServer,
    /// MACs from server to client.
    MacServerToClient,
}

impl AlgorithmList {
    ghost use Rattle.std.specs.Prelude.{◌≡◌};
    ghost use Rattle.sshcore.specs.Codes.{list_text};

    /// The list's name in a KEXINIT (RFC 4253 section 7.1). Takes no memory.
    pub fn name(&self) -> &'static str
        ensures { result.now ≡ list_text self.now }
    {
        match self {
            AlgorithmList::Kex => "kex_algorithms",
            AlgorithmList::HostKey => "server_host_key_algorithms",
            AlgorithmList::EncryptionClientToServer => "encryption_algorithms_client_to_server",
            AlgorithmList::EncryptionServerToClient => "encryption_algorithms_server_to_client",
            AlgorithmList::MacClientToServer => "mac_algorithms_client_to_server",
            AlgorithmList::MacServerToClient => "mac_algorithms_server_to_client",
        }
    }
}

/// Why a config doesn't fit a suite. Its codes go on from those of [`ConfigFault`](crate::ConfigFault). Where several causes
/// hold, the first is told: by the lists in the order of a KEXINIT, each from its front, then by private keys. It prints a sentence
/// with its code: `C13: the suite has no aes128-ctr, which stands in encryption_algorithms_client_to_server`.
#[derive(Clone, Copy, Debug, PartialEq, Eq)]
pub enum SuiteFault<'a> {
    /// C13: the suite doesn't have this algorithm, or, of a host key algorithm, can't sign by it.
    Algorithm {
        /// The list in which it stands.
        list: AlgorithmList,
        /// Its name.
        name: &'a str,
    },
    /// C14: these bytes are no private key of this algorithm with which the suite signs. The key isn't told.
    PrivateKey {
        /// The position of a server's host key, or of an attempt in a client's plan, counted from 0.
        position: usize,
        /// The name of the key's algorithm.
        algorithm: &'a str,
    },
}

impl SuiteFault<'_> {
    ghost use Rattle.std.specs.Prelude.{◌≡◌};
    ghost use Rattle.sshcore.specs.Codes.{suite_code};

    /// The refusal's code, `C13` or `C14`. Takes no memory.
    pub fn code(&self) -> &'static str
        ensures { result.now ≡ suite_code self.now }
    {
        match self {
            SuiteFault::Algorithm { .. } => "C13",
            SuiteFault::PrivateKey { .. } => "C14",
        }
    }
}

impl fmt::Display for SuiteFault<'_> {
    fn fmt<W: fmt::Write>(&self, f: &mut fmt::Formatter<W>) -> fmt::Result {
        match self {
            SuiteFault::Algorithm { list, name } => write!(
                f,
                "{}: the suite has no {name}, which stands in {}",
                self.code(),
                list.name()
            ),
            SuiteFault::PrivateKey {
                position,
                algorithm,
            } => write!(
                f,
                "{}: private key {position} is none of {algorithm} by which the suite signs",
                self.code()
            ),
        }
    }
}

impl Error for SuiteFault<'_> {}
