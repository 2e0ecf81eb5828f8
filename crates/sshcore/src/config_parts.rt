//! What configs are made of.
//!
//! None of these types has a `Debug`: passwords and private keys are never printed.

ghost use Rattle.std.specs.Prelude.{◌≡◌};

/// The most bytes of the text of a list, markers left out (profile).
pub const LIST_LIMIT: usize = 1000;

/// The most notice lines of a server (profile).
pub const NOTICE_LIMIT: usize = 20;

/// The most bytes of a notice line, its CR LF left out (profile; RFC 4253 section 4.2 gives none).
pub const NOTICE_LINE_LIMIT: usize = 253;

/// The most bytes of a user's name (profile).
pub const USER_LIMIT: usize = 255;

/// The most bytes of a password (profile).
pub const PASSWORD_LIMIT: usize = 1024;

/// The most bytes of a private key (profile).
pub const PRIVATE_KEY_LIMIT: usize = 8192;

/// The most bytes of a banner (profile).
pub const BANNER_LIMIT: usize = 8192;

/// The most attempts of a plan (profile).
pub const PLAN_LIMIT: usize = 64;

/// The most tries that a server grants (profile; RFC 4252 section 4 recommends 20).
pub const TRIES_LIMIT: u32 = 20;

/// How many bytes more than its payload a packet that says nothing counts (profile), as many as a packet
/// has beside its payload at most (RFC 4253 section 6): 4 of its length, 1 of the padding's, 255 of
/// padding, and a tag of 16.
pub const IGNORED_OVERHEAD: u32 = 276;

/// How a client proves who its user is.
#[derive(Drop)]
pub enum Credential {
    /// Not at all: the method `none` (RFC 4252 section 5.2).
    None,
    /// By a password of at most 1024 bytes, any bytes (RFC 4252 section 8).
    Password(Vec<u8>),
    /// By a signature (RFC 4252 section 7).
    PublicKey {
        /// The name of the key's algorithm.
        algorithm: String,
        /// The private key as the suite has it, at most 8192 bytes; or, of a key that the suite doesn't hold, its public
        /// key, which is sent to the peer ([`Suite::holds`](sshpacket::Suite::holds)).
        private_key: Vec<u8>,
        /// Whether a query comes first: the client then signs by this key only where the server answers
        /// that it would do (RFC 4252 section 7).
        ask: bool,
    },
}

impl Credential {
    ghost use Rattle.sshcore.specs.ConfigView.{credential_data};
    ghost use Rattle.sshcore.specs.Plan.{asks, proving_name};

    /// The name of the method of the request. Takes no memory.
    pub fn method(&self) -> &'static str
        ensures { result.now ≡ proving_name (credential_data self.now) }
    {
        match self {
            Credential::None => "none",
            Credential::Password(_) => "password",
            Credential::PublicKey { .. } => "publickey",
        }
    }

    /// Whether the server is asked first if the key would do. Takes no memory.
    pub fn asks(&self) -> bool
        ensures { result ≡ asks (credential_data self.now) }
    {
        match self {
            Credential::PublicKey { ask, .. } => *ask,
            _ => false,
        }
    }
}

/// One attempt of a client's plan (RFC 4252 section 5).
#[derive(Drop)]
pub struct Attempt {
    /// The user's name, at most 255 bytes.
    pub user: String,
    /// The name of the service that is to start after authentication.
    pub service: String,
    /// How the client proves who the user is.
    pub credential: Credential,
}

/// One host key of a server.
#[derive(Drop)]
pub struct HostKey {
    /// The name of its algorithm.
    pub algorithm: String,
    /// The private key as the suite has it, at most 8192 bytes; or, of a key that the suite doesn't hold, its public key,
    /// which is sent to the peer ([`Suite::holds`](sshpacket::Suite::holds)).
    pub private_key: Vec<u8>,
}

/// By which grammar an endpoint reads its peer's version line. What it sends itself is the same with
/// either, and either side hashes a line as it came, without the CR LF or LF that ends it.
#[derive(Clone, Copy, Debug, PartialEq, Eq)]
pub enum PeerReading {
    /// By the letter of RFC 4253 section 4.2, and 2.0 alone as the protocol's version (profile).
    Strict,
    /// As deployed peers write it: all that `Strict` takes, and a line with minus signs in its
    /// softwareversion, or one that LF alone ends; and a client takes `SSH-1.99-` as 2.0, as RFC 4253
    /// section 5.1 has it.
    Deployed,
}

/// What the parts of both sides have.
#[derive(Drop)]
pub struct SideParts {
    /// The softwareversion of the version line (RFC 4253 section 4.2).
    pub softwareversion: String,
    /// The comments of the version line, if there are some.
    pub comments: Option<String>,
    /// By which grammar the peer's version line is read.
    pub reading: PeerReading,
    /// Key exchange methods, without markers; at least one. Like each list its text, which is the names
    /// with single commas between, has at most 1000 bytes.
    pub kex_algorithms: Vec<String>,
    /// Ciphers from client to server, at least one.
    pub encryption_client_to_server: Vec<String>,
    /// Ciphers from server to client, at least one.
    pub encryption_server_to_client: Vec<String>,
    /// MACs from client to server, at least one.
    pub mac_client_to_server: Vec<String>,
    /// MACs from server to client, at least one.
    pub mac_server_to_client: Vec<String>,
    /// Whether the side is willing to be strict (OpenSSH PROTOCOL section 1.10): its marker then stands
    /// last in the kex list that it sends.
    pub strict: bool,
    /// The cookie of the KEXINIT: 16 random bytes. This and the next two are the parts' own draws, which
    /// serve one connection: with a second one from the same draws the bytes that a client sent in the
    /// first are accepted again. [`Draws`](crate::Draws) gives each connection its own.
    pub cookie: Vec<u8>,
    /// The secret of which the suite makes this side's share: 32 random bytes, for one connection.
    pub exchange_random: Vec<u8>,
    /// The secret of which the suite makes padding: 32 random bytes, for one connection.
    pub padding_seed: Vec<u8>,
    /// How many bytes of packets that say nothing are taken after NEWKEYS: what goes beyond ends the
    /// session as F17. IGNORE, DEBUG, UNIMPLEMENTED and EXT_INFO say nothing, and numbers without a
    /// meaning. Each counts its payload and [`IGNORED_OVERHEAD`] bytes more, so that the limit bounds
    /// the bytes on the wire where a packet's tag has at most 16 bytes. `None`: there is no limit.
    pub ignored_limit: Option<u32>,
}

/// What a client's config is made of.
#[derive(Drop)]
pub struct ClientParts {
    /// What both sides have.
    pub side: SideParts,
    /// Algorithms of the server's host key, at least one.
    pub server_host_key_algorithms: Vec<String>,
    /// Whether the client announces a guess and sends its share at once (RFC 4253 section 7).
    pub guess: bool,
    /// The attempts to authenticate, in order, at most 64.
    pub plan: Vec<Attempt>,
}

/// What a server's config is made of.
#[derive(Drop)]
pub struct ServerParts {
    /// What both sides have.
    pub side: SideParts,
    /// The host keys, at least one. Their algorithms in order are the list that the server offers; of
    /// two with one algorithm the first is used.
    pub host_keys: Vec<HostKey>,
    /// The names of the services that may start after authentication; there may be none.
    pub services: Vec<String>,
    /// The methods that a FAILURE lists, each `password` or `publickey`; there may be none.
    pub methods: Vec<String>,
    /// The methods that all have to succeed before a user is accepted, each one of `methods` and none
    /// twice; there may be none (RFC 4252 section 5.1). They have to succeed in an unbroken run of requests
    /// for one user and one service (profile).
    pub required: Vec<String>,
    /// The algorithms of users' keys that are told to a client that asks for extensions, in the first packet after
    /// NEWKEYS (RFC 8308 sections 2.4 and 3.1); where there are none, as where the client doesn't ask, nothing is told.
    /// They refuse no request. Their text, as that of each list, has at most 1000 bytes.
    pub signature_algorithms: Vec<String>,
    /// The number of the request at which a failure ends the session, 1 to 20.
    pub tries: u32,
    /// The text of the BANNER that follows the accepted service (RFC 4252 section 5.4), at most 8192
    /// bytes, if one is to be sent.
    pub banner: Option<Vec<u8>>,
    /// Lines that are sent before the version line (RFC 4253 section 4.2), without their CR LF: at most
    /// 20, each of at most 253 bytes from 32 to 126, and none that begins with `SSH-`.
    pub notice_lines: Vec<Vec<u8>>,
}
