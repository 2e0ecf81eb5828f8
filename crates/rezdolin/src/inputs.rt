//! What a program puts in: the parts of a config, and whom the endpoint trusts.
//!
//! Everything is lent for one call. A list of names is its text, names with single commas between (RFC 4251 section 5);
//! no bytes are the empty list.

/// How many bytes of packets that say nothing a side takes after NEWKEYS (`ignored_limit` of
/// [`SideParts`](sshcore::SideParts)): 1 MiB.
pub const IGNORED_LIMIT: u32 = 1048576;

/// What both sides have. The fields are those of [`SideParts`](sshcore::SideParts), with their limits; its `ignored_limit`
/// is [`IGNORED_LIMIT`].
#[repr(C)]
#[derive(Clone, Copy)]
pub struct SideInput<'a> {
    /// The softwareversion of the version line, as UTF-8 (RFC 4253 section 4.2).
    pub softwareversion: &'a [u8],
    /// The comments of the version line, as UTF-8; no bytes where there are none.
    pub comments: &'a [u8],
    /// Key exchange methods, a list of names.
    pub kex_algorithms: &'a [u8],
    /// Ciphers from client to server, a list of names.
    pub encryption_client_to_server: &'a [u8],
    /// Ciphers from server to client, a list of names.
    pub encryption_server_to_client: &'a [u8],
    /// MACs from client to server, a list of names.
    pub mac_client_to_server: &'a [u8],
    /// MACs from server to client, a list of names.
    pub mac_server_to_client: &'a [u8],
    /// The cookie of the KEXINIT: 16 random bytes of this connection.
    pub cookie: &'a [u8],
    /// The secret of which the own share is made: 32 random bytes of this connection.
    pub exchange_random: &'a [u8],
    /// The secret of which padding is made: 32 random bytes of this connection.
    pub padding_seed: &'a [u8],
    /// Whether the side is willing to be strict (OpenSSH PROTOCOL section 1.10): [`STRICT_YES`] or [`STRICT_NO`].
    pub strict: u32,
    /// By which grammar the peer's version line is read ([`PeerReading`](sshcore::PeerReading)): [`READING_DEPLOYED`] or
    /// [`READING_STRICT`].
    pub reading: u32,
}

/// The side is willing to be strict.
pub const STRICT_YES: u32 = 1;

/// The side isn't willing to be strict. It isn't 0, so that a field which was forgotten doesn't say it.
pub const STRICT_NO: u32 = 2;

/// The peer's version line is read as deployed peers write it. It is 0, so that it is the default: it accepts nobody.
pub const READING_DEPLOYED: u32 = 0;

/// The peer's version line is read by the letter of RFC 4253 section 4.2.
pub const READING_STRICT: u32 = 1;

/// The answer yes. It isn't 0, so that a number which was forgotten doesn't say it.
pub const ANSWER_YES: u32 = 1;

/// The answer no.
pub const ANSWER_NO: u32 = 2;

/// The answer to a question for a signature: the signature.
pub const ANSWER_SIGNATURE: u32 = 3;

/// The answer to a question for a signature: that there is none.
pub const ANSWER_NO_SIGNATURE: u32 = 4;

/// One attempt of a client's plan (RFC 4252 section 5).
#[repr(C)]
#[derive(Clone, Copy)]
pub struct AttemptInput<'a> {
    /// The user's name, as UTF-8.
    pub user: &'a [u8],
    /// The name of the service that is to start after authentication.
    pub service: &'a [u8],
    /// The name of the private key's algorithm, of a public key alone.
    pub algorithm: &'a [u8],
    /// The password; the private key as the library has it; or of [`METHOD_SIGNED`] the public key.
    pub secret: &'a [u8],
    /// How the user is proved: [`METHOD_NONE`], [`METHOD_PASSWORD`], [`METHOD_PUBLICKEY`] or [`METHOD_SIGNED`].
    pub method: u32,
    /// Of a public key: whether the server is asked first if it would do, 1 for yes and 0 for no.
    pub ask: u32,
}

/// The method `none` (RFC 4252 section 5.2): the letters of the word. It isn't 0, so that a field which was forgotten accepts
/// nobody.
pub const METHOD_NONE: u32 = 0x6e6f_6e65;

/// The method `password` (RFC 4252 section 8).
pub const METHOD_PASSWORD: u32 = 1;

/// The method `publickey` (RFC 4252 section 7).
pub const METHOD_PUBLICKEY: u32 = 2;

/// The method `publickey`, with a key that the program has elsewhere: a client that asks is to be given the signature.
pub const METHOD_SIGNED: u32 = 3;

/// A client: its config, and the host keys that it trusts, or whether it asks.
#[repr(C)]
#[derive(Clone, Copy)]
pub struct ClientInput<'a> {
    /// What both sides have.
    pub side: SideInput<'a>,
    /// Algorithms of the server's host key, a list of names.
    pub server_host_key_algorithms: &'a [u8],
    /// The attempts, in order.
    pub plan: &'a [AttemptInput<'a>],
    /// The host keys that are trusted, each a public key as the server sends it.
    pub trusted_host_keys: &'a [&'a [u8]],
    /// Whether the client announces a guess (RFC 4253 section 7), 1 for yes and 0 for no.
    pub guess: u32,
    /// Whether the program is asked if the host key is trusted, and for signatures by keys that the library doesn't hold, 1 for yes
    /// and 0 for no. With 1 `trusted_host_keys` isn't read.
    pub asks: u32,
}

/// One host key of a server.
#[repr(C)]
#[derive(Clone, Copy)]
pub struct HostKeyInput<'a> {
    /// The name of its algorithm.
    pub algorithm: &'a [u8],
    /// The private key as the library has it, or of [`KEY_ELSEWHERE`] the public key.
    pub key: &'a [u8],
    /// Which of both it is: [`KEY_HERE`] or [`KEY_ELSEWHERE`].
    pub place: u32,
}

/// The library signs with the private key. It isn't 0, so that a public key which was meant isn't taken for a private one.
pub const KEY_HERE: u32 = 1;

/// The program has the private key elsewhere: a server that asks is to be given the signature.
pub const KEY_ELSEWHERE: u32 = 2;

/// What one user is accepted by, or one of several things. A request is successful where one of a server's entries has
/// its user and what it proves.
#[repr(C)]
#[derive(Clone, Copy)]
pub struct UserInput<'a> {
    /// The user's name, which isn't empty.
    pub user: &'a [u8],
    /// The password, or the public key as a request has it, which isn't empty; of [`METHOD_NONE`] no bytes.
    pub proof: &'a [u8],
    /// What it is: [`METHOD_NONE`] (the user is accepted without a proof), [`METHOD_PASSWORD`] or [`METHOD_PUBLICKEY`].
    pub method: u32,
}

/// A server: its config, and whom it accepts, or whether it asks.
#[repr(C)]
#[derive(Clone, Copy)]
pub struct ServerInput<'a> {
    /// What both sides have.
    pub side: SideInput<'a>,
    /// The host keys, in order.
    pub host_keys: &'a [HostKeyInput<'a>],
    /// The services that may start after authentication, a list of names.
    pub services: &'a [u8],
    /// The methods that a FAILURE lists, a list of names.
    pub methods: &'a [u8],
    /// The methods that all have to succeed, a list of names.
    pub required: &'a [u8],
    /// The text of the BANNER, or no bytes where none is sent.
    pub banner: &'a [u8],
    /// Lines before the version line, without their CR LF.
    pub notice_lines: &'a [&'a [u8]],
    /// Who is accepted, and by what.
    pub users: &'a [UserInput<'a>],
    /// The number of the request at which a failure ends the session, 1 to 20.
    pub tries: u32,
    /// Whether the program is asked who is accepted, and for signatures by host keys that the library doesn't hold, 1 for yes and 0
    /// for no. With 1 `users` isn't read.
    pub asks: u32,
}
