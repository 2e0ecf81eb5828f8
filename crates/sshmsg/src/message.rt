//! The messages as values.

ghost use Rattle.std.specs.Prelude.{◌≡◌, false, true};

use sshwire::{Mpint, NameList};
use std::marker::Model;

/// The lists of a KEXINIT (RFC 4253 section 7.1). Its reserved word isn't part of it.
#[derive(Debug, Drop)]
pub struct KexInit<'a> {
    /// 16 random bytes.
    pub cookie: &'a [u8; 16],
    /// Key exchange methods, markers included.
    pub kex_algorithms: NameList,
    /// Algorithms of the server's host key.
    pub server_host_key_algorithms: NameList,
    /// Ciphers from client to server.
    pub encryption_client_to_server: NameList,
    /// Ciphers from server to client.
    pub encryption_server_to_client: NameList,
    /// MACs from client to server.
    pub mac_client_to_server: NameList,
    /// MACs from server to client.
    pub mac_server_to_client: NameList,
    /// Compression from client to server.
    pub compression_client_to_server: NameList,
    /// Compression from server to client.
    pub compression_server_to_client: NameList,
    /// Language tags from client to server.
    pub languages_client_to_server: NameList,
    /// Language tags from server to client.
    pub languages_server_to_client: NameList,
    /// Whether a guessed key exchange packet follows.
    pub first_kex_packet_follows: bool,
}

/// One extension of an EXT_INFO (RFC 8308 section 2.3).
#[derive(Debug, Drop)]
pub struct Extension<'a> {
    /// Its name, any bytes.
    pub name: &'a [u8],
    /// Its value, any bytes.
    pub value: &'a [u8],
}

/// A method that is none of `none`, `password` and `publickey`, with its fields unread.
///
/// Contracts see the name and the fields. `Debug` prints the name alone.
#[derive(Drop)]
#[derive_where(Debug)]
pub struct OtherMethod<'a> {
    name: &'a [u8],
    #[derive_where(skip)]
    fields: &'a [u8],
}

impl<'a> Model for OtherMethod<'a> {
    ghost use Rattle.std.specs.Prelude.{◌≡◌, List, false, ℕ};
    ghost use Rattle.sshmsg.specs.MessageData.{is_named};

    ghost Value = { List ℕ × List ℕ };

    ghost view = { λ m. (m.name.now, m.fields.now) };

    ghost invariant = { λ m. is_named m.name.now ≡ false };
}

impl<'a> OtherMethod<'a> {
    ghost use Rattle.sshmsg.specs.MessageData.{is_named};

    /// Whether a name is one of `none`, `password` and `publickey`. Takes no memory.
    pub fn is_known(name: &[u8]) -> bool
        ensures exact { result ≡ is_named name.now }
    {
        name == b"none".as_slice()
            || name == b"password".as_slice()
            || name == b"publickey".as_slice()
    }

    /// The method of this name. The caller's condition is that the name isn't one of the three, which
    /// [`is_known`](OtherMethod::is_known) tells. Takes no memory.
    pub fn new(name: &'a [u8], fields: &'a [u8]) -> OtherMethod<'a>
        requires { is_named name.now ≡ false }
        ensures { result ≡ (name.now, fields.now) }
    {
        OtherMethod { name, fields }
    }

    /// The method's name. Takes no memory.
    pub fn name(&self) -> &'a [u8]
        ensures name { result.now ≡ self.now.0 }
        ensures other { is_named self.now.0 ≡ false }
    {
        self.name
    }

    /// All bytes after the name. Takes no memory.
    pub fn fields(&self) -> &'a [u8]
        ensures fields { result.now ≡ self.now.1 }
        ensures other { is_named self.now.0 ≡ false }
    {
        self.fields
    }
}

/// The method of a USERAUTH_REQUEST with its fields (RFC 4252 sections 5 to 8). `Debug` prints no
/// password and no signature.
#[derive(Drop)]
#[derive_where(Debug)]
pub enum Method<'a> {
    /// `none`.
    None,
    /// `password` with FALSE.
    Password {
        /// Any bytes.
        #[derive_where(skip)]
        password: &'a [u8],
    },
    /// `password` with TRUE: a change.
    PasswordChange {
        /// The password until now, any bytes.
        #[derive_where(skip)]
        old: &'a [u8],
        /// The password from now on, any bytes.
        #[derive_where(skip)]
        new: &'a [u8],
    },
    /// `publickey` with TRUE.
    PublicKey {
        /// The name of the key's algorithm, any bytes.
        algorithm: &'a [u8],
        /// The public key, any bytes.
        key: &'a [u8],
        /// The signature by the key, any bytes.
        #[derive_where(skip)]
        signature: &'a [u8],
    },
    /// `publickey` with FALSE: a query.
    PublicKeyQuery {
        /// The name of the key's algorithm, any bytes.
        algorithm: &'a [u8],
        /// The public key, any bytes.
        key: &'a [u8],
    },
    /// Any other.
    Other(OtherMethod<'a>),
}

impl<'a> Method<'a> {
    ghost use Rattle.std.specs.Prelude.{length};
    ghost use Rattle.sshmsg.specs.MessageData.{method_name};
    ghost use Rattle.sshmsg.specs.View.{method_data};

    /// The name of the method. Takes no memory.
    pub fn name(&self) -> &'a [u8]
        ensures { result.now ≡ method_name (method_data self.now) }
    {
        match self {
            Method::None => b"none",
            Method::Password { .. } | Method::PasswordChange { .. } => b"password",
            Method::PublicKey { .. } | Method::PublicKeyQuery { .. } => b"publickey",
            Method::Other(other) => other.name(),
        }
    }
}

/// A message up to authentication (RFC 4253, RFC 4252, message 7 of RFC 8308).
///
/// Its strings, mpints, cookie and user lie in the payload, which is lent as long as the message is
/// kept; its name-lists, and the list of an EXT_INFO's pairs, are its own. `Debug` prints no password
/// and no signature, and of an IGNORE no content.
#[derive(Drop)]
#[derive_where(Debug)]
pub enum Message<'a> {
    /// DISCONNECT (1, RFC 4253 section 11.1).
    Disconnect {
        /// The reason's code.
        reason: u32,
        /// A text for people, any bytes.
        description: &'a [u8],
        /// The text's language tag, any bytes.
        language: &'a [u8],
    },
    /// IGNORE (2, RFC 4253 section 11.2).
    Ignore {
        /// Any bytes.
        #[derive_where(skip)]
        content: &'a [u8],
    },
    /// UNIMPLEMENTED (3, RFC 4253 section 11.4).
    Unimplemented {
        /// The number of the packet that wasn't understood.
        sequence_number: u32,
    },
    /// DEBUG (4, RFC 4253 section 11.3).
    Debug {
        /// Whether the text should be shown in any case.
        always_display: bool,
        /// A text for people, any bytes.
        text: &'a [u8],
        /// The text's language tag, any bytes.
        language: &'a [u8],
    },
    /// SERVICE_REQUEST (5, RFC 4253 section 10).
    ServiceRequest {
        /// The service's name, any bytes.
        service: &'a [u8],
    },
    /// SERVICE_ACCEPT (6, RFC 4253 section 10).
    ServiceAccept {
        /// The service's name, any bytes.
        service: &'a [u8],
    },
    /// EXT_INFO (7, RFC 8308 section 2.3).
    ExtInfo {
        /// The extensions in their order.
        extensions: Vec<Extension<'a>>,
    },
    /// KEXINIT (20, RFC 4253 section 7.1), in a box, so that other messages are small.
    KexInit(Box<KexInit<'a>>),
    /// NEWKEYS (21, RFC 4253 section 7.3).
    NewKeys,
    /// KEXDH_INIT (30, RFC 4253 section 8), where shares are mpints.
    KexdhInit {
        /// The client's share.
        e: Mpint<'a>,
    },
    /// KEXDH_REPLY (31, RFC 4253 section 8), where shares are mpints.
    KexdhReply {
        /// The server's host key, any bytes.
        host_key: &'a [u8],
        /// The server's share.
        f: Mpint<'a>,
        /// The signature of the exchange hash, any bytes.
        #[derive_where(skip)]
        signature: &'a [u8],
    },
    /// KEX_ECDH_INIT (30, RFC 5656 section 4), where shares are octet strings.
    KexEcdhInit {
        /// The client's share, any bytes.
        client_share: &'a [u8],
    },
    /// KEX_ECDH_REPLY (31, RFC 5656 section 4), where shares are octet strings.
    KexEcdhReply {
        /// The server's host key, any bytes.
        host_key: &'a [u8],
        /// The server's share, any bytes.
        server_share: &'a [u8],
        /// The signature of the exchange hash, any bytes.
        #[derive_where(skip)]
        signature: &'a [u8],
    },
    /// USERAUTH_REQUEST (50, RFC 4252 section 5).
    UserauthRequest {
        /// The user's name.
        user: &'a str,
        /// The name of the service that is to start, any bytes.
        service: &'a [u8],
        /// The method with its fields.
        method: Method<'a>,
    },
    /// USERAUTH_FAILURE (51, RFC 4252 section 5.1).
    UserauthFailure {
        /// The methods that may go on.
        methods: NameList,
        /// Whether the request succeeded as one of several.
        partial_success: bool,
    },
    /// USERAUTH_SUCCESS (52, RFC 4252 section 5.1).
    UserauthSuccess,
    /// USERAUTH_BANNER (53, RFC 4252 section 5.4).
    UserauthBanner {
        /// A text for people, any bytes.
        text: &'a [u8],
        /// The text's language tag, any bytes.
        language: &'a [u8],
    },
    /// USERAUTH_PK_OK (60, RFC 4252 section 7).
    UserauthPkOk {
        /// The name of the key's algorithm, any bytes.
        algorithm: &'a [u8],
        /// The public key, any bytes.
        key: &'a [u8],
    },
}
