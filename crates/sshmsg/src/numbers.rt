//! The numbers of the messages, by their names in RFC 4250 section 4.1.2, and the law that has them by their digits.

ghost use Rattle.std.specs.Prelude.{◌≡◌};
ghost use Rattle.sshmsg.specs.declared.numbers.TheConstants.{SSH_DISCONNECT_HOST_KEY_NOT_VERIFIABLE, SSH_DISCONNECT_KEY_EXCHANGE_FAILED, SSH_DISCONNECT_MAC_ERROR, SSH_DISCONNECT_NO_MORE_AUTH_METHODS_AVAILABLE, SSH_DISCONNECT_PROTOCOL_ERROR, SSH_DISCONNECT_SERVICE_NOT_AVAILABLE, SSH_MSG_DEBUG, SSH_MSG_DISCONNECT, SSH_MSG_EXT_INFO, SSH_MSG_IGNORE, SSH_MSG_KEXDH_INIT, SSH_MSG_KEXDH_REPLY, SSH_MSG_KEXINIT, SSH_MSG_KEX_ECDH_INIT, SSH_MSG_KEX_ECDH_REPLY, SSH_MSG_NEWKEYS, SSH_MSG_SERVICE_ACCEPT, SSH_MSG_SERVICE_REQUEST, SSH_MSG_UNIMPLEMENTED, SSH_MSG_USERAUTH_BANNER, SSH_MSG_USERAUTH_FAILURE, SSH_MSG_USERAUTH_PK_OK, SSH_MSG_USERAUTH_REQUEST, SSH_MSG_USERAUTH_SUCCESS};

/// DISCONNECT (RFC 4253 section 11.1).
pub const SSH_MSG_DISCONNECT: u8 = 1;
/// IGNORE (RFC 4253 section 11.2).
pub const SSH_MSG_IGNORE: u8 = 2;
/// UNIMPLEMENTED (RFC 4253 section 11.4).
pub const SSH_MSG_UNIMPLEMENTED: u8 = 3;
/// DEBUG (RFC 4253 section 11.3).
pub const SSH_MSG_DEBUG: u8 = 4;
/// SERVICE_REQUEST (RFC 4253 section 10).
pub const SSH_MSG_SERVICE_REQUEST: u8 = 5;
/// SERVICE_ACCEPT (RFC 4253 section 10).
pub const SSH_MSG_SERVICE_ACCEPT: u8 = 6;
/// EXT_INFO (RFC 8308 section 2.3).
pub const SSH_MSG_EXT_INFO: u8 = 7;
/// KEXINIT (RFC 4253 section 7.1).
pub const SSH_MSG_KEXINIT: u8 = 20;
/// NEWKEYS (RFC 4253 section 7.3).
pub const SSH_MSG_NEWKEYS: u8 = 21;
/// KEXDH_INIT (RFC 4253 section 8).
pub const SSH_MSG_KEXDH_INIT: u8 = 30;
/// KEXDH_REPLY (RFC 4253 section 8).
pub const SSH_MSG_KEXDH_REPLY: u8 = 31;
/// KEX_ECDH_INIT (RFC 5656 section 4): the number of KEXDH_INIT, where shares are octet strings.
pub const SSH_MSG_KEX_ECDH_INIT: u8 = 30;
/// KEX_ECDH_REPLY (RFC 5656 section 4): the number of KEXDH_REPLY, where shares are octet strings.
pub const SSH_MSG_KEX_ECDH_REPLY: u8 = 31;
/// USERAUTH_REQUEST (RFC 4252 section 5).
pub const SSH_MSG_USERAUTH_REQUEST: u8 = 50;
/// USERAUTH_FAILURE (RFC 4252 section 5.1).
pub const SSH_MSG_USERAUTH_FAILURE: u8 = 51;
/// USERAUTH_SUCCESS (RFC 4252 section 5.1).
pub const SSH_MSG_USERAUTH_SUCCESS: u8 = 52;
/// USERAUTH_BANNER (RFC 4252 section 5.4).
pub const SSH_MSG_USERAUTH_BANNER: u8 = 53;
/// USERAUTH_PK_OK (RFC 4252 section 7).
pub const SSH_MSG_USERAUTH_PK_OK: u8 = 60;

/// Reasons of a DISCONNECT (RFC 4253 section 11.1): the peer broke the protocol.
pub const SSH_DISCONNECT_PROTOCOL_ERROR: u32 = 2;

/// The key exchange failed.
pub const SSH_DISCONNECT_KEY_EXCHANGE_FAILED: u32 = 3;

/// A tag wasn't that of its packet.
pub const SSH_DISCONNECT_MAC_ERROR: u32 = 5;

/// A service isn't available.
pub const SSH_DISCONNECT_SERVICE_NOT_AVAILABLE: u32 = 7;

/// The host key isn't trusted.
pub const SSH_DISCONNECT_HOST_KEY_NOT_VERIFIABLE: u32 = 9;

/// No method of authentication is left.
pub const SSH_DISCONNECT_NO_MORE_AUTH_METHODS_AVAILABLE: u32 = 14;

/// The law of limits, which are the numbers of messages and of reasons: code and definitions cite
/// each by its name, and here it is a number. Those of messages are of RFC 4250 section 4.1.2, but for
/// EXT_INFO (RFC 8308 section 2.3), 30 and 31, which are the key exchange method's own (RFC 4253
/// section 8, RFC 5656 section 7.1), and PK_OK (RFC 4252 section 7). Reasons of a DISCONNECT are of
/// RFC 4250 section 4.2.2 (RFC 4253 section 11.1). Takes no memory.
pub fn limits_law()
    ensures disconnect { SSH_MSG_DISCONNECT ≡ 1 }
    ensures ignore { SSH_MSG_IGNORE ≡ 2 }
    ensures unimplemented { SSH_MSG_UNIMPLEMENTED ≡ 3 }
    ensures debug { SSH_MSG_DEBUG ≡ 4 }
    ensures service_request { SSH_MSG_SERVICE_REQUEST ≡ 5 }
    ensures service_accept { SSH_MSG_SERVICE_ACCEPT ≡ 6 }
    ensures ext_info { SSH_MSG_EXT_INFO ≡ 7 }
    ensures kexinit { SSH_MSG_KEXINIT ≡ 20 }
    ensures newkeys { SSH_MSG_NEWKEYS ≡ 21 }
    ensures kexdh_init { SSH_MSG_KEXDH_INIT ≡ 30 }
    ensures kexdh_reply { SSH_MSG_KEXDH_REPLY ≡ 31 }
    ensures kex_ecdh_init { SSH_MSG_KEX_ECDH_INIT ≡ 30 }
    ensures kex_ecdh_reply { SSH_MSG_KEX_ECDH_REPLY ≡ 31 }
    ensures userauth_request { SSH_MSG_USERAUTH_REQUEST ≡ 50 }
    ensures userauth_failure { SSH_MSG_USERAUTH_FAILURE ≡ 51 }
    ensures userauth_success { SSH_MSG_USERAUTH_SUCCESS ≡ 52 }
    ensures userauth_banner { SSH_MSG_USERAUTH_BANNER ≡ 53 }
    ensures userauth_pk_ok { SSH_MSG_USERAUTH_PK_OK ≡ 60 }

    // Reasons of a DISCONNECT.
    ensures protocol_error { SSH_DISCONNECT_PROTOCOL_ERROR ≡ 2 }
    ensures key_exchange_failed { SSH_DISCONNECT_KEY_EXCHANGE_FAILED ≡ 3 }
    ensures mac_error { SSH_DISCONNECT_MAC_ERROR ≡ 5 }
    ensures service_not_available { SSH_DISCONNECT_SERVICE_NOT_AVAILABLE ≡ 7 }
    ensures host_key_not_verifiable { SSH_DISCONNECT_HOST_KEY_NOT_VERIFIABLE ≡ 9 }
    ensures no_more_auth_methods_available { SSH_DISCONNECT_NO_MORE_AUTH_METHODS_AVAILABLE ≡ 14 }
{}
