//! The messages of SSH up to authentication, as payloads: RFC 4253, RFC 4252 and message 7 of
//! RFC 8308.
//!
//! Alone it tells what a payload says and writes the payload of a message, without a suite and without a state: for
//! sniffers, for dissectors and for makers of test vectors. The numbers of messages are constants by their names in
//! RFC 4250 section 4.1.2, as [`SSH_MSG_KEXINIT`].
//!
//! [`read`] answers the message that a payload spells and lends its parts out of it, [`read_exchange`]
//! does so where a key exchange has octet strings as shares, and [`write`] appends a payload that spells
//! the message.
#![tactic(auto)]

mod fault;
mod fits;
mod law;
mod lists;
mod message;
mod numbers;
mod reading;
mod writing;

pub use fault::MsgFault;
pub use law::{lengths_law, messages_law, numbers_law, refusals_law, spelled_law, written_law};
pub use message::{Extension, KexInit, Message, Method, OtherMethod};
pub use numbers::{
    SSH_DISCONNECT_HOST_KEY_NOT_VERIFIABLE, SSH_DISCONNECT_KEY_EXCHANGE_FAILED,
    SSH_DISCONNECT_MAC_ERROR, SSH_DISCONNECT_NO_MORE_AUTH_METHODS_AVAILABLE,
    SSH_DISCONNECT_PROTOCOL_ERROR, SSH_DISCONNECT_SERVICE_NOT_AVAILABLE, SSH_MSG_DEBUG,
    SSH_MSG_DISCONNECT, SSH_MSG_EXT_INFO, SSH_MSG_IGNORE, SSH_MSG_KEX_ECDH_INIT,
    SSH_MSG_KEX_ECDH_REPLY, SSH_MSG_KEXDH_INIT, SSH_MSG_KEXDH_REPLY, SSH_MSG_KEXINIT,
    SSH_MSG_NEWKEYS, SSH_MSG_SERVICE_ACCEPT, SSH_MSG_SERVICE_REQUEST, SSH_MSG_UNIMPLEMENTED,
    SSH_MSG_USERAUTH_BANNER, SSH_MSG_USERAUTH_FAILURE, SSH_MSG_USERAUTH_PK_OK,
    SSH_MSG_USERAUTH_REQUEST, SSH_MSG_USERAUTH_SUCCESS, limits_law,
};
pub use reading::{read, read_exchange};
pub use writing::write;
