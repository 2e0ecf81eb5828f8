//! The binary packets of SSH (RFC 4253 section 6), over a suite of algorithms that is handed in.
//!
//! Alone, and without a suite, it reads the packets in clear of a captured stream ([`ClearReader`]) and writes such
//! packets ([`write_with_padding`], [`padding_len`]): for sniffers and for makers of test vectors. With a [`Suite`] it
//! does so of sealed packets, whose keys are [`Keys`].
//!
//! [`write_clear`], [`write_sealed`] and [`write_next`] write a payload as a packet; [`PacketReader`] reads packets
//! off a stream, however it is cut. The law functions are for the layers above.
#![tactic(auto)]

mod clear_reader;
mod fault;
mod inventory;
mod keys;
mod keys_elsewhere;
mod limits;
mod limits_laws;
mod no_suite;
mod packet_laws;
mod padding;
mod protection;
mod reader;
mod room;
mod stream_laws;
mod suite;
mod write;

pub use clear_reader::ClearReader;
pub use fault::PacketFault;
pub use inventory::Inventory;
pub use keys::{KeyParts, Keys};
pub use keys_elsewhere::{KeysElsewhere, copy_public_key};
pub use limits::{
    BLOB_LIMIT, BLOCK_LIMIT, DIGEST_LIMIT, KEY_LIMIT, PACKET_LIMIT, SHARE_LIMIT, SIGNATURE_LIMIT,
    TAG_LIMIT,
};
pub use limits_laws::limits_law;
pub use packet_laws::{advancing_law, packet_law, shares_law, writing_law};
pub use padding::{padding_len, padding_len_uncounted};
pub use protection::leading_uint32;
pub use reader::{PacketReader, PacketStep};
pub use room::ROOM_KEPT;
pub use sshwire::ShareForm;
pub use stream_laws::{
    joined_law, parser_by_law, parser_law, places_law, receiving_by_law, receiving_law, stream_law,
};
pub use suite::{AgreeingSuite, Capability, KeyLens, Need, Response, Suite};
pub use write::{write_clear, write_next, write_sealed, write_with_padding};
