//! The lowest layer of SSH: data types, name-lists and version lines as bytes.
//!
//! Alone it reads the lines of a captured stream up to its version line, in any pieces ([`LineReader`]; what deployed
//! peers write besides, [`PeerLineReader`]), and reads and writes fields of any format that has the types of SSH
//! ([`Reader`], [`NameList`], [`put_string`]): for sniffers, for dissectors and for programs of other SSH layers. It needs
//! nothing else of SSH.
//!
//! Data types are those of RFC 4251 section 5, names those of its section 6, version lines those of RFC 4253 section 4.2.
#![tactic(auto)]

mod borrowed_name_list;
mod byte_buffer;
mod fault;
mod law;
mod limits;
mod limits_laws;
mod line_form;
mod line_reader;
mod mpint;
mod name_list;
mod names;
pub mod owned;
mod peer_line_reader;
mod peer_version;
mod put;
mod reader;
mod share_form;
mod text_buffer;
mod version_line;

pub use borrowed_name_list::BorrowedNameList;
pub use byte_buffer::ByteBuffer;
pub use fault::{Memory, WireFault};
pub use law::{bytes_law, names_law, reading_by_law, reading_law, types_law};
pub use limits::{LINE_LIMIT, NAME_LIMIT, OTHER_LINE_LIMIT, PAYLOAD_LIMIT};
pub use limits_laws::limits_law;
pub use line_form::{LineForm, ReadBy};
pub use line_reader::{LineReader, LineStep};
pub use mpint::Mpint;
pub use name_list::{NameList, as_name};
pub use names::Names;
pub use peer_line_reader::{PeerLineReader, PeerStep};
pub use peer_version::PeerVersion;
pub use put::{put_boolean, put_mpint, put_string, put_u32};
pub use reader::Reader;
pub use share_form::ShareForm;
pub use text_buffer::TextBuffer;
pub use version_line::VersionLine;
