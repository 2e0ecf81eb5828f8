//! One endpoint of SSH, a client or a server, which is fed with bytes: from the first byte of the version
//! line to the authenticated user (RFC 4253, RFC 4252).
//!
//! Alone it is what a client, a server, a proxy or an appliance stands on: an [`Endpoint`] is given bytes in any pieces,
//! appends those that are to be sent, and hands over a [`Session`], whose [`Link`] seals and opens packets. It needs a
//! suite and a [`Decisions`], and no socket, clock or thread.
#![tactic(auto)]

mod asking_answer;
mod asking_end;
mod asking_endpoint;
mod asking_given;
mod asking_input;
mod asking_laws;
mod asking_paused;
mod asking_question;
mod asking_waiting;
mod auth_agreement;
mod auth_client_attempts;
mod auth_client_payloads;
mod auth_server_answers;
mod auth_server_claims;
mod auth_server_completed;
mod auth_server_requests;
mod auth_service;
mod config;
mod config_client;
mod config_draws;
mod config_fault;
mod config_judge;
mod config_kexinit;
mod config_laws;
mod config_lengths;
mod config_made_with;
mod config_names;
mod config_parts;
mod config_server;
mod config_suite_fault;
mod config_suite_judge;
mod config_version;
mod decisions;
mod disconnecting;
mod end;
mod endpoint;
mod endpoint_laws;
mod failing;
mod fault_words;
mod greeting;
mod ignoring;
mod input;
mod judging;
mod kex_algorithms;
mod kex_chosen_names;
mod kex_exchange;
mod kex_exchange_keys;
mod kex_exchange_reply;
mod kex_init;
mod kex_newkeys;
mod law;
mod lent;
mod limits_laws;
mod link;
mod link_fault;
mod link_laws;
mod notice;
mod packet;
mod packet_dispositions;
mod payloads;
mod pending;
mod phase_table;
mod record;
mod record_endpoint;
mod record_fault;
mod record_holding;
mod record_input;
mod record_making;
mod record_parts;
mod record_reading;
mod record_waiting;
mod record_writing;
mod reply;
mod seen;
mod sending;
mod session;
mod state;
mod working;

pub use asking_endpoint::{AskingEndpoint, Fed};
pub use asking_given::{Listener, Silent};
pub use asking_laws::{asking_law, beside_law, dialogue_law, questions_law};
pub use asking_paused::PausedEndpoint;
pub use asking_question::Question;
pub use config_client::ClientConfig;
pub use config_draws::Draws;
pub use config_fault::ConfigFault;
pub use config_laws::{config_law, draws_law};
pub use config_parts::{
    Attempt, BANNER_LIMIT, ClientParts, Credential, HostKey, IGNORED_OVERHEAD, LIST_LIMIT,
    NOTICE_LIMIT, NOTICE_LINE_LIMIT, PASSWORD_LIMIT, PLAN_LIMIT, PRIVATE_KEY_LIMIT, PeerReading,
    ServerParts, SideParts, TRIES_LIMIT, USER_LIMIT,
};
pub use config_server::ServerConfig;
pub use config_suite_fault::{AlgorithmList, SuiteFault};
pub use decisions::{Decisions, Proof};
pub use disconnecting::DESCRIPTION_LIMIT;
pub use end::{Agreed, End, Fault, ShortFault};
pub use endpoint::Endpoint;
pub use endpoint_laws::endpoint_law;
pub use kex_chosen_names::ChosenNames;
pub use law::{
    authentication_law, completed_methods_law, history_law, sending_law, standing_law, strict_law,
};
pub use limits_laws::limits_law;
pub use link::{LINK_BYTES_LIMIT, LINK_LIMIT, Link};
pub use link_fault::LinkFault;
pub use link_laws::link_law;
pub use notice::Notice;
pub use phase_table::{Disposition, Phase};
pub use record_endpoint::record_law;
pub use record_fault::{RECORD_LIMIT, RECORD_VERSION, RecordFault};
pub use session::{Accepted, Direction, Session, UserKey};
