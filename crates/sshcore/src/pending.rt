//! What a packet asks, with all that its answer needs.

ghost use Rattle.std.specs.Prelude.{◌≡◌};
ghost use Rattle.std.specs.Str.{bytes_eq};

use crate::asking_question::Question;
use crate::decisions::Proof;
use sshpacket::Response;

/// What a packet asks, with all that its answer needs: it isn't read again.
///
/// It has no `Debug`: passwords are never printed.
#[derive(Drop)]
pub(crate) enum Pending {
    /// A client has received the server's share: is the host key trusted?
    Reply {
        algorithm: String,
        host_key: Vec<u8>,
        share: Vec<u8>,
        signature: Vec<u8>,
    },
    /// A server has received the client's share, and the exchange hash is to be signed elsewhere.
    Init {
        algorithm: String,
        prepared: Prepared,
    },
    /// A server has received a request or a query: is what it claims accepted?
    Request {
        number: u32,
        user: String,
        service: String,
        claim: Claim,
    },
    /// A client is to make an attempt, whose request is to be signed elsewhere. It skips so many before, and
    /// may be one whose query was confirmed.
    Attempt {
        skipped: usize,
        confirms: bool,
        number: usize,
        algorithm: String,
        blob: Vec<u8>,
        input: Vec<u8>,
    },
}

/// What a server answers to a client's share, but for the signature: its own share with the shared secret, its
/// host key, and the exchange hash.
#[derive(Drop)]
pub(crate) struct Prepared {
    pub(crate) response: Response,
    pub(crate) host_key: Vec<u8>,
    pub(crate) hash: Vec<u8>,
}

/// What a request claims, or the key of a query. The signature by a key has been verified.
#[derive(Drop)]
pub(crate) enum Claim {
    None,
    Password(Vec<u8>),
    Query { algorithm: String, blob: Vec<u8> },
    Key { algorithm: String, blob: Vec<u8> },
}

impl Pending {
    ghost use Rattle.sshcore.specs.QuestionsView.{pending_question, question_data};

    /// The question.
    pub(crate) fn question(&self) -> Question<'_>
        ensures { question_data result ≡ pending_question self.now }
    {
        match self {
            Pending::Reply {
                algorithm,
                host_key,
                ..
            } => Question::HostKey {
                algorithm,
                blob: host_key,
            },
            Pending::Init {
                algorithm,
                prepared,
            } => Question::Signature {
                number: 0,
                algorithm,
                blob: &prepared.host_key,
                input: &prepared.hash,
            },
            Pending::Request {
                number,
                user,
                service,
                claim,
            } => Question::User {
                number: *number,
                user,
                service,
                proof: claim.proof(),
                signed: claim.is_signed(),
            },
            Pending::Attempt {
                number,
                algorithm,
                blob,
                input,
                ..
            } => Question::Signature {
                number: *number,
                algorithm,
                blob,
                input,
            },
        }
    }
}

impl Claim {
    ghost use Rattle.sshmsg.specs.MessageData.{method_name};
    ghost use Rattle.sshcore.specs.EndpointPartsView.{proof_data};
    ghost use Rattle.sshcore.specs.QuestionsView.{claim_method, claim_proof};
    ghost use Rattle.sshcore.specs.Requests.{is_signed};

    /// What is claimed, as it is asked about.
    fn proof(&self) -> Proof<'_>
        ensures { proof_data result ≡ claim_proof self.now }
    {
        match self {
            Claim::None => Proof::None,
            Claim::Password(password) => Proof::Password(password),
            Claim::Query { algorithm, blob } => Proof::Key { algorithm, blob },
            Claim::Key { algorithm, blob } => Proof::Key { algorithm, blob },
        }
    }

    /// Whether it is a key's, whose signature has been verified.
    fn is_signed(&self) -> bool
        ensures { result ≡ is_signed (claim_method self.now) }
    {
        match self {
            Claim::Key { .. } => true,
            _ => false,
        }
    }

    /// Whether it is by this method.
    pub(crate) fn is_by(&self, method: &str) -> bool
        ensures { result ≡ bytes_eq (method_name (claim_method self.now)) method.now }
    {
        match self {
            Claim::None => method == "none",
            Claim::Password(_) => method == "password",
            Claim::Query { .. } | Claim::Key { .. } => method == "publickey",
        }
    }
}
