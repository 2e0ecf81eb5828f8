//! An answer that was given, and who is told what the peer tells people.

ghost use Rattle.std.specs.Prelude.{◌≡◌, ◌≤◌, IfSome, length, option_map};
ghost use Rattle.sshcore.specs.Questions.{found_in, is_yes};
ghost use Rattle.sshcore.specs.Signatures.{fitting};
ghost use Rattle.sshcore.specs.QuestionsView.{answer_data};

use crate::asking_question::Question;
use crate::decisions::Decisions;
use crate::notice::Notice;
use sshpacket::SIGNATURE_LIMIT;
use sshwire::Memory;
use std::alloc::Global;

/// Is told what the peer of an endpoint tells people. It can't change what is answered.
pub trait Listener {
    /// Is told what the peer tells people: by a message before that asks or is answered, or by a line before the version line.
    fn notice(&self, notice: Notice<'_>);
}

/// A listener that does nothing.
#[derive(Clone, Copy)]
pub struct Silent;

impl Listener for Silent {
    fn notice(&self, notice: Notice<'_>) {
        let _ = notice;
    }
}

/// A listener that does nothing, lent for good.
pub(crate) fn told_to_nobody() -> &'static Silent {
    &Silent
}

/// Decisions as the listener that they are.
#[derive(Clone, Copy)]
pub(crate) struct Tells<'d, D: Decisions> {
    pub(crate) decisions: &'d D,
}

impl<D: Decisions> Listener for Tells<'_, D> {
    fn notice(&self, notice: Notice<'_>) {
        self.decisions.notice(notice);
    }
}

/// An answer that was given: yes or no, or a signature or none.
#[derive(Clone, Copy)]
pub(crate) enum Answer<'g> {
    Decided(bool),
    Signed(Option<&'g [u8]>),
}

/// What somebody decides, as it is kept until it is taken as an answer.
#[derive(Drop)]
pub(crate) enum Given {
    Decided(bool),
    Signed(Option<Vec<u8>>),
}

impl Given {
    ghost use Rattle.std.specs.Prelude.{◌≡◌, IfOk};
    ghost use Rattle.sshcore.specs.Questions.{decided};
    ghost use Rattle.sshcore.specs.QuestionsView.{answer_data, given_data, question_data};

    /// What these decisions answer to a question.
    pub(crate) fn by<D: Decisions>(
        alloc: Global,
        decisions: &D,
        question: Question<'_>,
    ) -> Result<Given, Memory>
        ensures { IfOk result (λ given. given_data given ≡ decided (D.policy decisions.now) (question_data question.entry)) }
    {
        match question {
            Question::HostKey { algorithm, blob } => {
                Ok(Given::Decided(decisions.host_key(algorithm, blob)))
            }
            Question::User {
                number,
                user,
                service,
                proof,
                ..
            } => Ok(Given::Decided(decisions.user(number, user, service, &proof))),
            Question::Signature {
                number,
                algorithm,
                blob,
                input,
            } => Ok(Given::Signed(decisions.signature(alloc, number, algorithm, blob, input)?)),
        }
    }

    /// It as an answer.
    pub(crate) fn answer(&self) -> Answer<'_>
        ensures { answer_data result ≡ given_data self.now }
    {
        match self {
            Given::Decided(allowed) => Answer::Decided(*allowed),
            Given::Signed(None) => Answer::Signed(None),
            Given::Signed(Some(signature)) => Answer::Signed(Some(signature)),
        }
    }
}

/// Whether the answer is yes.
pub(crate) fn is_yes(answer: Answer<'_>) -> bool
    ensures { result ≡ is_yes (answer_data answer.entry) }
{
    match answer {
        Answer::Decided(allowed) => allowed,
        Answer::Signed(_) => false,
    }
}

/// The signature that was given, if it is no longer than one that a suite makes.
pub(crate) fn signature_in(answer: Answer<'_>) -> Option<&[u8]>
    ensures found { option_map (λ s. s.now) result ≡ fitting (found_in (answer_data answer.entry)) }
    ensures short { IfSome result (λ s. length s.now ≤ SIGNATURE_LIMIT) }
{
    match answer {
        Answer::Signed(Some(signature)) => {
            if signature.len() <= SIGNATURE_LIMIT {
                Some(signature)
            } else {
                None
            }
        }
        _ => None,
    }
}
