//! What an asking endpoint asks, and how it goes on with the answer.

ghost use Rattle.std.specs.Prelude.{◌≡◌, ◌≤◌, ◌++◌, ℕ, List, [], None, Ok, OnErr, OnOk, Some, is_some, option_map, true, false};
ghost use Rattle.sshpacket.specs.Suite.{SuiteData};
ghost use Rattle.sshcore.specs.declared.end.Fault.TheVariants as fault;
ghost use Rattle.sshcore.specs.Asking.{Answered, AskingAfter, AskingBreaks, IsSameAsking, asked_by, asking_end, asking_turns};
ghost use Rattle.sshcore.specs.AskingData.{WaitingData, asking_setup};
ghost use Rattle.sshcore.specs.Brings.{IsOngoing};
ghost use Rattle.sshcore.specs.EndData.{Failed, Open, by_input, end_data};
ghost use Rattle.sshcore.specs.EndpointConfig.{config_data, role_of};
ghost use Rattle.sshcore.specs.EndpointParts.{DecisionsData};
ghost use Rattle.sshcore.specs.Inputs.{CanRead, EndpointStands, turns_left};
ghost use Rattle.sshcore.specs.declared.asking_given.Answer.TheVariants as given;
ghost use Rattle.sshcore.specs.QuestionsView.{answer_data, question_data};
ghost use Rattle.sshcore.specs.QuestionAt.{question_at};
ghost use Rattle.sshcore.specs.Questions.{Decided, decided_by, taken, taken_by};
ghost use Rattle.sshcore.specs.Keeping.{StillFits};
ghost use Rattle.sshcore.specs.StateData.{state_data};
ghost use Rattle.sshcore.specs.Unread.{AnswerSteps, IsAsked, IsIdle, IsTurned};
ghost use Rattle.sshcore.specs.WaitingView.{waiting_data};

use crate::asking_endpoint::AskingEndpoint;
use crate::asking_given::{Answer, Given, Listener};
use crate::asking_input::turn;
use crate::asking_question::Question;
use crate::asking_waiting::Waiting;
use crate::config::Config;
use crate::decisions::Decisions;
use crate::end::{End, Fault};
use crate::input::Input;
use crate::lent::set;
use crate::state::State;
use sshpacket::Suite;
use sshwire::Memory;
use std::alloc::Global;

impl<S: Suite, L: Listener> AskingEndpoint<'_, S, L> {
    /// What is asked: there is a question exactly while the endpoint waits for an answer and is open. Takes no memory.
    ///
    /// A client asks once, whether a host key is trusted; a server asks of a request or query of authentication. Either asks for
    /// a signature by a key that the suite doesn't hold.
    pub fn question(&self) -> Option<Question<'_>>
        ensures asks { option_map question_data result ≡ asked_by self.now }
        // It is what the packet asks that was read last.
        ensures packet { (w : WaitingData) → self.now.waiting ≡ Some w → asking_end self.now ≡ Open
            → question_at (S.meaning self.now.suite) self.now.role self.now.config (state_data self.now.state) w.payload ≡ Some w.question }
        // An endpoint that waits for none has received and sent as one that asks at once.
        ensures as_at_once { (d : DecisionsData) (h s : List ℕ) → self.now.waiting ≡ None → AskingAfter S.meaning d self.now h s
            → EndpointStands (asking_setup S.meaning d self.now) (state_data self.now.state) self.now.input h s }
    {
        if !self.is_open() {
            return None;
        }
        match &self.waiting {
            Some(waiting) => Some(waiting.pending.question()),
            None => None,
        }
    }

    /// Answers the question, and appends to `out` what is sent to the packet that asked it. By a yes (`allowed`) a client
    /// trusts the host key; a server accepts the request, whose signature has been verified if it has one, or tells the client
    /// that the key of its query would do. A question for a signature is answered by either as by none. Then go on with what
    /// [`feed`](AskingEndpoint::feed) didn't use.
    ///
    /// Where nothing is asked the endpoint doesn't change, and nothing is appended. Answers `Memory` where an
    /// allocation failed: the endpoint has then failed, and `out` is unchanged.
    pub fn answer(&mut self, allowed: bool, out: &mut Vec<u8>) -> Result<(), Memory>
        ensures answered { is_some (asked_by self.old) ≡ true → OnOk result (Answered S.meaning (taken_by (asked_by self.old) (Decided allowed)) self.old self.new out.old.items out.new.items) }
        ensures memory { OnErr result ((asking_end self.new ≡ Failed fault.Memory) × (out.new.items ≡ out.old.items) × AskingBreaks S.meaning self.old self.new [] out.old.items out.new.items) }
        // Running out of memory is answered, and never found later.
        ensures kept { OnOk result (asking_end self.new ≡ Failed fault.Memory → asking_end self.old ≡ Failed fault.Memory) }
        // And no other end comes of it than those of what is received: its owner alone cuts it off or disconnects it.
        ensures owned { OnOk result (by_input (asking_end self.new) ≡ false → asking_end self.old ≡ asking_end self.new) }
        ensures none { asked_by self.old ≡ None → (result ≡ Ok tt) × (self.new ≡ self.old) × (out.new ≡ out.old) }
    {
        self.answer_so(Answer::Decided(allowed), out)
    }

    /// Answers a question for a signature by one, or by none, and appends to `out` what is sent then. By none a client makes
    /// the attempt by the method `none` (RFC 4252 section 5.2), which counts as one of its requests, and a server's exchange
    /// fails (F9). A signature is sent as it is: its bytes begin with the name of its format, as a string (RFC 4253 section
    /// 6.6); whether it verifies is for the peer to see, and for whoever made it: one by RSA that went wrong may give its key
    /// away. One of more than 8192 bytes is as none. Any other question is answered by either as by a no.
    ///
    /// Where nothing is asked the endpoint doesn't change, and nothing is appended. Answers `Memory` where an
    /// allocation failed: the endpoint has then failed, and `out` is unchanged.
    pub fn answer_signature(
        &mut self,
        signature: Option<&[u8]>,
        out: &mut Vec<u8>,
    ) -> Result<(), Memory>
        ensures answered { is_some (asked_by self.old) ≡ true → OnOk result (Answered S.meaning (taken_by (asked_by self.old) (answer_data (given.Signed signature.entry))) self.old self.new out.old.items out.new.items) }
        ensures memory { OnErr result ((asking_end self.new ≡ Failed fault.Memory) × (out.new.items ≡ out.old.items) × AskingBreaks S.meaning self.old self.new [] out.old.items out.new.items) }
        // Running out of memory is answered, and never found later.
        ensures kept { OnOk result (asking_end self.new ≡ Failed fault.Memory → asking_end self.old ≡ Failed fault.Memory) }
        // And no other end comes of it than those of what is received: its owner alone cuts it off or disconnects it.
        ensures owned { OnOk result (by_input (asking_end self.new) ≡ false → asking_end self.old ≡ asking_end self.new) }
        ensures none { asked_by self.old ≡ None → (result ≡ Ok tt) × (self.new ≡ self.old) × (out.new ≡ out.old) }
    {
        self.answer_so(Answer::Signed(signature), out)
    }

    /// Answers what is asked, if something is, by these decisions.
    pub(crate) fn decide<D: Decisions>(
        &mut self,
        decisions: &D,
        out: &mut Vec<u8>,
    ) -> Result<(), Memory>
        ensures decided { is_some (asked_by self.old) ≡ true → OnOk result (Answered S.meaning (decided_by (D.policy decisions.now) (asked_by self.old)) self.old self.new out.old.items out.new.items) }
        ensures memory { OnErr result ((asking_end self.new ≡ Failed fault.Memory) × (self.new.waiting ≡ None) × (out.new.items ≡ out.old.items) × IsSameAsking self.old self.new) }
        ensures kept { OnOk result (by_input (asking_end self.old) ≡ true → by_input (asking_end self.new) ≡ true) }
        ensures turns { OnOk result (asking_turns self.new ≤ asking_turns self.old) }
        ensures none { asked_by self.old ≡ None → (result ≡ Ok tt) × (self.new ≡ self.old) × (out.new ≡ out.old) }
    {
        let alloc = self.alloc();
        let given = match self.question() {
            None => return Ok(()),
            Some(question) => Given::by(alloc, decisions, question),
        };
        match given {
            Ok(given) => self.answer_so(given.answer(), out),
            Err(_) => {
                self.run_out();
                Err(Memory)
            }
        }
    }

    /// An allocation failed: it has failed, and waits for nothing.
    fn run_out(&mut self)
        ensures failed { asking_end self.new ≡ Failed fault.Memory }
        ensures waits { self.new.waiting ≡ None }
        ensures same { IsSameAsking self.old self.new }
    {
        set(&mut self.waiting, None);
        let state = &mut self.state;
        set(&mut state.end, End::Failed(Fault::Memory));
    }

    /// Where it has its memory from.
    fn alloc(&self) -> Global {
        self.state.alloc
    }

    /// Answers the question so.
    fn answer_so(&mut self, answer: Answer<'_>, out: &mut Vec<u8>) -> Result<(), Memory>
        ensures answered { is_some (asked_by self.old) ≡ true → OnOk result (Answered S.meaning (taken_by (asked_by self.old) (answer_data answer.entry)) self.old self.new out.old.items out.new.items) }
        ensures memory { OnErr result ((asking_end self.new ≡ Failed fault.Memory) × (out.new.items ≡ out.old.items) × AskingBreaks S.meaning self.old self.new [] out.old.items out.new.items) }
        ensures kept { OnOk result (asking_end self.new ≡ Failed fault.Memory → asking_end self.old ≡ Failed fault.Memory) }
        ensures owned { OnOk result (by_input (asking_end self.new) ≡ false → asking_end self.old ≡ asking_end self.new) }
        ensures turns { OnOk result (asking_turns self.new ≤ asking_turns self.old) }
        ensures broken { OnErr result (self.new.waiting ≡ None) }
        ensures none { asked_by self.old ≡ None → (result ≡ Ok tt) × (self.new ≡ self.old) × (out.new ≡ out.old) }
    {
        if !self.is_open() {
            return Ok(());
        }
        let Some(waiting) = self.waiting.take() else {
            return Ok(());
        };
        let answered = answer_given(
            &mut self.input,
            &mut self.state,
            &self.config,
            self.suite,
            &waiting,
            answer,
            out,
        );
        match answered {
            Ok(()) => Ok(()),
            Err(_) => {
                self.state.end = End::Failed(Fault::Memory);
                Err(Memory)
            }
        }
    }
}

/// Answers a packet that waited; where an allocation failed `out` is unchanged.
fn answer_given<S: Suite>(
    input: &mut Input,
    state: &mut State<'_>,
    config: &Config<'_>,
    suite: &S,
    waiting: &Waiting,
    answer: Answer<'_>,
    out: &mut Vec<u8>,
) -> Result<(), Memory>
    requires asked { IsAsked (S.meaning suite.now) (role_of config.now) (config_data config.now) (state_data state.old) input.old (waiting_data waiting.now) }
    requires reads { CanRead (S.meaning suite.now) input.old }
    ensures steps { OnOk result ((added : List ℕ) × (out.new.items ≡ out.old.items ++ added)
        × AnswerSteps (S.meaning suite.now) (role_of config.now) (config_data config.now) (taken (waiting_data waiting.now).question (answer_data answer.entry)) (waiting_data waiting.now) input.old (state_data state.old) input.new (state_data state.new) [] added) }
    ensures reads { OnOk result (IsOngoing (end_data state.new.end) → CanRead (S.meaning suite.now) input.new) }
    ensures keeps { OnOk result (StillFits (S.meaning suite.now) (config_data config.now) (state_data state.old) (state_data state.new)) }
    ensures kept { OnOk result (by_input (end_data state.new.end) ≡ true) }
    ensures turns { OnOk result (turns_left (end_data state.new.end) input.new ≤ turns_left Open input.old) }
    ensures memory { OnErr result (out.new.items ≡ out.old.items) }
{
    let mut sent = Vec::new(state.alloc);
    answer_packet(input, state, config, suite, waiting, answer, &mut sent)?;
    out.extend_from_slice(&sent)?;
    Ok(())
}

/// Answers a packet that asked; what is sent to it is appended to `sent`.
fn answer_packet<S: Suite>(
    input: &mut Input,
    state: &mut State<'_>,
    config: &Config<'_>,
    suite: &S,
    waiting: &Waiting,
    answer: Answer<'_>,
    sent: &mut Vec<u8>,
) -> Result<(), Memory>
    requires asked { IsAsked (S.meaning suite.now) (role_of config.now) (config_data config.now) (state_data state.old) input.old (waiting_data waiting.now) }
    requires reads { CanRead (S.meaning suite.now) input.old }
    ensures steps { OnOk result (AnswerSteps (S.meaning suite.now) (role_of config.now) (config_data config.now) (taken (waiting_data waiting.now).question (answer_data answer.entry)) (waiting_data waiting.now)
        input.old (state_data state.old) input.new (state_data state.new) sent.old.items sent.new.items) }
    ensures reads { OnOk result (IsOngoing (end_data state.new.end) → CanRead (S.meaning suite.now) input.new) }
    ensures keeps { OnOk result (StillFits (S.meaning suite.now) (config_data config.now) (state_data state.old) (state_data state.new)) }
    ensures kept { OnOk result (by_input (end_data state.new.end) ≡ true) }
    ensures turns { OnOk result (turns_left (end_data state.new.end) input.new ≤ turns_left Open input.old) }
{
    sshpacket::parser_by_law();
    sshpacket::stream_law();
    sshmsg::messages_law();
    sshmsg::numbers_law();
    sshneg::markers_law();
    state.answer(config, suite, &waiting.pending, answer, sent)?;
    turn_input(input, state);
    Ok(())
}

/// Reads on with the keys that are due after a packet.
fn turn_input(input: &mut Input, state: &mut State<'_>)
    requires idle { IsIdle input.old }
    ensures turned { IsTurned (state_data state.old) (state_data state.new) input.old input.new }
    ensures reads { (m : SuiteData) → CanRead m input.old → CanRead m input.new }
    ensures ends { end_data state.new.end ≡ end_data state.old.end }
{
    match input {
        Input::Lines(_) => {}
        Input::Packets(reader) => turn(reader, state),
    }
}
