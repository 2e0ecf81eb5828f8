//! What the layers above may rest on: messages as a claim and as a function are one.

ghost use Rattle.std.specs.Prelude.{◌≡◌, ◌≢◌, ◌∷◌, ℕ, Err, List, Ok, length};
ghost use Rattle.sshwire.specs.Types.{IsBytes};
ghost use Rattle.sshwire.specs.declared.share_form.ShareForm.{ShareForm};
ghost use Rattle.sshwire.specs.declared.share_form.ShareForm.TheVariants.{Hybrid, OctetString};
ghost use Rattle.sshmsg.specs.declared.numbers.TheConstants.{SSH_MSG_KEXDH_INIT, SSH_MSG_KEXDH_REPLY};
ghost use Rattle.sshmsg.specs.declared.fault.MsgFault.{MsgFault};
ghost use Rattle.sshmsg.specs.MessageData.{KexInit, KexInitData, MessageData};
ghost use Rattle.sshmsg.specs.Lengths.{payload_length};
ghost use Rattle.sshmsg.specs.Messages.{Spells, message_in};
ghost use Rattle.sshmsg.specs.Numbers.{IsRefused, message_number, number_of};
ghost use Rattle.sshmsg.specs.Written.{IsMessageOf, IsWellFormed, kexinit_payload, written_message};

/// The law of messages: a payload reads as the one message that it spells. Takes no memory.
pub fn messages_law()
    ensures sound { (form : ShareForm) (payload : List ℕ) (m : MessageData) → IsBytes payload → message_in form payload ≡ Ok m → Spells form m payload }
    ensures complete { (form : ShareForm) (payload : List ℕ) (m : MessageData) → Spells form m payload → message_in form payload ≡ Ok m }
    ensures one { (form : ShareForm) (payload : List ℕ) (m n : MessageData) → Spells form m payload → Spells form n payload → m ≡ n }
{
    sshwire::types_law();
}

/// The law of writing: what is written for a message whose fields are well-formed spells it, and so
/// reads as it. Takes no memory.
pub fn written_law()
    ensures spells { (form : ShareForm) (m : MessageData) → IsMessageOf form m → IsWellFormed m → Spells form m (written_message m) }
    ensures again { (form : ShareForm) (m : MessageData) → IsMessageOf form m → IsWellFormed m → message_in form (written_message m) ≡ Ok m }

    // What is written for a KEXINIT is its payload.
    ensures kexinit { (offer : KexInitData) → written_message (KexInit offer) ≡ kexinit_payload offer }
{
    messages_law();
}

/// The law of numbers: the first byte of a payload tells which message it spells (RFC 4250 section
/// 4.1.2). Takes no memory.
pub fn numbers_law()
    ensures message_number { (form : ShareForm) (payload : List ℕ) (m : MessageData) → message_in form payload ≡ Ok m → message_number payload ≡ number_of m }
    ensures starts { (form : ShareForm) (payload : List ℕ) (m : MessageData) → Spells form m payload → (fields : List ℕ) × (payload ≡ number_of m ∷ fields) }

    // The form of the shares decides how 30 and 31 are read, and nothing else; both forms of octet strings read alike.
    ensures alike { (form other : ShareForm) (payload : List ℕ) → message_number payload ≢ SSH_MSG_KEXDH_INIT → message_number payload ≢ SSH_MSG_KEXDH_REPLY
        → message_in form payload ≡ message_in other payload }
    ensures octets { (payload : List ℕ) → message_in OctetString payload ≡ message_in Hybrid payload }
{}

/// The law of refusals: a payload is refused just where it spells no message, and the fault says
/// whether a message has its number. Takes no memory.
pub fn refusals_law()
    ensures sound { (form : ShareForm) (payload : List ℕ) (fault : MsgFault) → message_in form payload ≡ Err fault → IsRefused form payload fault }
    ensures complete { (form : ShareForm) (payload : List ℕ) (fault : MsgFault) → IsBytes payload → IsRefused form payload fault → message_in form payload ≡ Err fault }
{
    messages_law();
}

/// What a payload spells is well-formed, and so may be written again. Takes no memory.
pub fn spelled_law()
    ensures well_formed { (form : ShareForm) (payload : List ℕ) (m : MessageData) → Spells form m payload → IsWellFormed m }
    ensures of_form { (form : ShareForm) (payload : List ℕ) (m : MessageData) → Spells form m payload → IsMessageOf form m }
    ensures round_trip { (form : ShareForm) (payload : List ℕ) (m : MessageData) → Spells form m payload → message_in form (written_message m) ≡ Ok m }
{
    written_law();
}

/// The law of lengths: a payload is as long as the parts of its message say, read or written. Takes
/// no memory.
pub fn lengths_law()
    ensures spelled { (form : ShareForm) (payload : List ℕ) (m : MessageData) → Spells form m payload → length payload ≡ payload_length m }
    ensures written { (m : MessageData) → length (written_message m) ≡ payload_length m }
{}
