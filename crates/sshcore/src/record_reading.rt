//! Reads the record of a paused endpoint.

ghost use Rattle.std.specs.Prelude.{⊤, ◌≡◌, ◌≢◌, ◌<◌, ◌^◌, IfSome, List, MatchOption, None, Some, false, option_map, true, ℕ};
ghost use Rattle.sshcore.specs.declared.record_fault.TheConstants.{RECORD_VERSION};
ghost use Rattle.sshcore.specs.RecordData.{RecordData, held_in};
ghost use Rattle.sshcore.specs.RecordReads.{Reads};
ghost use Rattle.sshcore.specs.RecordText.{FitsAuthentication, FitsCarried, FitsExchange, FitsKeys, FitsNames, FitsReader, FitsRecord, FitsSending, FitsUserKey, IsShort, authentication_text, bytes_text, carried_text, exchange_text, flag_text, form_number, keys_text, names_text, number_text, option_text, phase_number, reader_text, record_bytes, record_text, role_number, sending_text, user_key_text, waits_text};
ghost use Rattle.sshcore.specs.RecordView.{authentication_record, carried_record, exchange_record, lent_keys, lent_names, lent_user_key, reader_record, record_data, sending_record};

use crate::phase_table::Phase;
use crate::record_fault::RECORD_VERSION;
use crate::record_parts::{
    AuthenticationParts, CarriedParts, ExchangeParts, LentKeys, LentNames, LentUserKey,
    ReaderParts, RecordParts, SendingParts,
};
use sshneg::Side;
use sshpacket::ShareForm;
use sshwire::Reader;

/// Reads what a record has, one after the other. Where bytes are missing, or are no such thing, it goes on with nothing in
/// their place, and the record isn't whole.
#[derive(Drop)]
struct RecordReader<'a> {
    reader: Reader<'a>,
    is_whole: bool,
}

impl<'a> RecordReader<'a> {
    /// The number at the front.
    fn number(&mut self) -> u32
        ensures { Reads number_text (λ n. n < 2 ^ 32) self.old result self.new }
    {
        match self.reader.u32() {
            Ok(number) => number,
            Err(_) => {
                self.is_whole = false;
                0
            }
        }
    }

    /// The flag at the front.
    fn flag(&mut self) -> bool
        ensures { Reads flag_text (λ _. ⊤) self.old result self.new }
    {
        match self.number() {
            0 => false,
            1 => true,
            _ => {
                self.is_whole = false;
                false
            }
        }
    }

    /// The bytes at the front.
    fn bytes(&mut self) -> &'a [u8]
        ensures { Reads bytes_text IsShort self.old result.now self.new }
    {
        match self.reader.string() {
            Ok(bytes) => bytes,
            Err(_) => {
                self.is_whole = false;
                &[]
            }
        }
    }

    /// The role at the front.
    fn role(&mut self) -> Side
        ensures { Reads (λ role. number_text (role_number role)) (λ _. ⊤) self.old result self.new }
    {
        match self.number() {
            0 => Side::Client,
            1 => Side::Server,
            _ => {
                self.is_whole = false;
                Side::Client
            }
        }
    }

    /// The phase at the front.
    fn phase(&mut self) -> Phase
        ensures { Reads (λ phase. number_text (phase_number phase)) (λ _. ⊤) self.old result self.new }
    {
        match self.number() {
            0 => Phase::KexInit,
            1 => Phase::Exchange,
            2 => Phase::NewKeys,
            3 => Phase::Service,
            4 => Phase::Auth,
            _ => {
                self.is_whole = false;
                Phase::KexInit
            }
        }
    }

    /// The form of shares at the front.
    fn form(&mut self) -> ShareForm
        ensures { Reads (λ form. number_text (form_number form)) (λ _. ⊤) self.old result self.new }
    {
        match self.number() {
            0 => ShareForm::Mpint,
            1 => ShareForm::OctetString,
            2 => ShareForm::Hybrid,
            _ => {
                self.is_whole = false;
                ShareForm::Mpint
            }
        }
    }

    /// The keys at the front, if there are some.
    fn keys(&mut self) -> Option<LentKeys<'a>>
        ensures { Reads (option_text keys_text) (λ keys. IfSome keys FitsKeys) self.old (option_map lent_keys result) self.new }
    {
        if !self.flag() {
            return None;
        }
        let cipher = self.bytes();
        let mac = self.bytes();
        let iv = self.bytes();
        let enc = self.bytes();
        let mac_key = self.bytes();
        Some(LentKeys {
            cipher,
            mac,
            iv,
            enc,
            mac_key,
        })
    }

    /// The names at the front, if there are some.
    fn names(&mut self) -> Option<LentNames<'a>>
        ensures { Reads (option_text names_text) (λ names. IfSome names FitsNames) self.old (option_map lent_names result) self.new }
    {
        if !self.flag() {
            return None;
        }
        let kex = self.bytes();
        let host_key = self.bytes();
        let encryption_client_to_server = self.bytes();
        let encryption_server_to_client = self.bytes();
        let mac_client_to_server = self.bytes();
        let mac_server_to_client = self.bytes();
        let compression_client_to_server = self.bytes();
        let compression_server_to_client = self.bytes();
        Some(LentNames {
            kex,
            host_key,
            encryption_client_to_server,
            encryption_server_to_client,
            mac_client_to_server,
            mac_server_to_client,
            compression_client_to_server,
            compression_server_to_client,
        })
    }

    /// The user's key at the front, if there is one.
    fn user_key(&mut self) -> Option<LentUserKey<'a>>
        ensures { Reads (option_text user_key_text) (λ key. IfSome key FitsUserKey) self.old (option_map lent_user_key result) self.new }
    {
        if !self.flag() {
            return None;
        }
        let algorithm = self.bytes();
        let blob = self.bytes();
        Some(LentUserKey { algorithm, blob })
    }

    /// What is known of the exchange.
    fn exchange(&mut self) -> ExchangeParts<'a>
        ensures { Reads exchange_text FitsExchange self.old (exchange_record result) self.new }
    {
        let shares = self.form();
        let strict = self.flag();
        let first = self.flag();
        let version = self.bytes();
        let kexinit = self.bytes();
        let session = self.bytes();
        let algorithms = self.names();
        ExchangeParts {
            shares,
            strict,
            first,
            version,
            kexinit,
            session,
            algorithms,
        }
    }

    /// The number at the front, if there is one.
    fn allowance(&mut self) -> Option<u32>
        ensures { Reads (option_text number_text) (λ number. IfSome number (λ n. n < 2 ^ 32)) self.old result self.new }
    {
        if self.flag() {
            Some(self.number())
        } else {
            None
        }
    }

    /// What is known of authentication.
    fn authentication(&mut self) -> AuthenticationParts<'a>
        ensures { Reads authentication_text FitsAuthentication self.old (authentication_record result) self.new }
    {
        let request = self.number();
        let allowance = self.allowance();
        let user = self.bytes();
        let service = self.bytes();
        let password = self.flag();
        let publickey = self.flag();
        AuthenticationParts {
            request,
            allowance,
            user,
            service,
            password,
            publickey,
        }
    }

    /// What is carried along.
    fn carried(&mut self) -> CarriedParts<'a>
        ensures { Reads carried_text FitsCarried self.old (carried_record result) self.new }
    {
        let pending = self.keys();
        let own_version = self.bytes();
        let host_key = self.bytes();
        let user_key = self.user_key();
        CarriedParts {
            pending,
            own_version,
            host_key,
            user_key,
        }
    }

    /// What packets are sent with.
    fn sending(&mut self) -> SendingParts<'a>
        ensures { Reads sending_text FitsSending self.old (sending_record result) self.new }
    {
        let keys = self.keys();
        let number = self.number();
        SendingParts { keys, number }
    }

    /// What bytes are read with, where these are unfinished.
    fn reader(&mut self, held: &'a [u8]) -> ReaderParts<'a>
        ensures { Reads reader_text (λ r. FitsReader r × (held_in r ≡ held.now)) self.old (reader_record result) self.new }
    {
        if self.flag() {
            let keys = self.keys();
            let number = self.number();
            ReaderParts::Packets { keys, number, held }
        } else {
            let others = self.number();
            ReaderParts::Lines { others, line: held }
        }
    }

    /// The payload of the packet that waits, if one does.
    fn waiting(&mut self) -> Option<&'a [u8]>
        ensures { Reads (option_text bytes_text) (λ payload. IfSome payload IsShort) self.old (option_map (λ payload. payload.now) result) self.new }
    {
        if !self.flag() {
            return None;
        }
        Some(self.bytes())
    }

    /// The version of records has to stand at the front.
    fn version(&mut self)
        ensures { (rest : List ℕ) → self.old.reader ≡ number_text RECORD_VERSION rest → (self.new.reader ≡ rest) × (self.new.is_whole ≡ self.old.is_whole) }
    {
        if self.number() != RECORD_VERSION {
            self.is_whole = false;
        }
    }

    /// The whole record.
    fn record(&mut self) -> RecordParts<'a>
        ensures { Reads record_text FitsRecord self.old (record_data result) self.new }
    {
        self.version();
        let missing = self.number();
        let held = self.bytes();
        let role = self.role();
        let confirmed = self.flag();
        let left = self.number();
        let phase = self.phase();
        let guess = self.flag();
        let exchange = self.exchange();
        let authentication = self.authentication();
        let carried = self.carried();
        let sending = self.sending();
        let reader = self.reader(held);
        let waiting = self.waiting();
        RecordParts {
            missing,
            role,
            confirmed,
            left,
            phase,
            guess,
            exchange,
            authentication,
            carried,
            sending,
            reader,
            waiting,
        }
    }
}

/// Whether these bytes begin with another version of records.
pub(crate) fn is_of_other_version(bytes: &[u8]) -> bool
    ensures other { (n : ℕ) (rest : List ℕ) → n < 2 ^ 32 → n ≢ RECORD_VERSION → bytes.now ≡ number_text n rest → result ≡ true }
    ensures this { (rest : List ℕ) → bytes.now ≡ number_text RECORD_VERSION rest → result ≡ false }
{
    let mut reader = RecordReader {
        reader: Reader::new(bytes),
        is_whole: true,
    };
    let version = reader.number();
    reader.is_whole && version != RECORD_VERSION
}

/// What stands in front of a record, and all that follows it.
#[derive(Clone, Copy)]
pub(crate) struct Waits<'a> {
    /// How many bytes more are wanted before anything comes of them.
    pub(crate) missing: u32,
    /// The bytes of the unfinished line or packet.
    pub(crate) held: &'a [u8],
    /// What follows.
    pub(crate) rest: &'a [u8],
}

/// What stands in front of these bytes, if they begin as a record of this version.
pub(crate) fn waits_in(bytes: &[u8]) -> Option<Waits<'_>>
    ensures { (missing : ℕ) (held rest : List ℕ) → missing < 2 ^ 32 → IsShort held → bytes.now ≡ waits_text missing held rest
        → MatchOption result ⊥ (λ w. (w.missing ≡ missing) × (w.held.now ≡ held) × (w.rest.now ≡ rest)) }
{
    let mut reader = RecordReader {
        reader: Reader::new(bytes),
        is_whole: true,
    };
    reader.version();
    let missing = reader.number();
    let held = reader.bytes();
    if !reader.is_whole {
        return None;
    }
    Some(Waits {
        missing,
        held,
        rest: reader.reader.rest(),
    })
}

/// What a record has, if these bytes are one, and nothing else.
pub(crate) fn record_in(bytes: &[u8]) -> Option<RecordParts<'_>>
    ensures { (r : RecordData) → FitsRecord r → bytes.now ≡ record_bytes r → option_map record_data result ≡ Some r }
{
    let mut reader = RecordReader {
        reader: Reader::new(bytes),
        is_whole: true,
    };
    let record = reader.record();
    if !reader.is_whole {
        return None;
    }
    if !reader.reader.rest().is_empty() {
        return None;
    }
    Some(record)
}
