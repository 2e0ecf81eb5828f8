//! What the layers above may rest on: places of lists, readers of one unit, and streams of units.

ghost use Rattle.std.specs.Prelude.{◌≡◌, ◌≤◌, ◌+◌, ℕ, Bool, true, if◌then◌else◌, List, [], ◌∷◌, ◌++◌, length, drop, take, Option, None, Some, Result};
ghost use Rattle.sshwire.specs.declared.fault.WireFault.{WireFault};
ghost use Rattle.sshwire.specs.declared.line_form.LineForm.{LineForm};
ghost use Rattle.sshwire.specs.declared.line_reader.LineStep.{LineStep};
ghost use Rattle.sshwire.specs.Feeding.{PreambleAnswer, PreambleAnswerBy, StandsOpen};
ghost use Rattle.sshwire.specs.LineReaderData.{LineReaderData, Progress};
ghost use Rattle.sshwire.specs.Lines.{Preamble, PreambleBy};
ghost use Rattle.sshwire.specs.Types.{IsBytes};
ghost use Rattle.sshpacket.specs.declared.fault.PacketFault.{PacketFault};
ghost use Rattle.sshpacket.specs.declared.reader.PacketReader.{PacketReader};
ghost use Rattle.sshpacket.specs.declared.reader.PacketStep.{PacketStep};
ghost use Rattle.sshpacket.specs.Parse.{Parse, Refusal, ProtectionData, parse_packet, refused, unfinished, whole};
ghost use Rattle.sshpacket.specs.Receiving.{ReceivesLinesOn, ReceivesOn};
ghost use Rattle.sshpacket.specs.Joined.{Joined};
ghost use Rattle.sshpacket.specs.PreambleParser.{PreambleMeans, PreambleMeansBy, preamble_parser, preamble_parser_by};
ghost use Rattle.sshpacket.specs.Places.{EachPlace, IsPrefix, after_first, count_places, first_where, flat_places, stands};
ghost use Rattle.sshpacket.specs.PacketReaderData.{PacketReaderData, ParseAnswer, ReaderLeaves, protection_at};
ghost use Rattle.sshpacket.specs.Stream.{IsIncremental, IsRest, Linked, Parsers, Read, Received, ReceivedAll, Same, Sent, Spelled, Units, sizes_of};
ghost use Rattle.sshpacket.specs.Suite.{SuiteData};
ghost use Rattle.sshpacket.specs.ProtectedPacket.{IsFaithful};

/// The law of places: what one more unit at the end of a list changes, and more units. The same
/// holds for lists of anything; the lemmas in `proofs/Places.antt` say so.
///
/// What holds at each place (`EachPlace`) has laws that no clause can state, since they are about any
/// property. They are the lemmas of that file (`each-push`, `each-append`, `each-prefix`, `each-shift`,
/// `each-from`), and the one place of this crate's proofs that the crates above cite.
pub fn places_law()
    // One more unit at the end.
    ensures stands_push { (t : Units → List ℕ → Bool) (before us : Units) (u : List ℕ)
        → stands t before (us ++ u ∷ []) ≡ (if stands t before us then true else t (before ++ us) u) }
    ensures first_push { (other : List ℕ) (t : Units → List ℕ → Bool) (before us : Units) (u : List ℕ)
        → first_where other t before (us ++ u ∷ []) ≡ (if stands t before us then first_where other t before us else if t (before ++ us) u then u else other) }
    ensures after_push { (t : Units → List ℕ → Bool) (before us : Units) (u : List ℕ)
        → after_first t before (us ++ u ∷ []) ≡ (if stands t before us then after_first t before us ++ u ∷ [] else []) }
    ensures count_push { (t : Units → List ℕ → Bool) (before us : Units) (u : List ℕ)
        → count_places t before (us ++ u ∷ []) ≡ (if t (before ++ us) u then count_places t before us + 1 else count_places t before us) }
    ensures bytes_push { (f : Units → List ℕ → List ℕ) (before us : Units) (u : List ℕ)
        → flat_places f before (us ++ u ∷ []) ≡ flat_places f before us ++ f (before ++ us) u }
    ensures units_push { (f : Units → List ℕ → Units) (before us : Units) (u : List ℕ)
        → flat_places f before (us ++ u ∷ []) ≡ flat_places f before us ++ f (before ++ us) u }

    // More units after them.
    ensures stands_append { (t : Units → List ℕ → Bool) (before us more : Units)
        → stands t before (us ++ more) ≡ (if stands t before us then true else stands t (before ++ us) more) }
    ensures first_append { (other : List ℕ) (t : Units → List ℕ → Bool) (before us more : Units)
        → first_where other t before (us ++ more) ≡ (if stands t before us then first_where other t before us else first_where other t (before ++ us) more) }
    ensures after_append { (t : Units → List ℕ → Bool) (before us more : Units)
        → after_first t before (us ++ more) ≡ (if stands t before us then after_first t before us ++ more else after_first t (before ++ us) more) }
    ensures count_append { (t : Units → List ℕ → Bool) (before us more : Units)
        → count_places t before (us ++ more) ≡ count_places t before us + count_places t (before ++ us) more }
    ensures bytes_append { (f : Units → List ℕ → List ℕ) (before us more : Units)
        → flat_places f before (us ++ more) ≡ flat_places f before us ++ flat_places f (before ++ us) more }
    ensures units_append { (f : Units → List ℕ → Units) (before us more : Units)
        → flat_places f before (us ++ more) ≡ flat_places f before us ++ flat_places f (before ++ us) more }

    // What stands in a prefix stands in the whole, and first.
    ensures stands_front { (t : Units → List ℕ → Bool) (us all : Units) → IsPrefix us all → stands t [] us ≡ true → stands t [] all ≡ true }
    ensures first_front { (other : List ℕ) (t : Units → List ℕ → Bool) (us all : Units) → IsPrefix us all → stands t [] us ≡ true
        → first_where other t [] all ≡ first_where other t [] us }
{}

/// The law of readers of one unit: however the bytes are cut, packets (RFC 4253 section 6) and the
/// lines before them (section 4.2) are read as one unit, or refused, at one place.
pub fn parser_law()
    ensures packets { (w : ProtectionData) → IsIncremental (parse_packet w) }
    ensures lines { (k : ℕ) → IsIncremental (preamble_parser k) }

    // What is read of lines stands there, and what stands there is read: a preamble as its version, whatever follows.
    ensures found { (k : ℕ) (bytes : List ℕ) → PreambleMeans k bytes (preamble_parser k bytes) }
    ensures only { (k : ℕ) (bytes : List ℕ) (f : Parse) → PreambleMeans k bytes f → preamble_parser k bytes ≡ f }
    ensures preamble { (k : ℕ) (text bytes more : List ℕ) → Preamble k text bytes → preamble_parser k (bytes ++ more) ≡ whole text (length bytes) }
{
    sshwire::reading_law();
}

/// The law of readers of one unit, where a form says which lines are version lines: what `parser_law` says,
/// of each form.
pub fn parser_by_law()
    ensures packets { (w : ProtectionData) → IsIncremental (parse_packet w) }
    ensures lines { (form : LineForm) (k : ℕ) → IsIncremental (preamble_parser_by form k) }

    // What is read of lines stands there, and what stands there is read: a preamble as its version, whatever follows.
    ensures found { (form : LineForm) (k : ℕ) (bytes : List ℕ) → PreambleMeansBy form k bytes (preamble_parser_by form k bytes) }
    ensures only { (form : LineForm) (k : ℕ) (bytes : List ℕ) (f : Parse) → PreambleMeansBy form k bytes f → preamble_parser_by form k bytes ≡ f }
    ensures preamble { (form : LineForm) (k : ℕ) (text bytes more : List ℕ) → PreambleBy form k text bytes → preamble_parser_by form k (bytes ++ more) ≡ whole text (length bytes) }

    // What is read by the letter is read so by each form.
    ensures wider { (form : LineForm) (k : ℕ) (bytes text : List ℕ) (len : ℕ) → preamble_parser k bytes ≡ whole text len → preamble_parser_by form k bytes ≡ whole text len }
{
    sshwire::reading_by_law();
}

/// The law of streams: a stream has one reading, which grows with the stream, and what is received of
/// a prefix of what was sent is a prefix of the units sent.
pub fn stream_law()
    ensures one { (parsers : Parsers) (stream : List ℕ) (us vs : Units) (ns ms x y : List ℕ) (r q : Option Refusal)
        → Received parsers stream us ns x r → Received parsers stream vs ms y q → Same us vs x y r q }

    // More bytes after them, and one unit more.
    ensures nothing { (parsers : Parsers) → ((us : Units) (ns : List ℕ) → IsIncremental (parsers us ns)) → Received parsers [] [] [] [] None }
    ensures read_more { (parsers : Parsers) → ((us : Units) (ns : List ℕ) → IsIncremental (parsers us ns)) → (before : Units) (passed bytes more : List ℕ) (us : Units) (ns rest : List ℕ)
        → Read parsers before passed bytes us ns rest → Read parsers before passed (bytes ++ more) us ns (rest ++ more) }
    ensures read_push { (parsers : Parsers) (before : Units) (passed bytes : List ℕ) (us : Units) (ns rest u : List ℕ) (len : ℕ)
        → Read parsers before passed bytes us ns rest → parsers (before ++ us) (passed ++ ns) rest ≡ whole u len
        → Read parsers before passed bytes (us ++ u ∷ []) (ns ++ len ∷ []) (drop len rest) }
    ensures received_more { (parsers : Parsers) → ((us : Units) (ns : List ℕ) → IsIncremental (parsers us ns)) → (stream more : List ℕ) (us : Units) (ns rest : List ℕ) (r q : Option Refusal)
        → Received parsers stream us ns rest r → IsRest (parsers us ns) (rest ++ more) q → Received parsers (stream ++ more) us ns (rest ++ more) q }
    ensures received_push { (parsers : Parsers) → ((us : Units) (ns : List ℕ) → IsIncremental (parsers us ns)) → (stream more : List ℕ) (us : Units) (ns rest u : List ℕ) (r : Option Refusal)
        → Received parsers stream us ns rest r → parsers us ns (rest ++ more) ≡ whole u (length (rest ++ more))
        → Received parsers (stream ++ more) (us ++ u ∷ []) (ns ++ length (rest ++ more) ∷ []) [] None }

    // A piece after the rest, which may go on after what was used of it: it ends a unit, or it
    // is refused, or more bytes are wanted.
    ensures received_unit { (parsers : Parsers) → ((us : Units) (ns : List ℕ) → IsIncremental (parsers us ns)) → (stream piece : List ℕ) (us : Units) (ns rest u : List ℕ) (used : ℕ)
        → Received parsers stream us ns rest None → used ≤ length piece → parsers us ns (rest ++ piece) ≡ whole u (length rest + used)
        → Received parsers (stream ++ take used piece) (us ++ u ∷ []) (ns ++ (length rest + used) ∷ []) [] None }
    ensures received_refusal { (parsers : Parsers) → ((us : Units) (ns : List ℕ) → IsIncremental (parsers us ns)) → (stream piece : List ℕ) (us : Units) (ns rest : List ℕ) (r : Refusal) (used : ℕ)
        → Received parsers stream us ns rest None → used ≤ length piece → parsers us ns (rest ++ piece) ≡ refused r (length rest + used)
        → Received parsers (stream ++ take used piece) us ns (rest ++ take used piece) (Some r) }
    ensures received_part { (parsers : Parsers) → ((us : Units) (ns : List ℕ) → IsIncremental (parsers us ns)) → (stream piece : List ℕ) (us : Units) (ns rest : List ℕ)
        → Received parsers stream us ns rest None → parsers us ns (rest ++ piece) ≡ unfinished → Received parsers (stream ++ piece) us ns (rest ++ piece) None }

    // What is received of a prefix of a stream is a prefix of what is received of it.
    ensures prefix { (parsers : Parsers) → ((us : Units) (ns : List ℕ) → IsIncremental (parsers us ns)) → (stream more : List ℕ) (us vs : Units) (ns ms x y : List ℕ) (r q : Option Refusal)
        → Received parsers stream us ns x r → Received parsers (stream ++ more) vs ms y q → IsPrefix us vs }

    // The link: what was sent is received, a prefix of it as a prefix of its units, and nothing of it is refused.
    ensures again { (parsers : Parsers) (spells : Units → List ℕ → List ℕ) → ((us : Units) (ns : List ℕ) → IsIncremental (parsers us ns))
        → (stream : List ℕ) (sent : Units) → Sent spells stream sent → EachPlace (Spelled parsers spells) [] sent → Received parsers stream sent (sizes_of spells [] sent) [] None }
    ensures link { (parsers : Parsers) (spells : Units → List ℕ → List ℕ) → ((us : Units) (ns : List ℕ) → IsIncremental (parsers us ns))
        → (stream received more : List ℕ) (sent us : Units) (ns rest : List ℕ) (r : Option Refusal)
        → Sent spells stream sent → EachPlace (Spelled parsers spells) [] sent → stream ≡ received ++ more → Received parsers received us ns rest r → Linked us sent r }
    // And the sizes that it is received with are those that it was spelled with.
    ensures sizes { (parsers : Parsers) (spells : Units → List ℕ → List ℕ) → ((us : Units) (ns : List ℕ) → IsIncremental (parsers us ns))
        → (stream received more : List ℕ) (sent us : Units) (ns rest : List ℕ) (r : Option Refusal)
        → Sent spells stream sent → EachPlace (Spelled parsers spells) [] sent → stream ≡ received ++ more → Received parsers received us ns rest r → ns ≡ sizes_of spells [] us }
    ensures all { (parsers : Parsers) (spells : Units → List ℕ → List ℕ) → ((us : Units) (ns : List ℕ) → IsIncremental (parsers us ns))
        → (stream : List ℕ) (sent us : Units) (ns rest : List ℕ) (r : Option Refusal)
        → Sent spells stream sent → EachPlace (Spelled parsers spells) [] sent → Received parsers stream us ns rest r → ReceivedAll us sent rest r }

    // What is sent further is spelled after it.
    ensures sent_push { (spells : Units → List ℕ → List ℕ) (stream : List ℕ) (us : Units) (u : List ℕ)
        → Sent spells stream us → Sent spells (stream ++ spells us u) (us ++ u ∷ []) }
    ensures sent_append { (spells : Units → List ℕ → List ℕ) (stream : List ℕ) (us more : Units)
        → Sent spells stream us → Sent spells (stream ++ flat_places spells us more) (us ++ more) }
    ensures sent_same { (spells others : Units → List ℕ → List ℕ) (stream : List ℕ) (us : Units)
        → EachPlace (λ before u. spells before u ≡ others before u) [] us → Sent spells stream us → Sent others stream us }
{}

/// The law of receiving: a packet reader that stands at the rest of a stream goes on standing there, for
/// each answer of `next`, in whatever pieces the stream comes; and so does a line reader that stands
/// open at the stream, for each answer of `feed`.
///
/// Its premises are what `next` and `feed` ensure of the reader before and after, and that the next unit
/// of the stream is read as the reader reads.
pub fn receiving_law()
    ensures receives { (m : SuiteData) (parsers : Parsers) → ((us : Units) (ns : List ℕ) → IsIncremental (parsers us ns)) → (stream : List ℕ) (us : Units) (ns : List ℕ)
        (old : PacketReaderData) (new : PacketReader) (piece : List ℕ) (result : Result PacketStep PacketFault)
        → Received parsers stream us ns old.held None → parsers us ns ≡ parse_packet (protection_at m old)
        → ParseAnswer m old piece result → ReaderLeaves m old piece result new → ReceivesOn parsers stream us ns old piece result new }

    // A line reader that stands open at the stream has received no unit of it, and all of it is rest.
    ensures stands { (parsers : Parsers) (k : ℕ) (stream : List ℕ) (progress : Progress)
        → parsers [] [] ≡ preamble_parser k → StandsOpen k stream progress → Received parsers stream [] [] stream None }
    ensures receives_lines { (parsers : Parsers) → ((us : Units) (ns : List ℕ) → IsIncremental (parsers us ns)) → (k : ℕ) (stream piece : List ℕ)
        (old : Progress) (new : LineReaderData) (result : Result LineStep WireFault)
        → parsers [] [] ≡ preamble_parser k → StandsOpen k stream old → PreambleAnswer k stream piece result new → ReceivesLinesOn parsers stream piece result new }
{
    parser_law();
}

/// The law of receiving lines that are read by any form: what `receiving_law` says of a `LineReader`, of a
/// `PeerLineReader`, whose answers are those of `feed` in the words of `LineReader::feed` (`answer_of`).
pub fn receiving_by_law()
    ensures stands { (form : LineForm) (parsers : Parsers) (k : ℕ) (stream : List ℕ) (progress : Progress)
        → parsers [] [] ≡ preamble_parser_by form k → StandsOpen k stream progress → Received parsers stream [] [] stream None }
    ensures receives_lines { (form : LineForm) (parsers : Parsers) → ((us : Units) (ns : List ℕ) → IsIncremental (parsers us ns)) → (k : ℕ) (stream piece : List ℕ)
        (old : Progress) (new : LineReaderData) (result : Result LineStep WireFault)
        → parsers [] [] ≡ preamble_parser_by form k → StandsOpen k stream old → PreambleAnswerBy form k stream piece result new → ReceivesLinesOn parsers stream piece result new }
{
    parser_by_law();
}

/// The law of joined packets: what is read of a stream after its version line is packets one after
/// another by the standard's own definition of a packet (RFC 4253 section 6), and nothing else is read.
pub fn joined_law()
    ensures found { (parsers : Parsers) (at : Units → List ℕ → ProtectionData) (version : List ℕ) (len : ℕ) → ((us : Units) (ns : List ℕ) → parsers (version ∷ us) (len ∷ ns) ≡ parse_packet (at us ns))
        → ((us : Units) (ns : List ℕ) → IsFaithful (at us ns))
        → (before : Units) (passed bytes : List ℕ) (ps : Units) (ns rest : List ℕ) → IsBytes bytes → Read parsers (version ∷ before) (len ∷ passed) bytes ps ns rest → Joined at before passed bytes ps rest }
    ensures only { (parsers : Parsers) (at : Units → List ℕ → ProtectionData) (version : List ℕ) (len : ℕ) → ((us : Units) (ns : List ℕ) → parsers (version ∷ us) (len ∷ ns) ≡ parse_packet (at us ns))
        → ((us : Units) (ns : List ℕ) → IsFaithful (at us ns))
        → (before : Units) (passed bytes : List ℕ) (ps : Units) (rest : List ℕ) → IsBytes bytes → Joined at before passed bytes ps rest
        → (ns : List ℕ) × Read parsers (version ∷ before) (len ∷ passed) bytes ps ns rest }
{
    crate::packet_laws::packet_law();
    sshwire::bytes_law();
}
