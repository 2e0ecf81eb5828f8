//! What the layers above may rest on: lines and data types as a claim and as a function are one.

ghost use Rattle.std.specs.Prelude.{◌≡◌, ◌<◌, ◌+◌, ◌++◌, ◌∷◌, ◌↔◌, ℕ, Bool, List, Ok, [], drop, length, take, true};
ghost use Rattle.std.specs.List.{sum_by};
ghost use Rattle.sshwire.specs.declared.fault.WireFault.{WireFault};
ghost use Rattle.sshwire.specs.declared.line_form.LineForm.{LineForm};
ghost use Rattle.sshwire.specs.declared.line_form.ReadBy.{ReadBy};
ghost use Rattle.sshwire.specs.Lines.{IsDeployedText, IsTextBy, IsVersionText, LineOpen, LineRefused, LineRefusedBy, Preamble, PreambleBy};
ghost use Rattle.sshwire.specs.Meaning.{IsLeftOf, ReadingMeans, ReadingMeansBy};
ghost use Rattle.sshwire.specs.TypeReadings.{IsReading, boolean_at, is_canonical, is_name, mpint_at, names_at, names_in, string_at, uint32_at};
ghost use Rattle.sshwire.specs.Types.{AreNames, BooleanText, IsBytes, IsName, IsShortestBody, MpintText, NameListText, StringText, Uint32Text, boolean, names_body, signed_value, uint32};
ghost use Rattle.sshwire.specs.TypeRefusals.{BooleanRefused, MpintRefused, NameListRefused, RefusesExactly, StringRefused, Uint32Refused};
ghost use Rattle.sshwire.specs.Reading.{Reading, Got, More, Stop, is_deployed_text, is_version_text, reading, reading_by, then_on, then_on_by};

/// The law of version lines (RFC 4253 section 4.2): what bytes read as is what they mean, and
/// nothing else.
pub fn reading_law()
    // What is read stands there, and what stands there is read.
    ensures sound { (k : ℕ) (bytes : List ℕ) → ReadingMeans k bytes (reading k [] bytes) }
    ensures complete { (k : ℕ) (bytes : List ℕ) (r : Reading) → ReadingMeans k bytes r → reading k [] bytes ≡ r }

    // No two outcomes hold of one input.
    ensures one { (k : ℕ) (bytes : List ℕ) (r s : Reading) → ReadingMeans k bytes r → ReadingMeans k bytes s → r ≡ s }

    // What stands after a preamble lies within the bytes, and so does a refused byte.
    ensures after { (k : ℕ) (bytes text rest : List ℕ) → reading k [] bytes ≡ Got text rest → IsLeftOf bytes rest }
    ensures within { (k : ℕ) (bytes : List ℕ) (place : ℕ) (code : WireFault) → LineRefused k bytes place code → place < length bytes }

    // A cut changes nothing; a refusal stays, whatever follows.
    ensures cut { (k : ℕ) (bytes more : List ℕ) → reading k [] (bytes ++ more) ≡ then_on (reading k [] bytes) more }
    ensures stays { (k : ℕ) (bytes more : List ℕ) (place : ℕ) (code : WireFault) → LineRefused k bytes place code
        → LineRefused k (bytes ++ more) place code }

    // What was read up to a refusal is enough to refuse.
    ensures used { (k : ℕ) (bytes : List ℕ) (code : WireFault) (rest : List ℕ) → reading k [] bytes ≡ Stop code rest
        → (used : List ℕ) × (bytes ≡ used ++ rest) × (reading k [] used ≡ Stop code []) }

    // Before the first byte nothing was read; a preamble is read as its version, whatever follows.
    ensures nothing { (k : ℕ) → LineOpen k [] k [] }
    ensures written { (k : ℕ) (text front rest : List ℕ) → Preamble k text front → reading k [] (front ++ rest) ≡ Got text rest }
{}

/// The law of version lines by any form: what bytes read as is what they mean, and nothing else, as by the
/// letter; and deployed peers' form reads all that the letter reads, and reads it the same.
pub fn reading_by_law()
    // What is read stands there, and what stands there is read.
    ensures sound { (form : LineForm) (k : ℕ) (bytes : List ℕ) → ReadingMeansBy form k bytes (reading_by form k [] bytes) }
    ensures complete { (form : LineForm) (k : ℕ) (bytes : List ℕ) (r : Reading) → ReadingMeansBy form k bytes r → reading_by form k [] bytes ≡ r }

    // No two outcomes hold of one input.
    ensures one { (form : LineForm) (k : ℕ) (bytes : List ℕ) (r s : Reading) → ReadingMeansBy form k bytes r → ReadingMeansBy form k bytes s → r ≡ s }

    // What stands after a preamble lies within the bytes, and so does a refused byte.
    ensures after { (form : LineForm) (k : ℕ) (bytes text rest : List ℕ) → reading_by form k [] bytes ≡ Got text rest → IsLeftOf bytes rest }
    ensures within { (form : LineForm) (k : ℕ) (bytes : List ℕ) (place : ℕ) (code : WireFault) → LineRefusedBy form k bytes place code → place < length bytes }

    // A cut changes nothing; a refusal stays, whatever follows.
    ensures cut { (form : LineForm) (k : ℕ) (bytes more : List ℕ) → reading_by form k [] (bytes ++ more) ≡ then_on_by form (reading_by form k [] bytes) more }
    ensures stays { (form : LineForm) (k : ℕ) (bytes more : List ℕ) (place : ℕ) (code : WireFault) → LineRefusedBy form k bytes place code
        → LineRefusedBy form k (bytes ++ more) place code }

    // What was read up to a refusal is enough to refuse.
    ensures used { (form : LineForm) (k : ℕ) (bytes : List ℕ) (code : WireFault) (rest : List ℕ) → reading_by form k [] bytes ≡ Stop code rest
        → (used : List ℕ) × (bytes ≡ used ++ rest) × (reading_by form k [] used ≡ Stop code []) }

    // A preamble is read as its version, whatever follows.
    ensures written { (form : LineForm) (k : ℕ) (text front rest : List ℕ) → PreambleBy form k text front → reading_by form k [] (front ++ rest) ≡ Got text rest }

    // What is a preamble by the letter is one by each form, and what is read by the letter is read so by each; what a form
    // refuses the letter refuses, at the same place by the same code.
    ensures wider_preamble { (form : LineForm) (k : ℕ) (text bytes : List ℕ) → Preamble k text bytes → PreambleBy form k text bytes }
    ensures wider { (form : LineForm) (k : ℕ) (bytes text rest : List ℕ) → reading k [] bytes ≡ Got text rest → reading_by form k [] bytes ≡ Got text rest }
    ensures refuses { (form : LineForm) (k : ℕ) (bytes : List ℕ) (place : ℕ) (code : WireFault) → LineRefusedBy form k bytes place code → LineRefused k bytes place code }

    // A text of any form is one that a client reads of a deployed peer; the test says so exactly of such texts.
    ensures widest { (form : LineForm) (text : List ℕ) → IsTextBy form text → IsDeployedText ReadBy.Client text }
    ensures text { (by : ReadBy) (text : List ℕ) → (is_deployed_text by text ≡ true) ↔ IsDeployedText by text }
{}

/// The law of data types (RFC 4251 sections 5 and 6): what is read stands at the front, what stands
/// there is read, whatever follows, and no two readings hold of one prefix.
pub fn types_law()
    ensures boolean { IsReading BooleanText boolean_at }
    ensures uint32 { IsReading Uint32Text uint32_at }
    ensures string { IsReading StringText string_at }
    ensures mpint { IsReading MpintText mpint_at }
    ensures name_list { IsReading NameListText names_at }

    // Bytes are refused exactly where no value stands at the front, and each code has its reason.
    ensures boolean_refused { RefusesExactly BooleanRefused boolean_at }
    ensures uint32_refused { RefusesExactly Uint32Refused uint32_at }
    ensures string_refused { RefusesExactly StringRefused string_at }
    ensures mpint_refused { RefusesExactly MpintRefused mpint_at }
    ensures name_list_refused { RefusesExactly NameListRefused names_at }

    // What is written for a boolean stands for it.
    ensures written { (value : Bool) → BooleanText value (boolean value) }
    // The body of an mpint is the shortest of its number exactly where the test says so.
    ensures canonical { (body : List ℕ) → IsBytes body → (is_canonical body ≡ true) ↔ IsShortestBody body }
    // Names are read from the body that they have, and from no other.
    ensures names { (names : List (List ℕ)) → AreNames names → names_in (names_body names) ≡ Ok names }
    ensures names_sound { (body : List ℕ) (names : List (List ℕ)) → names_in body ≡ Ok names → AreNames names × (body ≡ names_body names) }

    // One number has one text as a uint32 and one body as an mpint.
    ensures unique_uint32 { (n : ℕ) (text other : List ℕ) → Uint32Text n text → Uint32Text n other → text ≡ other }
    ensures unique_mpint { (body other : List ℕ) → IsBytes body → IsBytes other → IsShortestBody body → IsShortestBody other
        → signed_value body ≡ signed_value other → body ≡ other }
{}

/// The law of bytes: what is cut from bytes, and what is put together of bytes, is bytes.
pub fn bytes_law()
    ensures take { (n : ℕ) (bytes : List ℕ) → IsBytes bytes → IsBytes (take n bytes) }
    ensures drop { (n : ℕ) (bytes : List ℕ) → IsBytes bytes → IsBytes (drop n bytes) }
    ensures append { (bytes more : List ℕ) → IsBytes bytes → IsBytes more → IsBytes (bytes ++ more) }
    ensures cons { (b : ℕ) (bytes : List ℕ) → b < 256 → IsBytes bytes → IsBytes (b ∷ bytes) }
    ensures uint32 { (n : ℕ) → IsBytes (uint32 n) }
{}

/// The law of names and texts: the tests say so exactly of names and of the texts of version lines, and
/// a list's text has the bytes of its names and a comma between each two. Takes no memory.
pub fn names_law()
    ensures name { (name : List ℕ) → (is_name name ≡ true) ↔ IsName name }
    ensures version { (text : List ℕ) → (is_version_text text ≡ true) ↔ IsVersionText text }
    ensures body { (name : List ℕ) (names : List (List ℕ)) → length (names_body (name ∷ names)) + 1 ≡ sum_by (λ n. length n + 1) (name ∷ names) }
{}
