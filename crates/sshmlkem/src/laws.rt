//! Theorems: the definitions are those of FIPS 203, and what is encapsulated is decapsulated again. No function of the crate
//! calls them.

ghost use Rattle.std.specs.Prelude.{◌≡◌, ◌+◌, ◌*◌, ◌/◌, ◌%◌, ◌<◌, ◌≤◌, ◌↔◌, List, [], ◌∷◌, ◌++◌, ℕ, length, map, replicate, slice_index, take, true};
ghost use Rattle.sshkeccak.specs.Keccak.{each_from};
ghost use Rattle.sshkeccak.specs.Sponge.{shake128_start};
ghost use Rattle.sshmlkem.specs.Bits.{byte_decode, byte_encode};
ghost use Rattle.sshmlkem.specs.Codec.{compressed, decode_1, decode_10, decode_12, decode_4, decompressed, encode_1, encode_10, encode_12, encode_4};
ghost use Rattle.sshmlkem.specs.Kem.{decapsulated, encapsulated, is_key, keys_of};
ghost use Rattle.sshmlkem.specs.KemBytes.{IsBytes};
ghost use Rattle.sshmlkem.specs.Noise.{KeepsBits, are_small, noise_between};
ghost use Rattle.sshmlkem.specs.Ntt.{add_product, gammas, inverse_ntt, ntt, zetas};
ghost use Rattle.sshmlkem.specs.NttLoops.{inverse_ntt_by_loops, ntt_by_loops};
ghost use Rattle.sshmlkem.specs.NttNumbers.{gamma_at, zeta_at};
ghost use Rattle.sshmlkem.specs.Pke.{decode_vector, decrypted, encode_vector, pke_keys};
ghost use Rattle.sshmlkem.specs.Ring.{Combines, IsRing, ring_product};
ghost use Rattle.sshmlkem.specs.Sample.{sample_cbd, sample_ntt};
ghost use Rattle.sshmlkem.specs.Streams.{accepted_of, binomial, first_256, stream};

/// The law of ML-KEM's numbers. The tables of the transform are those of FIPS 203 appendix A (`zetas`, `gammas`). Compression
/// to d bits gives the nearest of 2^d steps of 3329, and of two the upper (`to_10`, `to_4`, `to_1`; FIPS 203 section 4.2.1),
/// and undoes decompression (`from_10`, `from_4`, `from_1`).
pub fn mlkem_law()
    ensures zetas { each_from 0 128 zeta_at ≡ zetas }
    ensures gammas { each_from 0 128 gamma_at ≡ gammas }
    ensures to_10 { (n : ℕ) → compressed 10 n ≡ (2 * (n * 1024) + 3329) / 6658 % 1024 }
    ensures to_4 { (n : ℕ) → compressed 4 n ≡ (2 * (n * 16) + 3329) / 6658 % 16 }
    ensures to_1 { (n : ℕ) → compressed 1 n ≡ (2 * (n * 2) + 3329) / 6658 % 2 }
    ensures from_10 { (n : ℕ) → n < 1024 → compressed 10 (decompressed 10 n) ≡ n }
    ensures from_4 { (n : ℕ) → n < 16 → compressed 4 (decompressed 4 n) ≡ n }
    ensures from_1 { (n : ℕ) → n < 2 → compressed 1 (decompressed 1 n) ≡ n }
{}

/// The law of the transform (FIPS 203 section 4.3). The inverse undoes the transform, and the transform undoes the inverse
/// (`undone`, `back`). The inverse of a product of transforms is the product of the two polynomials modulo X^256 + 1
/// (`product`). The transform and its inverse are linear: where h is c f + d g, number by number, the same is true of what they
/// give (`forward`, `inverse`). Both are those of FIPS 203 algorithms 9 and 10 with their nested loops (`forward_loops`,
/// `inverse_loops`).
pub fn transform_law()
    ensures back { (f : List ℕ) → IsRing f → ntt (inverse_ntt f) ≡ f }
    ensures undone { (f : List ℕ) → IsRing f → inverse_ntt (ntt f) ≡ f }
    ensures product { (f g : List ℕ) → IsRing f → IsRing g
        → inverse_ntt (add_product (replicate 256 0) (ntt f) (ntt g)) ≡ ring_product f g }
    ensures forward { (c d : ℕ) → c < 3329 → d < 3329 → (f g h : List ℕ) → IsRing f → IsRing g → IsRing h
        → Combines c f d g h → Combines c (ntt f) d (ntt g) (ntt h) }
    ensures inverse { (c d : ℕ) → c < 3329 → d < 3329 → (f g h : List ℕ) → IsRing f → IsRing g → IsRing h
        → Combines c f d g h → Combines c (inverse_ntt f) d (inverse_ntt g) (inverse_ntt h) }
    ensures forward_loops { (f : List ℕ) → ntt f ≡ ntt_by_loops f }
    ensures inverse_loops { (f : List ℕ) → IsRing f → inverse_ntt f ≡ inverse_ntt_by_loops f }
{}

/// The law of byte encoding. For each number of bits d that ML-KEM-768 uses, numbers are encoded and bytes are decoded as FIPS
/// 203 algorithms 5 and 6 do it, bit by bit. Numbers of 12 bits are taken modulo q = 3329 after they are decoded; the others
/// are compressed before and decompressed after.
pub fn byte_encoding_law()
    ensures encode_12 { (f : List ℕ) → ((i : ℕ) → slice_index f i < 4096) → encode_12 f ≡ byte_encode 12 f }
    ensures encode_10 { (f : List ℕ) → length f ≡ 256 → encode_10 f ≡ byte_encode 10 (map (compressed 10) f) }
    ensures encode_4 { (f : List ℕ) → length f ≡ 256 → encode_4 f ≡ byte_encode 4 (map (compressed 4) f) }
    ensures encode_1 { (f : List ℕ) → length f ≡ 256 → encode_1 f ≡ byte_encode 1 (map (compressed 1) f) }
    ensures decode_12 { (bytes : List ℕ) → IsBytes bytes → decode_12 bytes ≡ map (λ n. n % 3329) (byte_decode 12 bytes) }
    ensures decode_10 { (bytes : List ℕ) → IsBytes bytes → decode_10 bytes ≡ map (decompressed 10) (byte_decode 10 bytes) }
    ensures decode_4 { (bytes : List ℕ) → IsBytes bytes → decode_4 bytes ≡ map (decompressed 4) (byte_decode 4 bytes) }
    ensures decode_1 { (bytes : List ℕ) → decode_1 bytes ≡ map (decompressed 1) (byte_decode 1 bytes) }
{}

/// The law of encoding. What is encoded by 12 bits is decoded again, if its numbers are below q = 3329 (`of_12`). By 10, 4 and
/// 1 bits each number comes back compressed and decompressed (`of_10`, `of_4`, `of_1`), and bytes that are decoded are encoded
/// again (`back_10`, `back_4`, `back_1`).
pub fn encoding_law()
    ensures of_12 { (f : List ℕ) → length f ≡ 256 → ((i : ℕ) → slice_index f i < 3329) → decode_12 (encode_12 f) ≡ f }
    ensures of_10 { (f : List ℕ) → length f ≡ 256 → decode_10 (encode_10 f) ≡ map (λ n. decompressed 10 (compressed 10 n)) f }
    ensures of_4 { (f : List ℕ) → length f ≡ 256 → decode_4 (encode_4 f) ≡ map (λ n. decompressed 4 (compressed 4 n)) f }
    ensures of_1 { (f : List ℕ) → length f ≡ 256 → decode_1 (encode_1 f) ≡ map (λ n. decompressed 1 (compressed 1 n)) f }
    ensures back_10 { (bytes : List ℕ) → IsBytes bytes → length bytes ≡ 320 → encode_10 (decode_10 bytes) ≡ bytes }
    ensures back_4 { (bytes : List ℕ) → IsBytes bytes → length bytes ≡ 128 → encode_4 (decode_4 bytes) ≡ bytes }
    ensures back_1 { (bytes : List ℕ) → IsBytes bytes → length bytes ≡ 32 → encode_1 (decode_1 bytes) ≡ bytes }
{}

/// The law of keys. Bytes are an encapsulation key exactly if there are 1184 and the first 1152, decoded and encoded again, are
/// the same (`checked`; FIPS 203 section 7.2, the type check and the modulus check). Keys that are generated are such
/// (`generated`).
pub fn key_law()
    ensures checked { (bytes : List ℕ) → IsBytes bytes
        → (is_key bytes ≡ true) ↔ ((length bytes ≡ 1184) × (encode_vector (decode_vector (take 1152 bytes)) ≡ take 1152 bytes)) }
    ensures generated { (d z : List ℕ) → is_key (keys_of d z).encapsulation_key ≡ true }
{}

/// The law of sampling. An entry of the matrix is the first 256 numbers of 12 bits below q in five blocks of SHAKE128, if these
/// have as many (`matrix`; FIPS 203 algorithm 7); else zeros follow (`always`). Small numbers are drawn as FIPS 203 algorithm 8
/// does it, bit by bit (`noise`).
pub fn sampling_law()
    ensures matrix { (seed : List ℕ) (column row : ℕ)
        → 256 ≤ length (accepted_of (stream (shake128_start (seed ++ column ∷ row ∷ [])) 5))
        → sample_ntt seed column row ≡ take 256 (accepted_of (stream (shake128_start (seed ++ column ∷ row ∷ [])) 5)) }
    ensures always { (seed : List ℕ) (column row : ℕ)
        → sample_ntt seed column row ≡ first_256 (accepted_of (stream (shake128_start (seed ++ column ∷ row ∷ [])) 5)) }
    ensures noise { (bytes : List ℕ) → IsBytes bytes → sample_cbd bytes ≡ binomial bytes }
{}

/// The law of agreement. Decapsulation gives the secret that was encapsulated, if the message is decrypted. That it is
/// decrypted isn't true of all seeds and messages: `decryption_law` says exactly when it is.
pub fn agreement_law()
    ensures { (d z m : List ℕ)
        → decrypted (pke_keys d).decryption_key (encapsulated (keys_of d z).encapsulation_key m).ciphertext ≡ m
        → decapsulated (keys_of d z).decapsulation_key (encapsulated (keys_of d z).encapsulation_key m).ciphertext
        ≡ (encapsulated (keys_of d z).encapsulation_key m).secret }
{}

/// The law of decryption (FIPS 203 section 5). A message is decrypted exactly if the noise keeps its bits (`exact`). The noise is
/// a list of 256 numbers, which can be computed from the seed of the keys and the message. If each of them is from -832 to 831
/// modulo q = 3329, which is within a quarter of q, the message is decrypted (`decrypts`), and decapsulation gives the secret
/// that was encapsulated (`agrees`). How many choices have more noise isn't part of the law: FIPS 203 table 1 says that
/// decapsulation fails for less than one in 2^164.
pub fn decryption_law()
    ensures exact { (d z m : List ℕ) → IsBytes m → length m ≡ 32
        → (decrypted (pke_keys d).decryption_key (encapsulated (keys_of d z).encapsulation_key m).ciphertext ≡ m) ↔ KeepsBits m (noise_between d m) }
    ensures decrypts { (d z m : List ℕ) → IsBytes m → length m ≡ 32 → are_small (noise_between d m) ≡ true
        → decrypted (pke_keys d).decryption_key (encapsulated (keys_of d z).encapsulation_key m).ciphertext ≡ m }
    ensures agrees { (d z m : List ℕ) → IsBytes m → length m ≡ 32 → are_small (noise_between d m) ≡ true
        → decapsulated (keys_of d z).decapsulation_key (encapsulated (keys_of d z).encapsulation_key m).ciphertext
        ≡ (encapsulated (keys_of d z).encapsulation_key m).secret }
{}
