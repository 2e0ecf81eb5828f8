//! The interface to cryptography.

ghost use Rattle.std.specs.Prelude.{◌≡◌, ◌<◌, ◌^◌, IfOk, length, option_map};
ghost use Rattle.sshwire.specs.Types.{IsName};
ghost use Rattle.sshpacket.specs.Suite.{IsAgreeing, IsLawful, SuiteData, advanced, response_data};

use crate::keys::Keys;
use sshwire::{Memory, ShareForm};
use std::alloc::Global;

/// What a key exchange method needs of the host key (RFC 4253 section 7.1).
#[derive(Clone, Copy, Debug, PartialEq, Eq)]
pub enum Need {
    /// A host key that signs.
    Signature,
    /// A host key that encrypts.
    Encryption,
}

/// What a host key algorithm can do.
#[derive(Clone, Copy, Debug, PartialEq, Eq)]
pub struct Capability {
    /// It signs.
    pub signature: bool,
    /// It encrypts.
    pub encryption: bool,
}

/// The lengths of keys in bytes, each at most `KEY_LIMIT`.
#[derive(Clone, Copy, Debug, PartialEq, Eq)]
pub struct KeyLens {
    /// Of the initialisation vector.
    pub iv: u8,
    /// Of the encryption key.
    pub enc: u8,
    /// Of the integrity key.
    pub mac: u8,
}

/// A server's answer to a client's share. It can't be printed, since it holds the shared secret.
#[derive(Drop)]
pub struct Response {
    /// The server's share.
    pub share: Vec<u8>,
    /// The shared secret.
    pub shared: Vec<u8>,
}

/// A suite of algorithms: all cryptography that SSH up to authentication asks for.
///
/// Who writes a suite gives it a *meaning*, one function on byte lists for each call, and shows that
/// the calls answer what the meaning says and that the meaning has the *laws* (`IsLawful`). What is
/// proved above is proved for every suite with the laws.
///
/// - Every name has a behaviour: a call is made with any name of RFC 4251 section 6, also of an
///   algorithm that the suite doesn't know, and with keys of any length, none included. Outside the
///   conditions of the calls the meaning may be anything that has the laws.
/// - Sealing adds the tag, leaves the length field readable from the first four bytes, and is undone
///   by unsealing with the same keys and number; else no packet that is sent could be read. What
///   unsealing gives has the length that was read from the first four bytes, whoever sent it: a
///   reader stands on it.
/// - A cipher may go on where the packet before it ended: after each packet `advance` makes the keys of the next one, of those
///   and of how many bytes it had, on both sides alike. [`PacketReader`](crate::PacketReader) and
///   [`write_next`](crate::write_next) call it; who calls [`write_sealed`](crate::write_sealed) has to, else a key stream comes again.
/// - Shares, and what both sides share, are mpints or bytes, by the method's form ([`ShareForm`]), of
///   at most `SHARE_LIMIT` bytes, and the ranges that each call names hold: so every message and packet keeps
///   its bounds. A number is positive; what both sides share may be zero where the shares are bytes.
/// - Padding, sealed packets and shares are bytes, that is numbers below 256, and so is what is made
///   of whatever bytes came in: what is sent is known to be bytes before any call has made it.
/// - Each answer depends on its arguments alone: the meaning is a function, in which the call `public`
///   is `share`. So ECDSA has to sign by RFC 6979, whose nonce comes from the key and the input, and a
///   hybrid draws all its keys from the 32 random bytes by a function.
///
/// The laws can't see strength:
///
/// - An unknown cipher must not mean none, though a cipher that changes nothing has the laws of sealing.
/// - What is no private key of its algorithm, or of an algorithm that the suite doesn't know, must not
///   be given a blob that verifies everything, nor a signature that anyone can make. An endpoint asks the suite to
///   sign by keys that it holds alone, and tells the blob of others: that of a private key in a wrong form must
///   not be the key.
/// - A number comes again after 2^32 packets, with the same keys where `advance` leaves them as they are.
/// - A MAC is chosen and named also for a cipher with a tag of its own, and is then ignored by the
///   suite.
///
/// What a suite shall refuse, which no law can ask of it:
///
/// - In `shared` and `respond`: a share of another length than the method's, one of small order, of which
///   everyone knows what comes of it (RFC 7748 section 6.1, RFC 8731 section 3), a point that isn't on its
///   curve (RFC 5656 section 4), and a number that isn't from 1 to p - 1 (RFC 4253 section 8). They answer
///   none, and the endpoint fails as F9.
/// - In `verify`: a blob of another algorithm's key, a signature whose inner name is another one, bytes
///   after the last field of either, and every signature of an algorithm that it doesn't know. A blob of
///   rsa-sha2-256 is named ssh-rsa, its signature rsa-sha2-256 (RFC 8332 section 3). Nothing else compares
///   these names: an endpoint hands on the name that was chosen, or that stands in a request, and blobs and
///   signatures as they came.
/// - In `unseal`: a wrong tag, before anything is looked at that was deciphered, and in a time that doesn't
///   tell where the tags differ.
///
/// What is deployed, and whether it fits:
///
/// | Algorithms | Fit |
/// |---|---|
/// | chacha20-poly1305@openssh.com | yes |
/// | aes128-gcm@openssh.com, aes256-gcm@openssh.com | yes: `advance` raises the counter in the nonce. By the packet's number alone only where both sides are strict |
/// | aes128-ctr and each other -ctr | yes: `advance` raises the counter by the packet's blocks |
/// | each -cbc | no: a packet depends on the bytes that were sealed before it, and `advance` is told only how many there were |
/// | hmac-sha2-256, hmac-sha2-256-etm@openssh.com, umac-64@openssh.com and their like | yes, beside -ctr |
/// | curve25519-sha256, curve448-sha512 (RFC 8731), ecdh-sha2-nistp256 and its like (RFC 5656), diffie-hellman-group14-sha256 and its like (RFC 8268), mlkem768x25519-sha256, sntrup761x25519-sha512 | yes |
/// | group exchange (RFC 4419), RSA key exchange (RFC 4432), GSS-API (RFC 4462) | no: they have other messages |
/// | ssh-ed25519, ssh-ed448, ecdsa-sha2-nistp256 and its like, rsa-sha2-256, rsa-sha2-512 | yes |
/// | keys on a token (sk-ssh-ed25519@openssh.com) | `verify` does; `sign` doesn't, since each signature has a counter in it |
pub trait Suite {
    ghost meaning: { Self → SuiteData };

    /// What a key exchange method needs of the host key.
    fn need(&self, kex: &str) -> Need
        requires { IsName kex.now }
        ensures { result ≡ (meaning self.now).need kex.now };

    /// What a host key algorithm can do.
    fn can(&self, host_key: &str) -> Capability
        requires { IsName host_key.now }
        ensures { result ≡ (meaning self.now).can host_key.now };

    /// The block of a cipher in bytes, 8 to `BLOCK_LIMIT`.
    fn block(&self, cipher: &str) -> u8
        requires { IsName cipher.now }
        ensures { result ≡ (meaning self.now).block cipher.now };

    /// The length of the tag in bytes, at most `TAG_LIMIT`.
    fn tag_len(&self, cipher: &str, mac: &str) -> u8
        requires cipher { IsName cipher.now }
        requires mac { IsName mac.now }
        ensures { result ≡ (meaning self.now).tag_len cipher.now mac.now };

    /// Whether the four bytes of packet_length count towards the multiple of the block. They do by RFC
    /// 4253 section 6; they don't in AES-GCM (RFC 5647 section 7.2), in chacha20-poly1305@openssh.com,
    /// and with the MACs -etm of OpenSSH PROTOCOL, such as hmac-sha2-256-etm@openssh.com.
    fn counts_length(&self, cipher: &str, mac: &str) -> bool
        requires cipher { IsName cipher.now }
        requires mac { IsName mac.now }
        ensures { result ≡ (meaning self.now).counts_length cipher.now mac.now };

    /// The lengths of the keys.
    fn key_lens(&self, cipher: &str, mac: &str) -> KeyLens
        requires cipher { IsName cipher.now }
        requires mac { IsName mac.now }
        ensures { result ≡ (meaning self.now).key_lens cipher.now mac.now };

    /// The sealed packet with its tag, of a clear packet with this number. `Memory` where an allocation
    /// failed, as with every call below that makes a vector.
    fn seal(&self, alloc: Global, keys: &Keys, seq: u32, packet: &[u8]) -> Result<Vec<u8>, Memory>
        requires { length packet.now < 2 ^ 32 }
        ensures { IfOk result (λ v. v.items ≡ (meaning self.now).seal keys.now seq packet.now) };

    /// The packet_length of a sealed packet with this number, from its first four bytes.
    fn head(&self, keys: &Keys, seq: u32, first: [u8; 4]) -> u32
        ensures { result ≡ (meaning self.now).head keys.now seq first };

    /// The clear packet without its tag, of a sealed one with this number; none where the tag isn't
    /// that of the packet.
    fn unseal(
        &self,
        alloc: Global,
        keys: &Keys,
        seq: u32,
        sealed: &[u8],
    ) -> Result<Option<Vec<u8>>, Memory>
        requires { length sealed.now < 2 ^ 32 }
        ensures { IfOk result (λ o. option_map (λ v. v.items) o ≡ (meaning self.now).unseal keys.now seq sealed.now) };

    /// Makes the keys of the next packet of those of a packet of so many bytes, its tag among them: the
    /// initialisation vector may be another one of the same length. A cipher whose packets don't depend on those
    /// before them does nothing here. It takes no memory.
    fn advance(&self, keys: &mut Keys, len: usize)
        ensures next { keys.new ≡ advanced (meaning self.now) keys.old len }
        ensures length { length keys.new.iv ≡ length keys.old.iv };

    /// So many bytes of padding for the packet with this number.
    fn padding(&self, alloc: Global, seed: &[u8], seq: u32, len: u8) -> Result<Vec<u8>, Memory>
        requires { length seed.now < 2 ^ 32 }
        ensures { IfOk result (λ v. v.items ≡ (meaning self.now).padding seed.now seq len) };

    /// The form of a method's shares, the client's and the server's alike, and of what both share: of
    /// curve25519-sha256 it is `OctetString` (RFC 8731 section 3).
    fn share_form(&self, kex: &str) -> ShareForm
        requires { IsName kex.now }
        ensures { result ≡ (meaning self.now).share_form kex.now };

    /// The client's share in the key exchange from 32 random bytes (RFC 4253 section 8: e), as the body
    /// of an mpint or as bytes, by the method's form.
    fn public(&self, alloc: Global, kex: &str, random: &[u8]) -> Result<Vec<u8>, Memory>
        requires kex { IsName kex.now }
        requires random { length random.now ≡ 32 }
        ensures { IfOk result (λ v. v.items ≡ (meaning self.now).share kex.now random.now) };

    /// The client's shared secret (RFC 4253 section 8: K), from the same random bytes and the share that
    /// the server answered; none where that is refused.
    fn shared(
        &self,
        alloc: Global,
        kex: &str,
        random: &[u8],
        peer: &[u8],
    ) -> Result<Option<Vec<u8>>, Memory>
        requires kex { IsName kex.now }
        requires random { length random.now ≡ 32 }
        requires peer { length peer.now < 2 ^ 32 }
        ensures { IfOk result (λ o. option_map (λ v. v.items) o ≡ (meaning self.now).shared kex.now random.now peer.now) };

    /// The server's share and its shared secret, from 32 random bytes and the client's share; none
    /// where that is refused. In a Diffie-Hellman they are `public` of the random bytes and `shared`
    /// with the client's share (RFC 4253 section 8); in mlkem768x25519-sha256
    /// (draft-ietf-sshm-mlkem-hybrid-kex) the server's share depends on the client's.
    fn respond(
        &self,
        alloc: Global,
        kex: &str,
        random: &[u8],
        peer: &[u8],
    ) -> Result<Option<Response>, Memory>
        requires kex { IsName kex.now }
        requires random { length random.now ≡ 32 }
        requires peer { length peer.now < 2 ^ 32 }
        ensures { IfOk result (λ o. option_map (λ r. response_data r) o ≡ (meaning self.now).respond kex.now random.now peer.now) };

    /// The hash of a key exchange method, 1 to `DIGEST_LIMIT` bytes, as many for every input.
    fn digest(&self, alloc: Global, kex: &str, input: &[u8]) -> Result<Vec<u8>, Memory>
        requires kex { IsName kex.now }
        requires input { length input.now < 2 ^ 32 }
        ensures { IfOk result (λ v. v.items ≡ (meaning self.now).digest kex.now input.now) };

    /// The public key of a private key, at most `BLOB_LIMIT` bytes.
    fn blob(&self, alloc: Global, algorithm: &str, private_key: &[u8]) -> Result<Vec<u8>, Memory>
        requires algorithm { IsName algorithm.now }
        requires private_key { length private_key.now < 2 ^ 32 }
        ensures { IfOk result (λ v. v.items ≡ (meaning self.now).blob algorithm.now private_key.now) };

    /// Whether these bytes are a private key of this algorithm, as the suite has it, with which `sign` signs. Where they
    /// aren't, they stand for a key that is held elsewhere, by an agent, on a token or in a module of hardware: then they
    /// are its public key, which `blob` answers, and whoever runs an endpoint is asked for each signature. A suite's `blob`
    /// should tell nothing of other bytes, which may be a private key in a wrong form
    /// ([`copy_public_key`](crate::copy_public_key)).
    fn holds(&self, algorithm: &str, private_key: &[u8]) -> bool
        requires algorithm { IsName algorithm.now }
        requires private_key { length private_key.now < 2 ^ 32 }
        ensures { result ≡ (meaning self.now).holds algorithm.now private_key.now };

    /// A signature of the input, at most `SIGNATURE_LIMIT` bytes with its wrapping (RFC 4253 section 6.6).
    fn sign(
        &self,
        alloc: Global,
        algorithm: &str,
        private_key: &[u8],
        input: &[u8],
    ) -> Result<Vec<u8>, Memory>
        requires algorithm { IsName algorithm.now }
        requires private_key { length private_key.now < 2 ^ 32 }
        requires input { length input.now < 2 ^ 32 }
        ensures { IfOk result (λ v. v.items ≡ (meaning self.now).sign algorithm.now private_key.now input.now) };

    /// Whether the signature is that of the input by the key of this blob.
    fn verify(
        &self,
        alloc: Global,
        algorithm: &str,
        blob: &[u8],
        input: &[u8],
        signature: &[u8],
    ) -> Result<bool, Memory>
        requires algorithm { IsName algorithm.now }
        requires blob { length blob.now < 2 ^ 32 }
        requires input { length input.now < 2 ^ 32 }
        requires signature { length signature.now < 2 ^ 32 }
        ensures { IfOk result (λ b. b ≡ (meaning self.now).verify algorithm.now blob.now input.now signature.now) };

    ghost lawful: { (s : Self) → IsLawful (meaning s) };
}

/// A suite of which two ends understand each other: they come to one shared secret, it holds every private key, and a
/// signature is verified by its own key's blob. What is proved of one end needs none of it.
///
/// Not every suite is one: decapsulation in ML-KEM fails for a few random bytes, and not all secrets
/// are keys. Of one method with two random values the condition is `Agrees`, of one secret `Signs`.
pub trait AgreeingSuite: Suite {
    ghost agrees: { (s : Self) → IsAgreeing (Self.Suite.meaning s) };
}
