//! Why a file has no private key that can be used.

/// Why a file has no private key that can be used.
#[derive(Clone, Copy, Debug, PartialEq, Eq)]
pub enum IdentityFault {
    /// It is a public key.
    Public,
    /// It is a private key in another form than OpenSSH's, as PEM.
    OtherForm,
    /// It has a passphrase.
    Encrypted,
    /// Its key is one of RSA.
    Rsa,
    /// Its key is one of ECDSA.
    Ecdsa,
    /// Its key is of another kind.
    OtherKind,
    /// It has more keys than one, or none.
    Several,
    /// It ends too early.
    Cut,
    /// Its public key isn't that of its private one.
    Halves,
    /// What fills it up is wrong, or bytes stand after its key.
    Padding,
    /// It is none of these, and no private key.
    Form,
}

impl IdentityFault {
    /// What is told of the file, after its name.
    pub fn words(&self) -> &'static str {
        match self {
            IdentityFault::Public => "is a public key, where a private one is wanted",
            IdentityFault::OtherForm => "has a key in another form (PEM) than OpenSSH's",
            IdentityFault::Encrypted => "has a passphrase, and no key with one can be read",
            IdentityFault::Rsa => "has a key of RSA, where one of ssh-ed25519 is wanted",
            IdentityFault::Ecdsa => "has a key of ECDSA, where one of ssh-ed25519 is wanted",
            IdentityFault::OtherKind => {
                "has a key of another kind, where one of ssh-ed25519 is wanted"
            }
            IdentityFault::Several => "hasn't just one key",
            IdentityFault::Cut => "is cut off",
            IdentityFault::Halves => "has a public key that isn't that of its private one",
            IdentityFault::Padding => "has wrong padding, or bytes after its key",
            IdentityFault::Form => "has no private key in OpenSSH's form",
        }
    }
}
