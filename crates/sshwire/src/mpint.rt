//! The mpint of RFC 4251 section 5: a number of any size in two's complement.

ghost use Rattle.std.specs.Prelude.{◌≡◌, ◌≢◌, ◌<◌, ◌^◌, IfErr, IfOk, length, true};
ghost use Rattle.sshwire.specs.Types.{IsBytes, IsShortestBody};
ghost use Rattle.sshwire.specs.TypeReadings.{Gives, is_canonical, mpint_in};

use crate::fault::WireFault;
use std::marker::Model;

/// A number in two's complement, the most significant byte first, in the fewest bytes; no bytes are
/// zero. Contracts see its bytes.
#[derive(Debug, Drop)]
pub struct Mpint<'a> {
    body: &'a [u8],
}

impl<'a> Model for Mpint<'a> {
    ghost use Rattle.std.specs.Prelude.{List, ℕ};
    ghost use Rattle.sshwire.specs.TypeReadings.{IsMpintBody};

    ghost Value = { List ℕ };

    ghost view = { λ m. m.body.now };

    ghost invariant = { λ m. IsMpintBody m.body.now };
}

impl<'a> Mpint<'a> {
    /// The number that these bytes are. `NotCanonical` where fewer bytes are the same number. Takes
    /// no memory.
    #[tactic(auto, unfolding(crate::specs::TypeReadings::mpint_in))]
    pub fn new(body: &'a [u8]) -> Result<Mpint<'a>, WireFault>
        requires { length body.now < 2 ^ 32 }
        ensures ok { IfOk result (λ m. (m ≡ body.now) × IsShortestBody body.now) }
        ensures err { IfErr result (λ e. (e ≡ WireFault.NotCanonical) × (IsShortestBody body.now → ⊥)) }
        ensures exact { Gives (λ m. m) result (mpint_in body.now) }
    {
        if is_canonical(body) {
            Ok(Mpint { body })
        } else {
            Err(WireFault::NotCanonical)
        }
    }

    /// The bytes of the number. Takes no memory.
    pub fn body(&self) -> &'a [u8]
        ensures body { result.now ≡ self.now }
        ensures shortest { IsShortestBody self.now }
        ensures bytes { IsBytes self.now }
        ensures short { length self.now < 2 ^ 32 }
    {
        self.body
    }
}

/// Whether no leading byte can be left out.
fn is_canonical(body: &[u8]) -> bool
    ensures { result ≡ is_canonical body.now }
{
    match body {
        [] => true,
        [only] => *only != 0,
        [first, second, ..] => {
            !(*first == 0 && *second < 0x80) && !(*first == 0xff && *second >= 0x80)
        }
    }
}
