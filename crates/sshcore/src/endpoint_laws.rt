//! What the layers above may rest on: what is true of each endpoint, however it was fed.

ghost use Rattle.std.specs.Prelude.{◌≡◌, ◌++◌, [], false, true, ℕ, List};
ghost use Rattle.sshcore.specs.declared.end.Fault.TheVariants as fault;
ghost use Rattle.sshcore.specs.Authenticated.{IsAuthenticated};
ghost use Rattle.sshcore.specs.Before.{strict_at};
ghost use Rattle.sshcore.specs.Directions.{payloads_in};
ghost use Rattle.sshcore.specs.EndData.{AgreedData, Authenticated, Disconnected, Failed, Open, by_owner};
ghost use Rattle.sshcore.specs.Endpoints.{EndpointAfter, IsSameEndpoint, endpoint_end};
ghost use Rattle.sshcore.specs.StrictClause.{KeepsStrict};
ghost use Rattle.sshcore.specs.StrictSequence.{BeginsStrictly};
ghost use Rattle.sshcore.specs.EndpointData.{endpoint_setup};

use crate::decisions::Decisions;
use crate::endpoint::Endpoint;
use crate::law::{authentication_law, history_law, strict_law};
use sshpacket::Suite;

/// The law of endpoints: how an endpoint ends and what it has sent depend on its joined input alone,
/// whatever the pieces; what a strict endpoint was given (OpenSSH PROTOCOL section 1.10); and what one
/// that ended authenticated has received (RFC 4252 section 5.1). Takes no memory.
pub fn endpoint_law<S: Suite, D: Decisions>(one: &Endpoint<'_, S, D>, other: &Endpoint<'_, S, D>)
    // Two endpoints of one role, config and suite, and with the same decisions, each used a prefix of one input, all of it where it
    // is open; and neither was ended by its owner.
    ensures joined { IsSameEndpoint one.now other.now → by_owner (endpoint_end one.now) ≡ false → by_owner (endpoint_end other.now) ≡ false
        → (h g s t x y : List ℕ) → EndpointAfter S.meaning D.policy one.now h s → EndpointAfter S.meaning D.policy other.now g t
        → h ++ x ≡ g ++ y → (endpoint_end one.now ≡ Open → x ≡ []) → (endpoint_end other.now ≡ Open → y ≡ [])
        → (h ≡ g) × (s ≡ t) × (endpoint_end one.now ≡ endpoint_end other.now) }
    // The same of what was received before an owner's end: endpoints that were cut off, or told to disconnect, used the
    // same bytes too, and had sent the same.
    ensures joined_received { IsSameEndpoint one.now other.now → (h g s t x y : List ℕ) (a : EndpointAfter S.meaning D.policy one.now h s) (b : EndpointAfter S.meaning D.policy other.now g t)
        → h ++ x ≡ g ++ y → (a.received_end ≡ Open → x ≡ []) → (b.received_end ≡ Open → y ≡ [])
        → (h ≡ g) × (s ≡ t) × (a.received_end ≡ b.received_end) }
    // An endpoint stands as what it received left it, or was ended by its owner where that left it open.
    ensures received { (h s : List ℕ) (a : EndpointAfter S.meaning D.policy one.now h s) → by_owner (endpoint_end one.now) ≡ false → a.received_end ≡ endpoint_end one.now }
    ensures cut { (h s : List ℕ) (a : EndpointAfter S.meaning D.policy one.now h s) → endpoint_end one.now ≡ Failed fault.Cut → a.received_end ≡ Open }
    ensures left { (h s : List ℕ) (a : EndpointAfter S.meaning D.policy one.now h s) (reason : ℕ) → endpoint_end one.now ≡ Disconnected reason → a.received_end ≡ Open }
    // What was received keeps strictness, whoever sent it.
    ensures strict { (h s : List ℕ) (a : EndpointAfter S.meaning D.policy one.now h s) → KeepsStrict one.now.role one.now.config a.units a.received_end }
    // By what was received the user was accepted, where an endpoint ended authenticated; and one that is strict was
    // given a strict sequence first.
    ensures authenticated { (h s : List ℕ) (a : EndpointAfter S.meaning D.policy one.now h s) (g : AgreedData) → endpoint_end one.now ≡ Authenticated g
        → IsAuthenticated (endpoint_setup S.meaning D.policy one.now) a.units g
        × (strict_at one.now.role one.now.config (payloads_in a.units) ≡ true → BeginsStrictly one.now.role one.now.config.offer (payloads_in a.units)) }
{
    history_law();
    strict_law();
    authentication_law();
}
