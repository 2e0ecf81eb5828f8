//! What is promised of sessions.

ghost use Rattle.std.specs.Prelude.{◌≡◌, ℕ, IfOk, List, OnOk, Some, take};
ghost use Rattle.sshcore.specs.declared.session.Session.{Session};
ghost use Rattle.sshcore.specs.EndData.{AgreedData, Authenticated};
ghost use Rattle.sshcore.specs.Endpoints.{Fed};
ghost use Rattle.sshcore.specs.Linked.{AreLinked, incoming_of, outgoing_of};
ghost use Rattle.sshworld.specs.Joined.{AreCrosswise};
ghost use Rattle.sshpromises.specs.Claims.{AreJoinedSomehow, IsJoinedEnd};

use sshcore::{ClientConfig, Decisions, Endpoint, Link, ServerConfig, Session, link_law};
use sshpacket::{AgreeingSuite, Suite};
use sshwire::Memory;
use sshwire::owned::{beside, once};
use sshworld::{World, follows_law, session_law};
use std::alloc::Global;

/// Two joined endpoints that ended authenticated hand over sessions that match crosswise.
pub fn hand_over<S: Suite, D: Decisions>(
    client: Endpoint<'_, S, D>,
    server: Endpoint<'_, S, D>,
) -> Option<(Session, Session)>
    ensures { IsJoinedEnd S.meaning D.policy client.entry server.entry → (p : Session × Session) × (result ≡ Some p) × AreCrosswise p.0 p.1 }
{
    session_law::<S, D>();
    let of_client = client.into_session();
    let of_server = server.into_session();
    both(of_client, of_server)
}

/// Both values, where there are both. It is generic, so that its proof doesn't look into what a value owns.
fn both<A: Drop, B: Drop>(one: Option<A>, other: Option<B>) -> Option<(A, B)>
    ensures each { (p : A × B) → result ≡ Some p → (one ≡ Some p.0) × (other ≡ Some p.1) }
    ensures there { (a : A) (b : B) → one ≡ Some a → other ≡ Some b → result ≡ Some (a, b) }
{
    match (one, other) {
        (Some(one), Some(other)) => Some((one, other)),
        _ => None,
    }
}

/// A world over a suite whose ends agree hands over sessions that match crosswise, the client's first, where both
/// sides ended authenticated.
pub fn handed_by_world<S: AgreeingSuite, D: Decisions>(
    world: World<'_, S, D>,
) -> Option<(Session, Session)>
    ensures { (a b : AgreedData) → world.entry.client.end ≡ Authenticated a → world.entry.server.end ≡ Authenticated b → (p : Session × Session) × (result ≡ Some p) × AreCrosswise p.0 p.1 }
{
    follows_law();
    world.complete();
    world.into_sessions()
}

/// The links of two sessions that match crosswise: what either of them seals, the other opens (`link_law`), whatever the
/// seeds of their padding are.
pub fn into_links(
    alloc: Global,
    client: Session,
    server: Session,
    seeds: ([u8; 32], [u8; 32]),
) -> (Link, Link)
    ensures { AreCrosswise client server → AreLinked (outgoing_of result.0) (incoming_of result.1) × AreLinked (outgoing_of result.1) (incoming_of result.0) }
{
    link_law();
    let of_client = client.into_link(alloc, seeds.0);
    let of_server = server.into_link(alloc, seeds.1);
    (of_client, of_server)
}

/// Two endpoints that were made and fed by hand are joined.
pub fn joined_by_hand<'a, S: Suite, D: Decisions>(
    alloc: Global,
    client: &'a ClientConfig,
    server: &'a ServerConfig,
    suite: &'a S,
    decisions: &'a D,
) -> Result<(Endpoint<'a, S, D>, Endpoint<'a, S, D>), Memory>
    ensures joined { IfOk result (λ two. AreJoinedSomehow S.meaning D.policy client.now server.now two.0 two.1) }
{
    let mut to_server = Vec::new(alloc);
    let mut to_client = Vec::new(alloc);
    let of_client = Endpoint::client(alloc, client, suite, decisions, &mut to_server)?;
    let of_server = Endpoint::server(alloc, server, suite, decisions, &mut to_client);
    let (mut of_client, mut of_server) = beside(of_client, of_server)?;
    let fed = feed_each(&mut of_client, &mut of_server, to_server, to_client);
    once((of_client, of_server), fed)
}

/// Feeds the server what the client sent, and then the client all that the server sent.
fn feed_each<S: Suite, D: Decisions>(
    of_client: &mut Endpoint<'_, S, D>,
    of_server: &mut Endpoint<'_, S, D>,
    to_server: Vec<u8>,
    to_client: Vec<u8>,
) -> Result<(), Memory>
    ensures { OnOk result ((used : ℕ) × (other : ℕ) × (t : List ℕ) × (x : List ℕ)
        × Fed S.meaning D.policy of_server.old of_server.new (take used to_server.items) to_client.items t
        × Fed S.meaning D.policy of_client.old of_client.new (take other t) to_server.items x) }
{
    let mut to_server = to_server;
    let mut to_client = to_client;
    of_server.feed(&to_server, &mut to_client)?;
    of_client.feed(&to_client, &mut to_server)?;
    Ok(())
}
