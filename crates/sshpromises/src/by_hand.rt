//! The headline over the calls of an endpoint alone.

ghost use Rattle.std.specs.Prelude.{◌≡◌, ◌≤◌, ◌+◌, ◌↔◌, IfOk, IsTrue, drop, length, take};
ghost use Rattle.sshcore.specs.EndData.{Open};
ghost use Rattle.sshcore.specs.Endpoints.{endpoint_end};
ghost use Rattle.sshworld.specs.Compatible.{AreCompatible};
ghost use Rattle.sshworld.specs.Headline.{Headline};
ghost use Rattle.sshworld.specs.Offered.{most_requests};
ghost use Rattle.sshworld.specs.Outcome.{outcome};
ghost use Rattle.sshpromises.specs.Claims.{CarriesOn, FedNext, HasRunByHand, HasSettledByHand, SettlesByHand, wire_end};

use crate::rounds::rounds_law;
use sshcore::{ClientConfig, Decisions, End, Endpoint, ServerConfig};
use sshpacket::{AgreeingSuite, Suite};
use sshwire::Memory;
use sshwire::owned::beside;
use sshworld::{Delivery, Side, follows_law, wire_law};
use std::alloc::Global;

/// A client and a server, run by a schedule over two vectors: each has all that one side has sent, and each delivery of the
/// schedule feeds one side with the next bytes that it hasn't used. Answers both endpoints, and whether each of them has
/// ended or used all that the other has sent. Answers `Memory` where an allocation failed.
pub fn run_by_hand<'a, S: Suite, D: Decisions>(
    alloc: Global,
    client: &'a ClientConfig,
    server: &'a ServerConfig,
    suite: &'a S,
    decisions: &'a D,
    schedule: &[Delivery],
) -> Result<((Endpoint<'a, S, D>, Endpoint<'a, S, D>), bool), Memory>
    // All deliveries of the schedule were done, from two new endpoints on.
    ensures ran { IfOk result (λ ran. HasRunByHand S.meaning D.policy client.now server.now suite.now decisions.now schedule.now ran.0.0 ran.0.1 (IsTrue ran.1)) }
    // Where the two ends understand each other, both end as the outcome has it.
    ensures headline { IfOk result (λ ran. AreCompatible (S.meaning suite.now) (D.policy decisions.now) client.now server.now
        → Headline (outcome (S.meaning suite.now) (D.policy decisions.now) client.now server.now) (endpoint_end ran.0.0) (endpoint_end ran.0.1) (IsTrue ran.1)) }
{
    wire_law::<S, D>();
    client.parts();
    server.parts();
    let mut to_server = Vec::new(alloc);
    let mut to_client = Vec::new(alloc);
    let of_client = Endpoint::client(alloc, client, suite, decisions, &mut to_server)?;
    let of_server = Endpoint::server(alloc, server, suite, decisions, &mut to_client);
    let (mut of_client, mut of_server) = beside(of_client, of_server)?;
    let done = carry(
        &mut of_client,
        &mut of_server,
        to_server,
        to_client,
        schedule,
        0,
    );
    beside((of_client, of_server), done)
}

/// The same over a suite whose ends agree, by which any two configs are compatible.
pub fn run_agreeing<'a, S: AgreeingSuite, D: Decisions>(
    alloc: Global,
    client: &'a ClientConfig,
    server: &'a ServerConfig,
    suite: &'a S,
    decisions: &'a D,
    schedule: &[Delivery],
) -> Result<((Endpoint<'a, S, D>, Endpoint<'a, S, D>), bool), Memory>
    // All deliveries of the schedule were done, from two new endpoints on.
    ensures ran { IfOk result (λ ran. HasRunByHand S.meaning D.policy client.now server.now suite.now decisions.now schedule.now ran.0.0 ran.0.1 (IsTrue ran.1)) }
    ensures headline { IfOk result (λ ran. Headline (outcome (S.meaning suite.now) (D.policy decisions.now) client.now server.now) (endpoint_end ran.0.0) (endpoint_end ran.0.1) (IsTrue ran.1)) }
{
    follows_law();
    client.parts();
    server.parts();
    run_by_hand(alloc, client, server, suite, decisions, schedule)
}

/// A client and a server, run by a schedule over two vectors and then by so many rounds: in each round the server is fed with
/// all bytes that it hasn't used of those that the client has sent, and then the client alike. Answers what `run_by_hand`
/// answers.
pub fn settle_by_hand<'a, S: Suite, D: Decisions>(
    alloc: Global,
    client: &'a ClientConfig,
    server: &'a ServerConfig,
    suite: &'a S,
    decisions: &'a D,
    schedule: &[Delivery],
    rounds: u32,
) -> Result<((Endpoint<'a, S, D>, Endpoint<'a, S, D>), bool), Memory>
    // All deliveries of the schedule were done and then so many rounds, from two new endpoints on.
    ensures ran { IfOk result (λ ran. HasSettledByHand S.meaning D.policy client.now server.now suite.now decisions.now schedule.now rounds ran.0.0 ran.0.1 (IsTrue ran.1)) }
    // Where the two ends understand each other, all is done, whatever the schedule, after four rounds more than the client's plan has requests at the most (two of
    // an attempt that asks first, one of any other).
    ensures bound { IfOk result (λ ran. AreCompatible (S.meaning suite.now) (D.policy decisions.now) client.now server.now → most_requests client.now.plan + 4 ≤ rounds → IsTrue ran.1) }
    ensures headline { IfOk result (λ ran. AreCompatible (S.meaning suite.now) (D.policy decisions.now) client.now server.now
        → Headline (outcome (S.meaning suite.now) (D.policy decisions.now) client.now server.now) (endpoint_end ran.0.0) (endpoint_end ran.0.1) (IsTrue ran.1)) }
{
    rounds_law::<S, D>();
    wire_law::<S, D>();
    client.parts();
    server.parts();
    let mut to_server = Vec::new(alloc);
    let mut to_client = Vec::new(alloc);
    let of_client = Endpoint::client(alloc, client, suite, decisions, &mut to_server)?;
    let of_server = Endpoint::server(alloc, server, suite, decisions, &mut to_client);
    let (mut of_client, mut of_server) = beside(of_client, of_server)?;
    let settled = carry(
        &mut of_client,
        &mut of_server,
        to_server,
        to_client,
        schedule,
        rounds,
    );
    beside((of_client, of_server), settled)
}

/// Feeds each side by the schedule and then by so many rounds, in each of which the server is fed with all bytes that it hasn't
/// used, and then the client; and answers whether each has ended or used all that the other has sent.
fn carry<S: Suite, D: Decisions>(
    client: &mut Endpoint<'_, S, D>,
    server: &mut Endpoint<'_, S, D>,
    mut to_server: Vec<u8>,
    mut to_client: Vec<u8>,
    schedule: &[Delivery],
    rounds: u32,
) -> Result<bool, Memory>
    ensures carries { IfOk result (λ done. CarriesOn S.meaning D.policy client.old server.old to_server to_client (SettlesByHand S.meaning D.policy schedule.now rounds) client.new server.new (IsTrue done)) }
{
    wire_law::<S, D>();
    let mut used_by_client = 0;
    let mut used_by_server = 0;
    for delivery in schedule {
        let count = delivery.count as usize;
        match delivery.to {
            Side::Client => {
                let used = feed_next(client, &to_client, used_by_client, count, &mut to_server)?;
                used_by_client += used;
            }
            Side::Server => {
                let used = feed_next(server, &to_server, used_by_server, count, &mut to_client)?;
                used_by_server += used;
            }
        }
    }
    for _ in 0..rounds {
        let used = feed_rest(server, &to_server, used_by_server, &mut to_client)?;
        used_by_server += used;
        let used = feed_rest(client, &to_client, used_by_client, &mut to_server)?;
        used_by_client += used;
    }
    Ok(is_done(client, &to_client, used_by_client) && is_done(server, &to_server, used_by_server))
}

/// Feeds an endpoint with so many of the bytes after those that it has used, or all of them, and answers how many it used.
fn feed_next<S: Suite, D: Decisions>(
    endpoint: &mut Endpoint<'_, S, D>,
    sent: &[u8],
    used: usize,
    count: usize,
    out: &mut Vec<u8>,
) -> Result<usize, Memory>
    requires { used ≤ length sent.now }
    ensures uses { IfOk result (λ n. FedNext S.meaning D.policy count sent.now n (wire_end endpoint.old out.old used) (wire_end endpoint.new out.new (used + n))) }
{
    endpoint.feed(next_of(sent, used, count), out)
}

/// Feeds an endpoint with all bytes after those that it has used, and answers how many it used.
fn feed_rest<S: Suite, D: Decisions>(
    endpoint: &mut Endpoint<'_, S, D>,
    sent: &[u8],
    used: usize,
    out: &mut Vec<u8>,
) -> Result<usize, Memory>
    requires { used ≤ length sent.now }
    ensures uses { IfOk result (λ n. FedNext S.meaning D.policy (length sent.now) sent.now n (wire_end endpoint.old out.old used) (wire_end endpoint.new out.new (used + n))) }
{
    feed_next(endpoint, sent, used, sent.len(), out)
}

/// So many of the bytes after those that were used, or all of them.
fn next_of(sent: &[u8], used: usize, count: usize) -> &[u8]
    requires { used ≤ length sent.now }
    ensures { result.now ≡ take count (drop used sent.now) }
{
    let rest = &sent[used..];
    &rest[..count.min(rest.len())]
}

/// Whether an endpoint has ended, or has used all of these bytes.
fn is_done<S: Suite, D: Decisions>(endpoint: &Endpoint<'_, S, D>, sent: &[u8], used: usize) -> bool
    ensures { IsTrue result ↔ (endpoint_end endpoint.now ≡ Open → used ≡ length sent.now) }
{
    match endpoint.end() {
        End::Open => used == sent.len(),
        _ => true,
    }
}
