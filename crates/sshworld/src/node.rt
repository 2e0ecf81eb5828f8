//! One side of a world.

ghost use Rattle.std.specs.Prelude.{◌≡◌, ◌≢◌, ◌≤◌, ◌+◌, IfOk, Ok, OnErr, OnOk, length, min, take};
ghost use Rattle.sshneg.specs.declared.side.Side.TheVariants as role;
ghost use Rattle.sshcore.specs.declared.end.Fault.TheVariants as fault;
ghost use Rattle.sshcore.specs.EndData.{Failed, Open};
ghost use Rattle.sshcore.specs.Endpoints.{Breaks, Fed, endpoint_end};
ghost use Rattle.sshcore.specs.EndpointParts.{config_of_client, config_of_server};
ghost use Rattle.sshworld.specs.Nodes.{BrokenWith, IsFed, IsFresh, Takes};
ghost use Rattle.sshworld.specs.Worlds.{waiting_at};

use crate::drawn::{DrawnClient, DrawnServer};
use sshcore::{Decisions, End, Endpoint};
use sshpacket::Suite;
use sshwire::Memory;
use sshwire::owned::beside;
use std::alloc::Global;

/// An endpoint, all that it has sent, how many of the other's bytes were moved to it, and how many of
/// those it has used.
#[derive(Drop)]
pub(crate) struct Node<'a, S: Suite, D: Decisions> {
    pub(crate) endpoint: Endpoint<'a, S, D>,
    pub(crate) sent: Vec<u8>,
    moved: usize,
    used: usize,
}

/// A client and a server of these configs that have received nothing.
pub(crate) fn nodes<'a, S: Suite, D: Decisions>(
    alloc: Global,
    client: &DrawnClient<'a>,
    server: &DrawnServer<'a>,
    suite: &'a S,
    decisions: &'a D,
) -> Result<(Node<'a, S, D>, Node<'a, S, D>), Memory>
    ensures client { IfOk result (λ two. IsFresh S.meaning D.policy role.Client (config_of_client client.now) suite.now decisions.now two.0) }
    ensures server { IfOk result (λ two. IsFresh S.meaning D.policy role.Server (config_of_server server.now) suite.now decisions.now two.1) }
{
    let client = Node::client(alloc, client, suite, decisions)?;
    let server = Node::server(alloc, server, suite, decisions);
    beside(client, server)
}

impl<'a, S: Suite, D: Decisions> Node<'a, S, D> {
    /// A client that has received nothing. Answers `Memory` where an allocation failed, as the next one.
    pub(crate) fn client(
        alloc: Global,
        config: &DrawnClient<'a>,
        suite: &'a S,
        decisions: &'a D,
    ) -> Result<Node<'a, S, D>, Memory>
        ensures { IfOk result (λ n. IsFresh S.meaning D.policy role.Client (config_of_client config.now) suite.now decisions.now n) }
    {
        let mut sent = Vec::new(alloc);
        let endpoint = config.endpoint(alloc, suite, decisions, &mut sent);
        let (sent, endpoint) = beside(sent, endpoint)?;
        Ok(Node {
            endpoint,
            sent,
            moved: 0,
            used: 0,
        })
    }

    /// A server that has received nothing.
    pub(crate) fn server(
        alloc: Global,
        config: &DrawnServer<'a>,
        suite: &'a S,
        decisions: &'a D,
    ) -> Result<Node<'a, S, D>, Memory>
        ensures { IfOk result (λ n. IsFresh S.meaning D.policy role.Server (config_of_server config.now) suite.now decisions.now n) }
    {
        let mut sent = Vec::new(alloc);
        let endpoint = config.endpoint(alloc, suite, decisions, &mut sent);
        let (sent, endpoint) = beside(sent, endpoint)?;
        Ok(Node {
            endpoint,
            sent,
            moved: 0,
            used: 0,
        })
    }

    /// How many of the bytes that the other side has sent wait for this one: none once it has ended.
    /// Takes no memory.
    pub(crate) fn waiting(&self, their_sent: &[u8]) -> usize
        requires { self.now.moved ≤ length their_sent.now }
        ensures { result ≡ waiting_at (endpoint_end self.now.endpoint) (length their_sent.now) self.now.moved }
    {
        match self.endpoint.end() {
            End::Open => their_sent.len() - self.moved,
            _ => 0,
        }
    }

    /// Receives so many of the bytes that wait, or all of them, and answers how many: the endpoint is fed
    /// with them. Where none are received, nothing changes and no memory is taken.
    pub(crate) fn receive(&mut self, their_sent: &[u8], count: usize) -> Result<usize, Memory>
        requires { self.old.moved ≤ length their_sent.now }
        ensures takes { IfOk result (λ n. Takes S.meaning D.policy their_sent.now n self.old self.new) }
        ensures count { IfOk result (λ n. n ≡ min count (waiting_at (endpoint_end self.old.endpoint) (length their_sent.now) self.old.moved)) }
        ensures broken { OnErr result (BrokenWith S.meaning D.policy their_sent.now (min count (waiting_at (endpoint_end self.old.endpoint) (length their_sent.now) self.old.moved)) self.old self.new) }
    {
        let count = count.min(self.waiting(their_sent));
        if count > 0 {
            self.take_in(their_sent, count)?;
        }
        Ok(count)
    }

    /// Receives so many bytes while it is open.
    fn take_in(&mut self, their_sent: &[u8], count: usize) -> Result<(), Memory>
        requires open { endpoint_end self.old.endpoint ≡ Open }
        requires within { self.old.moved + count ≤ length their_sent.now }
        ensures fed { OnOk result (IsFed S.meaning D.policy their_sent.now count self.old self.new) }
        ensures broken { OnErr result (BrokenWith S.meaning D.policy their_sent.now count self.old self.new) }
    {
        let from = self.moved;
        self.moved = from + count;
        let used = feed(
            &mut self.endpoint,
            &their_sent[from..from + count],
            &mut self.sent,
        )?;
        self.used = from + used;
        Ok(())
    }
}

/// Feeds an open endpoint.
fn feed<S: Suite, D: Decisions>(
    endpoint: &mut Endpoint<'_, S, D>,
    piece: &[u8],
    out: &mut Vec<u8>,
) -> Result<usize, Memory>
    ensures fed { IfOk result (λ used. Fed S.meaning D.policy endpoint.old endpoint.new (take used piece.now) out.old.items out.new.items) }
    ensures used { IfOk result (λ used. (used ≤ length piece.now) × (endpoint_end endpoint.new ≡ Open → used ≡ length piece.now)) }
    ensures memory { OnErr result ((endpoint_end endpoint.new ≡ Failed fault.Memory) × Breaks S.meaning D.policy endpoint.old endpoint.new piece.now out.old.items out.new.items) }
    ensures kept { OnOk result (endpoint_end endpoint.new ≡ Failed fault.Memory → endpoint_end endpoint.old ≡ Failed fault.Memory) }
{
    endpoint.feed(piece, out)
}
