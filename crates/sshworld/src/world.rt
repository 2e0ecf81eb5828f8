//! Two endpoints and the bytes between them.

ghost use Rattle.std.specs.Prelude.{◌≡◌, ◌≢◌, ◌↔◌, ◌+◌, ◌≤◌, IfOk, IsTrue, None, Ok, OnErr, OnOk, min};
ghost use Rattle.sshcore.specs.EndData.{AgreedData, Authenticated, Open, end_data};
ghost use Rattle.sshcore.specs.Redrawn.{redrawn_client, redrawn_server};
ghost use Rattle.sshworld.specs.Conversed.{IsNew};
ghost use Rattle.sshworld.specs.Offered.{most_requests};
ghost use Rattle.sshworld.specs.Deliveries.{Delivered, DoneAll, Refused, RefusedAll, Round, RoundInto, Rounds, RoundsInto, Runs, RunsInto};
ghost use Rattle.sshworld.specs.Joined.{HandOver};
ghost use Rattle.sshworld.specs.WorldCourse.{AreCompatibleIn, ReceivesAll, WorldHolds};
ghost use Rattle.sshworld.specs.WorldRounds.{Keeps, Moves, ReceivesRound, ReceivesTurn, Settles};
ghost use Rattle.sshworld.specs.Worlds.{Complete, HadMemory, IsSameSetup, node_at, waiting_for};

use crate::drawn::{DrawnClient, DrawnServer};
use crate::link_laws::{below_law, course_receiving_law};
use crate::node::{Node, nodes};
use crate::session_laws::session_law;
use crate::side::Delivery;
use sshcore::{ClientConfig, Decisions, Draws, End, ServerConfig, Session};
use sshneg::Side;
use sshpacket::Suite;
use sshwire::Memory;
use sshwire::owned::beside;
use std::alloc::Global;
use std::marker::Model;

/// A client and a server that share a suite and decisions, and all that each has sent. Bytes reach the
/// other side in the order in which they were sent, when a delivery moves them; those that wait for a
/// side that has ended are dropped.
///
/// Where the two ends understand each other, and neither ran out of memory, every world keeps to the course
/// of its configs: each side has received and sent a prefix of it, each that has ended has the end of the
/// outcome, and where nothing waits for either, both have ended. The ends understand each other where
/// the suite comes to one shared secret of both random values, and the keys of both configs sign.
#[derive(Drop)]
pub struct World<'a, S: Suite, D: Decisions> {
    client_config: DrawnClient<'a>,
    server_config: DrawnServer<'a>,
    suite: &'a S,
    decisions: &'a D,
    client: Node<'a, S, D>,
    server: Node<'a, S, D>,
}

impl<'a, S: Suite, D: Decisions> Model for World<'a, S, D> {
    ghost use Rattle.sshworld.specs.Nodes.{node_data};
    ghost use Rattle.sshworld.specs.WorldCourse.{WorldStands};
    ghost use Rattle.sshworld.specs.Worlds.{WorldData};

    ghost Value = { WorldData S D };

    ghost view = { λ w. record {
      client_config = w.client_config;
      server_config = w.server_config;
      suite = w.suite.now;
      decisions = w.decisions.now;
      client = node_data w.client;
      server = node_data w.server;
    } };

    ghost invariant = { λ w. WorldStands S.meaning D.policy w.client_config w.server_config w.suite.now w.decisions.now w.client w.server };
}

impl<'a, S: Suite, D: Decisions> World<'a, S, D> {
    /// A client and a server that have received nothing; each has sent its first output. Answers
    /// `Memory` only where an allocation failed.
    pub fn new(
        alloc: Global,
        client: &'a ClientConfig,
        server: &'a ServerConfig,
        suite: &'a S,
        decisions: &'a D,
    ) -> Result<World<'a, S, D>, Memory>
        ensures client_config { IfOk result (λ w. w.client_config ≡ client.now) }
        ensures server_config { IfOk result (λ w. w.server_config ≡ server.now) }
        ensures suite { IfOk result (λ w. w.suite ≡ suite.now) }
        ensures decisions { IfOk result (λ w. w.decisions ≡ decisions.now) }
        ensures start { IfOk result (λ w. IsNew S.meaning D.policy w) }
        ensures holds { IfOk result (λ w. WorldHolds S.meaning D.policy w) }
    {
        World::new_with(
            alloc,
            client,
            client.draws(),
            server,
            server.draws(),
            suite,
            decisions,
        )
    }

    /// The same with these draws: the configs of this world are those two, each with its draws in place of
    /// its own. So one config serves any number of worlds.
    pub fn new_with(
        alloc: Global,
        client: &'a ClientConfig,
        client_draws: Draws,
        server: &'a ServerConfig,
        server_draws: Draws,
        suite: &'a S,
        decisions: &'a D,
    ) -> Result<World<'a, S, D>, Memory>
        ensures client_config { IfOk result (λ w. w.client_config ≡ redrawn_client client_draws client.now) }
        ensures server_config { IfOk result (λ w. w.server_config ≡ redrawn_server server_draws server.now) }
        ensures suite { IfOk result (λ w. w.suite ≡ suite.now) }
        ensures decisions { IfOk result (λ w. w.decisions ≡ decisions.now) }
        ensures start { IfOk result (λ w. IsNew S.meaning D.policy w) }
        ensures holds { IfOk result (λ w. WorldHolds S.meaning D.policy w) }
    {
        below_law();
        course_receiving_law();
        let client_config = DrawnClient::new(client, client_draws);
        let server_config = DrawnServer::new(server, server_draws);
        let nodes = nodes(alloc, &client_config, &server_config, suite, decisions);
        let ((client_config, server_config), (client, server)) = beside(
            (client_config, server_config),
            nodes,
        )?;
        Ok(World {
            client,
            server,
            client_config,
            server_config,
            suite,
            decisions,
        })
    }

    /// What is true of every world. Takes no memory.
    fn holds(&self)
        ensures holds { WorldHolds S.meaning D.policy self.now }
        ensures understands { AreCompatibleIn S.meaning D.policy self.now → ReceivesAll S.meaning D.policy self.now }
        ensures settles { Settles S.meaning D.policy self.now }
    {
        below_law();
        course_receiving_law();
        // Where a field is read the prover sees what every world holds.
        let _ = &self.client;
    }

    /// How many bytes wait for a side. Takes no memory.
    fn waiting(&self, to: Side) -> usize
        ensures { result ≡ waiting_for to self.now }
    {
        match to {
            Side::Client => self.client.waiting(&self.server.sent),
            Side::Server => self.server.waiting(&self.client.sent),
        }
    }

    /// Moves so many of the bytes that wait for a side to it, or all of them, and answers how many.
    fn move_bytes(&mut self, to: Side, count: usize) -> Result<usize, Memory>
        ensures moves { IfOk result (λ n. Moves to count n self.old self.new) }
        ensures refused { OnErr result (Refused S.meaning D.policy to (min count (waiting_for to self.old)) self.old self.new) }
        ensures ended { (node_at to self.old).end ≢ Open → (result ≡ Ok 0) × (self.new ≡ self.old) }
        ensures keeps { Keeps S.meaning D.policy self.old self.new }
    {
        below_law();
        course_receiving_law();
        match to {
            Side::Client => self.client.receive(&self.server.sent, count),
            Side::Server => self.server.receive(&self.client.sent, count),
        }
    }

    /// Moves to a side the lesser of `count` and the bytes that wait for it, and answers how many those
    /// are. The side uses all of them, unless it ends before; the other side doesn't change.
    ///
    /// For a side that has ended nothing waits: a delivery to it moves nothing, changes nothing and takes
    /// no memory. Answers `Memory` where an allocation failed: the side has then failed by that.
    pub fn deliver(&mut self, to: Side, count: u32) -> Result<u32, Memory>
        ensures count { IfOk result (λ n. n ≡ min count (waiting_for to self.old)) }
        ensures delivered { IfOk result (λ n. Delivered to n self.old self.new) }
        ensures refused { OnErr result (Refused S.meaning D.policy to (min count (waiting_for to self.old)) self.old self.new) }
        ensures still { OnOk result (HadMemory self.old → HadMemory self.new) }
        ensures ended { (node_at to self.old).end ≢ Open → (result ≡ Ok 0) × (self.new ≡ self.old) }
        ensures setup { IsSameSetup self.old self.new }
        ensures holds { WorldHolds S.meaning D.policy self.new }
    {
        let moved = self.move_bytes(to, count as usize)?;
        Ok(moved as u32)
    }

    /// Moves all bytes that wait for a side to it.
    fn move_all(&mut self, to: Side) -> Result<(), Memory>
        ensures done { OnOk result (DoneAll S.meaning D.policy to self.old self.new) }
        ensures refused { OnErr result (RefusedAll S.meaning D.policy to self.old self.new) }
        ensures still { OnOk result (HadMemory self.old → HadMemory self.new) }
        ensures keeps { Keeps S.meaning D.policy self.old self.new }
        ensures turn { OnOk result (ReceivesTurn S.meaning D.policy to self.old self.new) }
    {
        below_law();
        let all = self.waiting(to);
        self.move_bytes(to, all)?;
        Ok(())
    }

    /// Does the deliveries of a schedule in order, up to the first one for which memory ran out;
    /// then it answers `Memory`.
    pub fn run(&mut self, schedule: &[Delivery]) -> Result<(), Memory>
        ensures runs { OnOk result (Runs S.meaning D.policy schedule.now self.old self.new) }
        ensures stopped { OnErr result (RunsInto S.meaning D.policy schedule.now self.old self.new) }
        ensures still { OnOk result (HadMemory self.old → HadMemory self.new) }
        ensures setup { IsSameSetup self.old self.new }
        ensures holds { WorldHolds S.meaning D.policy self.new }
    {
        for delivery in schedule {
            self.deliver(delivery.to, delivery.count)?;
        }
        self.holds();
        Ok(())
    }

    /// All waiting bytes to the server, and then all waiting bytes to the client.
    fn round(&mut self) -> Result<(), Memory>
        ensures round { OnOk result (Round S.meaning D.policy self.old self.new) }
        ensures stopped { OnErr result (RoundInto S.meaning D.policy self.old self.new) }
        ensures still { OnOk result (HadMemory self.old → HadMemory self.new) }
        ensures keeps { Keeps S.meaning D.policy self.old self.new }
        ensures receives { OnOk result (ReceivesRound S.meaning D.policy self.old self.new) }
    {
        self.move_all(Side::Server)?;
        self.move_all(Side::Client)?;
        Ok(())
    }

    /// Does so many rounds, up to the first delivery for which memory ran out; then it answers
    /// `Memory`. In each round all waiting bytes are moved to the server, and then all waiting bytes to
    /// the client.
    pub fn settle(&mut self, rounds: u32) -> Result<(), Memory>
        ensures rounds { OnOk result (Rounds S.meaning D.policy rounds self.old self.new) }
        ensures stopped { OnErr result (RoundsInto S.meaning D.policy rounds self.old self.new) }
        ensures still { OnOk result (HadMemory self.old → HadMemory self.new) }
        ensures setup { IsSameSetup self.old self.new }
        ensures holds { WorldHolds S.meaning D.policy self.new }
        // Four rounds more than the client's plan has requests at the most (two of an attempt that asks first, one of any other) leave a
        // complete world, from any world that had memory and of which the two ends understand each other.
        ensures bound { OnOk result (AreCompatibleIn S.meaning D.policy self.old → HadMemory self.old → most_requests self.old.client_config.plan + 4 ≤ rounds → Complete self.new) }
    {
        for _ in 0..rounds {
            self.round()?;
        }
        self.holds();
        Ok(())
    }

    /// Whether nothing waits for either side. Takes no memory.
    pub fn complete(&self) -> bool
        ensures complete { IsTrue result ↔ Complete self.now }
        ensures holds { WorldHolds S.meaning D.policy self.now }
    {
        self.holds();
        self.waiting(Side::Client) == 0 && self.waiting(Side::Server) == 0
    }

    /// How the two endpoints stand, the client's end first. Takes no memory.
    pub fn ends(&self) -> (&End, &End)
        ensures client { end_data result.0.now ≡ self.now.client.end }
        ensures server { end_data result.1.now ≡ self.now.server.end }
        ensures holds { WorldHolds S.meaning D.policy self.now }
    {
        self.holds();
        (self.client.endpoint.end(), self.server.endpoint.end())
    }

    /// What both sides hand over, the client's session first, where both ended authenticated; None otherwise.
    /// Each is the session of an endpoint that has received and sent what its side has. Where the two ends understand each other the sessions match crosswise. Takes no memory.
    pub fn into_sessions(self) -> Option<(Session, Session)>
        ensures sessions { (a b : AgreedData) → self.entry.client.end ≡ Authenticated a → self.entry.server.end ≡ Authenticated b
            → HandOver S.meaning D.policy (AreCompatibleIn S.meaning D.policy self.entry) self.entry a b result }
        ensures none { ((a b : AgreedData) → self.entry.client.end ≡ Authenticated a → self.entry.server.end ≢ Authenticated b) → result ≡ None }
    {
        session_law::<S, D>();
        let World { client, server, .. } = self;
        let of_client = client.endpoint.into_session();
        let of_server = server.endpoint.into_session();
        of_client.zip(of_server)
    }
}
