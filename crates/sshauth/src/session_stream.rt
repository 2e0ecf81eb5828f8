//! Payloads after authentication, over standard input and output.

use crate::fault::Fault;
use crate::talk::{CHUNK, receive, send};
use sshcore::{Link, Session};
use sshpacket::PacketStep;
use sshprogram::random;
use sshsuite::DeployedSuite;

/// A session that goes on, and what came of it.
#[derive(Drop)]
pub(crate) struct SessionStream {
    link: Link,
    /// What came and isn't used.
    waiting: Vec<u8>,
}

impl SessionStream {
    /// The session, after which these bytes came.
    pub(crate) fn new(
        rt: &HostRuntime,
        session: Box<Session>,
        after: Vec<u8>,
    ) -> Result<SessionStream, Fault> {
        let seed = random(rt)?;
        let link = Box::into_inner(session).into_link(rt.alloc(), seed);
        Ok(SessionStream {
            link,
            waiting: after,
        })
    }

    /// Sends a payload of 1 to 32768 bytes.
    pub(crate) fn send(&mut self, rt: &HostRuntime, payload: &[u8]) -> Result<(), Fault> {
        let mut packet = Vec::new(rt.alloc());
        self.link.seal(&DeployedSuite, payload, &mut packet)?;
        Ok(send(rt, &packet)?)
    }

    /// The next payload; none where the input has ended.
    pub(crate) fn receive(&mut self, rt: &HostRuntime) -> Result<Option<Vec<u8>>, Fault> {
        let mut chunk = [0u8; CHUNK];
        for _ in 0..u64::MAX {
            if let Some(payload) = self.read(rt)? {
                return Ok(Some(payload));
            }
            let count = receive(rt, &mut chunk)?;
            if count == 0 {
                return Ok(None);
            }
            self.waiting
                .extend_from_slice(chunk.get(..count).unwrap_or(&[]))?;
        }
        Ok(None)
    }

    /// A payload of what came, if it is there whole. What is used of the bytes is gone then.
    fn read(&mut self, rt: &HostRuntime) -> Result<Option<Vec<u8>>, Fault> {
        let payload = match self.link.next(&DeployedSuite, &self.waiting)? {
            PacketStep::Payload { payload, .. } => Some(Vec::from_slice(rt.alloc(), payload)?),
            PacketStep::More => None,
        };
        let rest = self.waiting.get(self.link.taken()..).unwrap_or(&[]);
        self.waiting = Vec::from_slice(rt.alloc(), rest)?;
        Ok(payload)
    }
}
