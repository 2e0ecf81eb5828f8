//! What the requests came to that are judged so far.

ghost use Rattle.std.specs.Prelude.{◌≡◌, ◌≤◌, ◌+◌, ◌∷◌, [], List, length, option_map, string_bytes};
ghost use Rattle.std.specs.List.{list_all};
ghost use Rattle.sshcore.specs.ConfigParts as config_parts;
ghost use Rattle.sshcore.specs.ConfigView.{attempt_data};
ghost use Rattle.sshcore.specs.EndpointParts.{DecisionsData};
ghost use Rattle.sshcore.specs.Plan.{after_query};
ghost use Rattle.sshcore.specs.CompletedMethods.{completed_after_one, has_completed, is_complete};
ghost use Rattle.sshpacket.specs.Suite.{SuiteData};
ghost use Rattle.sshworld.specs.JudgedView.{IsAfter, IsSoFar, how_of, progress_completed, tried_as};
ghost use Rattle.sshworld.specs.Judging.{is_successful};
ghost use Rattle.sshworld.specs.Verdicts.{ends_by};

use crate::judge::{Judged, has};
use sshcore::{Attempt, ServerConfig};

/// What the requests came to that are judged so far: how many they are, and which of the methods that
/// can be required the last of them completed, for one user and one service (RFC 4252 section 5.1).
#[derive(Clone, Copy)]
pub(crate) struct Progress<'a> {
    /// How many they are.
    pub(crate) requests: u32,
    /// The user of the last successful request.
    user: &'a str,
    /// Its service.
    service: &'a str,
    password: bool,
    publickey: bool,
}

impl<'a> Progress<'a> {
    /// Before any request.
    pub(crate) fn new() -> Progress<'a>
        ensures { (m : SuiteData) (d : DecisionsData) (server : config_parts.ServerData) → IsSoFar m d server [] result }
    {
        Progress {
            requests: 0,
            user: "",
            service: "",
            password: false,
            publickey: false,
        }
    }

    /// Judges one more request, which is of this attempt, by whether it is successful: how it ends those before
    /// it, if it does.
    pub(crate) fn judge_request(
        &mut self,
        server: &ServerConfig,
        attempt: &'a Attempt,
        successful: bool,
    ) -> Option<Judged<'a>>
        requires few { self.old.requests ≤ 127 }
        ensures ends { (m : SuiteData) (d : DecisionsData) (made : List config_parts.AttemptData) (request : config_parts.AttemptData)
            → IsSoFar m d server.now made self.old → after_query request ≡ after_query (attempt_data attempt.now)
            → successful ≡ is_successful m d server.now (length made + 1) request
            → option_map how_of result ≡ ends_by m d server.now made request }
        ensures after { (m : SuiteData) (d : DecisionsData) (made : List config_parts.AttemptData) (request : config_parts.AttemptData)
            → IsSoFar m d server.now made self.old → after_query request ≡ after_query (attempt_data attempt.now)
            → successful ≡ is_successful m d server.now (length made + 1) request
            → IsAfter m d server.now made (request ∷ []) result self.new }
        ensures one { self.new.requests ≤ self.old.requests + 1 }
    {
        if !has(&server.parts().services, &attempt.service) {
            return Some(Judged::Unknown);
        }
        self.count(attempt, successful);
        if successful && self.is_complete(server) {
            return Some(Judged::Success(attempt));
        }
        if self.requests == server.parts().tries {
            return Some(Judged::Limit);
        }
        None
    }

    /// Counts a request of this attempt: one for another user or another service empties what was
    /// completed, and a successful one adds its method.
    fn count(&mut self, attempt: &'a Attempt, successful: bool)
        requires few { self.old.requests ≤ 127 }
        ensures counted { self.new.requests ≡ self.old.requests + 1 }
        ensures completed { progress_completed self.new ≡ completed_after_one (progress_completed self.old) (tried_as (attempt_data attempt.now) successful) }
    {
        self.requests += 1;
        if self.user != attempt.user.as_str() || self.service != attempt.service.as_str() {
            self.password = false;
            self.publickey = false;
        }
        if successful {
            let method = attempt.credential.method();
            self.user = &attempt.user;
            self.service = &attempt.service;
            self.password = self.password || method == "password";
            self.publickey = self.publickey || method == "publickey";
        }
    }

    /// Whether all required methods are completed.
    fn is_complete(&self, server: &ServerConfig) -> bool
        ensures { result ≡ is_complete server.now.required (progress_completed self.now) }
    {
        are_completed(&server.parts().required, self)
    }
}

/// Whether all these methods are completed.
fn are_completed(required: &[String], progress: &Progress<'_>) -> bool
    ensures { result ≡ list_all (λ own. has_completed (progress_completed progress.now) (string_bytes own)) required.now }
{
    required
        .iter()
        .all(|method| has_completed(method, progress))
}

/// Whether this method is completed.
fn has_completed(method: &str, progress: &Progress<'_>) -> bool
    ensures { result ≡ has_completed (progress_completed progress.now) method.now }
{
    method == "password" && progress.password || method == "publickey" && progress.publickey
}
