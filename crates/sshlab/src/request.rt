//! What the program's words ask for.

/// What the words ask for.
pub(crate) enum Request<'a> {
    /// Two line machines greet each other.
    Greet {
        client: &'a str,
        server: &'a str,
        schedule: &'a str,
    },
    /// The ends of a scenario's sides are predicted.
    Predict {
        /// Whether the session identifier is printed too.
        session: bool,
    },
    /// A scenario's steps are done.
    Run {
        /// Whether the session identifier is printed too.
        session: bool,
    },
    /// What a recording's streams spell is told.
    Show,
    /// A recording's streams are judged.
    Check,
}
