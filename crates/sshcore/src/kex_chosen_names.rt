//! The names of the algorithms that were chosen.

/// The algorithms that both sides' KEXINITs choose (RFC 4253 section 7.1), by their names.
#[derive(Clone, Copy, Debug)]
pub struct ChosenNames<'a> {
    /// The key exchange method.
    pub kex: &'a str,
    /// The algorithm of the server's host key.
    pub host_key: &'a str,
    /// The cipher from client to server.
    pub encryption_client_to_server: &'a str,
    /// The cipher from server to client.
    pub encryption_server_to_client: &'a str,
    /// The MAC from client to server.
    pub mac_client_to_server: &'a str,
    /// The MAC from server to client.
    pub mac_server_to_client: &'a str,
    /// Compression from client to server.
    pub compression_client_to_server: &'a str,
    /// Compression from server to client.
    pub compression_server_to_client: &'a str,
}
