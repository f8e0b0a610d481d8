use crate::Changes;

/// What an app asks when it pulls: the timestamp of its last pull, 0 at first, and the version of its schema.
#[derive(Clone, Copy, Debug, PartialEq, Eq)]
pub struct PullAsk {
    pub last: u64,
    pub schema_version: Option<u64>,
}

/// What a backend answers to a pull: the changes since, and the timestamp to pull from next.
#[derive(Debug, Drop)]
pub struct PullReply {
    pub changes: Changes,
    pub timestamp: u64,
}
