use base_bytes::Id;
use command::Commands;

/// What a journal keeps as one: whole, or not at all.
#[derive(Drop)]
pub enum Commit {
    /// The id of the graph that a replica joined. It stands before all commands.
    Graph(Id),
    /// Commands in stored order, at least one.
    Commands(Commands),
}
