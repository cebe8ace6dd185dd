/// The name of a command on a packet.
#[derive(Clone, Copy)]
pub(crate) enum PacketCommand {
    Delivers,
    Drops,
}

/// The name of a command on what goes from one node to another.
#[derive(Clone, Copy)]
pub(crate) enum PairCommand {
    Passes,
    Cuts,
    Mends,
}

/// The name of a command on a node.
#[derive(Clone, Copy)]
pub(crate) enum NodeCommand {
    Ticks,
    Crashes,
}

/// The name of a way of a stop.
#[derive(Clone, Copy)]
pub(crate) enum HowName {
    Cleanly,
    Filled,
    Spelled,
}

/// The name of a command.
#[derive(Clone, Copy)]
pub(crate) enum Command {
    OnPacket(PacketCommand),
    OnPair(PairCommand),
    OnNode(NodeCommand),
    Declares,
    Moves,
    WritesBack,
    Stops,
    Settles,
    Windows,
}
