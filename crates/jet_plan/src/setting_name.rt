// The settings by name.

/// A setting that is out of its range.
#[derive(Clone, Copy, Debug, PartialEq, Eq)]
pub enum SettingName {
    /// Workers per member.
    Workers,
    /// Members.
    Members,
    /// Slots of a ring.
    Ring,
    /// Bytes of a packet.
    Packet,
    /// The first and the least grant of a link in bytes.
    Window,
    /// Turns of a worker in an epoch.
    Turns,
    /// How far a source may read ahead.
    Ahead,
    /// Lines of a file.
    Lines,
    /// The greatest grant of a link in bytes.
    Peak,
    /// How many times what was processed in a period is granted in the next.
    Multiplier,
    /// Turns of a receiver in a period.
    Period,
    /// The lag of the source with this number.
    Lag(u32),
}
