// The numbers that a job sets.
ghost use Rattle.jet_plan.specs.Defaults.{defaults};

/// The numbers that a job sets, each with its range.
#[derive(Clone, Copy, Debug, PartialEq, Eq)]
pub struct Settings {
    /// Workers per member, 1 to 8.
    pub workers: i64,
    /// Members, 1 to 4.
    pub members: i64,
    /// Slots of a ring, 2 to 65536.
    pub ring: i64,
    /// Bytes of a packet at most, 256 to 65536.
    pub packet: i64,
    /// The first and the least grant of a link in bytes, 1 to 16777216. A packet may begin while the bytes sent and not yet
    /// acknowledged are fewer than the grant, so that the last one may reach beyond it.
    pub window: i64,
    /// Turns of a worker in an epoch, 1 to 1024.
    pub turns: i64,
    /// How far a source may read ahead of the slowest, 0 to 10^15, in the unit of the timestamps.
    pub ahead: i64,
    /// Lines of a file at most, 1 to 4294967294: the number of a line, and of the one behind the last, is a `u32`.
    pub lines: i64,
    /// The greatest grant of a link in bytes, `window` to 16777216. On the way are at most so many and those of one packet.
    pub peak: i64,
    /// How many times the bytes that a receiver processed in a period it grants in the next, as far as that lies between
    /// `window` and `peak`, 1 to 16.
    pub multiplier: i64,
    /// Turns of a receiver after which what it grants is set anew, 1 to 1024.
    pub period: i64,
}

impl Default for Settings {
    ghost use Rattle.std.specs.Prelude.{◌≡◌};
    ghost use Rattle.jet_plan.specs.Defaults.{defaults};

    ghost is_default = { λ s. s ≡ defaults };

    fn default() -> Self {
        Settings {
            workers: 2,
            members: 1,
            ring: 1024,
            packet: 16_384,
            window: 49_152,
            turns: 64,
            ahead: 10_000,
            lines: 4_294_967_294,
            peak: 131_072,
            multiplier: 3,
            period: 64,
        }
    }
}
