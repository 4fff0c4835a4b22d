// The members that the objects of a job file have.
ghost use Rattle.std.specs.Prelude.{◌≡◌};
ghost use Rattle.jet_job.specs.FieldNames.{field_name};

/// A member of an object, or the object itself.
#[derive(Clone, Copy, Debug, PartialEq, Eq)]
pub enum Field {
    Vertices,
    Edges,
    Settings,
    Name,
    Kind,
    Parallelism,
    Files,
    Lag,
    File,
    Set,
    Test,
    Legs,
    Value,
    Tag,
    Mode,
    Rekey,
    Fields,
    Size,
    Slide,
    From,
    To,
    Route,
    Distributed,
    Build,
    Workers,
    Members,
    Ring,
    Packet,
    Window,
    Turns,
    Ahead,
    Lines,
    Peak,
    Multiplier,
    Period,
    /// No member but the value itself, which is no object.
    Itself,
}

impl Field {
    /// The name of the member; the empty one for `Itself`.
    pub fn name(self) -> &'static str
        ensures { result.now ≡ field_name self }
    {
        match self {
            Field::Vertices => "vertices",
            Field::Edges => "edges",
            Field::Settings => "settings",
            Field::Name => "name",
            Field::Kind => "kind",
            Field::Parallelism => "parallelism",
            Field::Files => "files",
            Field::Lag => "lag",
            Field::File => "file",
            Field::Set => "set",
            Field::Test => "test",
            Field::Legs => "legs",
            Field::Value => "value",
            Field::Tag => "tag",
            Field::Mode => "mode",
            Field::Rekey => "rekey",
            Field::Fields => "fields",
            Field::Size => "size",
            Field::Slide => "slide",
            Field::From => "from",
            Field::To => "to",
            Field::Route => "route",
            Field::Distributed => "distributed",
            Field::Build => "build",
            Field::Workers => "workers",
            Field::Members => "members",
            Field::Ring => "ring",
            Field::Packet => "packet",
            Field::Window => "window",
            Field::Turns => "turns",
            Field::Ahead => "ahead",
            Field::Lines => "lines",
            Field::Peak => "peak",
            Field::Multiplier => "multiplier",
            Field::Period => "period",
            Field::Itself => "",
        }
    }
}
