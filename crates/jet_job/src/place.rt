// Where in a job file something stands.

/// An object of a job file. Vertices, legs and edges are numbered from 0, in their order in the file.
#[derive(Clone, Copy, Debug, PartialEq, Eq)]
pub enum Place {
    /// The outermost one.
    Top,
    /// The vertex with this number.
    Vertex(u32),
    /// A leg of a flat vertex: the number of the vertex, then that of the leg.
    Leg(u32, u32),
    /// The edge with this number.
    Edge(u32),
    /// The settings.
    Settings,
}
