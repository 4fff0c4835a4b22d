// The files that a job reads, by their numbers.
ghost use Rattle.std.specs.Prelude.{◌≡◌, ◌++◌, map, flat_map, OnOk, IfOk};
ghost use Rattle.jet_flow.specs.DataFiles.{SourceFile, data_files, file_name, sides_of, sources_of};
ghost use Rattle.jet_worker.specs.Opening.{file_in};

use jet_plan::{Dag, Kind, Text, Vertex};
use std::alloc::{AllocError, Global};

/// A file that a job reads.
#[derive(Clone, Copy)]
pub enum DataFile<'a> {
    /// A file of a source. `lag` is the source's, in the unit of the timestamps.
    Source { name: &'a [u8], lag: i64 },
    /// The file of a side vertex.
    Side { name: &'a [u8] },
}

impl<'a> DataFile<'a> {
    /// The name of the file.
    pub fn name(&self) -> &'a [u8]
        ensures { result.now ≡ file_name (file_in self.now) }
    {
        match self {
            DataFile::Source { name, .. } => name,
            DataFile::Side { name } => name,
        }
    }
}

/// The files of a job in the order of their numbers: those of the sources, then the side files.
pub fn data_files<'a>(alloc: Global, dag: &'a Dag) -> Result<Vec<DataFile<'a>>, AllocError>
    ensures { IfOk result (λ files. map file_in files.items ≡ data_files dag.now) }
{
    let mut files = Vec::new(alloc);
    let vertices = dag.vertices.items();
    push_sources(&mut files, vertices)?;
    push_sides(&mut files, vertices)?;
    Ok(files)
}

fn push_sources<'a>(files: &mut Vec<DataFile<'a>>, vertices: &'a [Vertex]) -> Result<(), AllocError>
    ensures { OnOk result (map file_in files.new.items ≡ map file_in files.old.items ++ flat_map (λ v. sources_of v.kind) vertices.now) }
{
    for vertex in vertices {
        push_source(files, vertex)?;
    }
    Ok(())
}

// The files of a vertex that is a source.
fn push_source<'a>(files: &mut Vec<DataFile<'a>>, vertex: &'a Vertex) -> Result<(), AllocError>
    ensures { OnOk result (map file_in files.new.items ≡ map file_in files.old.items ++ sources_of vertex.now.kind) }
{
    match &vertex.kind {
        Kind::Source { files: names, lag } => push_names(files, names.items(), *lag),
        _ => Ok(()),
    }
}

fn push_names<'a>(
    files: &mut Vec<DataFile<'a>>,
    names: &'a [Text],
    lag: i64,
) -> Result<(), AllocError>
    ensures { OnOk result (map file_in files.new.items ≡ map file_in files.old.items ++ map (λ name. SourceFile name lag) names.now) }
{
    for name in names {
        files.push(DataFile::Source {
            name: name.bytes(),
            lag,
        })?;
    }
    Ok(())
}

fn push_sides<'a>(files: &mut Vec<DataFile<'a>>, vertices: &'a [Vertex]) -> Result<(), AllocError>
    ensures { OnOk result (map file_in files.new.items ≡ map file_in files.old.items ++ flat_map (λ v. sides_of v.kind) vertices.now) }
{
    for vertex in vertices {
        if let Kind::Side { file } = &vertex.kind {
            files.push(DataFile::Side { name: file.bytes() })?;
        }
    }
    Ok(())
}
