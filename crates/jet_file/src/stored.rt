// The files of an outside in memory, and how far each opened one was taken.
ghost use Rattle.std.specs.Prelude.{◌≡◌, ◌≤◌, ◌<◌, OnOk, OnErr, length, take, find, is_some, drop, option_copied, bytes_eq, vec_len, vec_capacity};
ghost use Rattle.jet_file.specs.Contents.{content_in};
ghost use Rattle.jet_file.specs.Outside.{rest_from};
ghost use Rattle.jet_file.specs.Places.{PushesPlace, Takes, place_in, rest_in};

use std::alloc::AllocError;

/// A file by its name.
#[derive(Drop)]
pub(crate) struct StoredFile {
    pub(crate) name: Vec<u8>,
    pub(crate) content: Vec<u8>,
}

/// The name that an opened file was opened with, and how many of its bytes were taken.
#[derive(Drop)]
pub(crate) struct OpenedFile {
    pub(crate) name: Vec<u8>,
    pub(crate) taken: usize,
}

// The first file of this name.
fn find_file<'a>(files: &'a [StoredFile], name: &[u8]) -> Option<&'a StoredFile>
    ensures { option_copied result ≡ find (λ f. bytes_eq f.name.items name.now) files.now }
{
    files.iter().find(|file| file.name.as_slice() == name)
}

/// Whether a file has the name.
pub(crate) fn has_file(files: &[StoredFile], name: &[u8]) -> bool
    ensures { result ≡ is_some (content_in files.now name.now) }
{
    find_file(files, name).is_some()
}

// The bytes of the file of this name that are not taken yet.
fn rest_at<'a>(files: &'a [StoredFile], name: &[u8], taken: usize) -> &'a [u8]
    ensures { result.now ≡ rest_from (content_in files.now name.now) taken }
{
    match find_file(files, name) {
        Some(file) => tail(&file.content, taken),
        None => &[],
    }
}

fn tail(bytes: &[u8], from: usize) -> &[u8]
    ensures { result.now ≡ drop from bytes.now }
{
    if from <= bytes.len() {
        &bytes[from..]
    } else {
        &[]
    }
}

/// Adds an opened file, of which nothing is taken. Where there is room for it this succeeds.
pub(crate) fn push_place(opened: &mut Vec<OpenedFile>, name: Vec<u8>) -> Result<(), AllocError>
    ensures ok { OnOk result (PushesPlace name.items opened.old.items opened.new.items) }
    ensures err { OnErr result (opened.new.items ≡ opened.old.items) }
    ensures full { OnErr result (vec_capacity opened.old ≤ vec_len opened.old) }
{
    opened.push(OpenedFile { name, taken: 0 })?;
    Ok(())
}

/// How many bytes of an opened file are not taken yet.
pub(crate) fn bytes_left(files: &[StoredFile], opened: &[OpenedFile], file: u32) -> usize
    requires { file < length opened.now }
    ensures { result ≡ length (rest_in files.now (place_in opened.now file)) }
{
    let place = &opened[file as usize];
    rest_at(files, &place.name, place.taken).len()
}

/// Puts the next bytes of an opened file at the front of the buffer.
pub(crate) fn take_bytes(
    files: &[StoredFile],
    opened: &mut [OpenedFile],
    file: u32,
    count: usize,
    buf: &mut [u8],
)
    requires file { file < length opened.old }
    requires room { count ≤ length buf.old }
    requires left { count ≤ length (rest_in files.now (place_in opened.old file)) }
    ensures takes { Takes file count opened.old opened.new }
    ensures bytes { take count buf.new ≡ take count (rest_in files.now (place_in opened.old file)) }
{
    let place = &mut opened[file as usize];
    let rest = rest_at(files, &place.name, place.taken);
    buf[..count].copy_from_slice(&rest[..count]);
    place.taken += count;
}
