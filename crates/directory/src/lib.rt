// The system directory of 001 (specs/Directory.antt): rows of 24 bytes, a row a file. Whoever loads a file, or moves it, looks
// for its row here.
#![tactic(auto)]

ghost use Rattle.std.specs.Prelude.{◌≡◌, ◌<◌, length};
ghost use Rattle.rows.specs.Outcomes.{Finds};
ghost use Rattle.directory.specs.Directory.{files, file_length, file_entry, file_of, in_directory};

use rows::LowFirst;

// The bytes of a row, and of a name.
pub const ROW: usize = 24;

pub const NAME: usize = 8;

// How many rows there are.
#[tactic(auto, unfolding(crate::specs::Directory::files))]
pub fn count(directory: &[u8]) -> usize
    ensures { result ≡ files directory.now }
{
    directory.len() / ROW
}

// The first file with this name. A null name is not looked for.
#[tactic(auto, using(crate::proofs::FileLaws::null_missing, crate::proofs::FileLaws::named_begins), unfolding(crate::specs::Directory::files, crate::specs::Directory::null_name))]
pub fn find(directory: &[u8], name: &[u8; NAME]) -> Option<usize>
    ensures { Finds (files directory.now) (file_of directory.now name.now) result }
{
    if rows::is_same(name, &[0u8; NAME]) {
        return None;
    }
    rows::find(directory, ROW, count(directory), name)
}

// There is a file with this name.
#[tactic(auto, using(rows::proofs::OutcomeLaws::finds_some), unfolding(crate::specs::Directory::file_of, crate::specs::Directory::in_directory))]
pub fn is_there(directory: &[u8], name: &[u8; NAME]) -> bool
    ensures { result ≡ in_directory directory.now name.now }
{
    find(directory, name).is_some()
}

// The length of file i, in sectors.
#[tactic(auto, unfolding(crate::specs::Directory::files, crate::specs::Directory::file_length))]
pub fn length_of(directory: &[u8], i: usize) -> u16
    requires { i < files directory.now }
    ensures { result ≡ file_length directory.now i }
{
    u16::low_first_at(directory, ROW * i + 13)
}

// The row of file i without its name.
#[tactic(auto, unfolding(crate::specs::Directory::files, crate::specs::Directory::file_entry))]
pub fn entry_of(directory: &[u8], i: usize) -> &[u8]
    requires { i < files directory.now }
    ensures { result.now ≡ file_entry directory.now i }
{
    rows::part(directory, ROW * i + NAME, 16)
}
