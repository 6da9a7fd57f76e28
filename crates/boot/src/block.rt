// Boot Phase 2's data block (specs/Block.antt), made of the names to load. Nothing is written before every name was found.
ghost use Rattle.std.specs.Prelude.{◌≡◌, true, ◌/◌, ◌≤◌, ◌<◌, length};
ghost use Rattle.rows.specs.Outcomes.{Finds};
ghost use Rattle.rows.specs.Rows.{put, join};
ghost use Rattle.directory.specs.Directory.{files, file_of};
ghost use Rattle.boot.specs.Honors.{flag_of};
ghost use Rattle.boot.specs.Choice.{name_of, all_there};
ghost use Rattle.boot.specs.Lent.{names_of};
ghost use Rattle.boot.specs.Block.{load_entry, block_of};
ghost use Rattle.boot.specs.Inner.{Sends};

use crate::{BLOCK, Choice, Honor};

// Where the load entries begin, and the bytes of each.
const ENTRIES: usize = 66;

const ENTRY: usize = 16;

// The file of name k of the list.
fn file_at(directory: &[u8], list: &[u8], k: usize) -> Option<usize>
    requires { k < length list.now / 8 }
    ensures { Finds (files directory.now) (file_of directory.now (name_of list.now k)) result }
{
    directory::find(directory, rows::array_in(list, directory::NAME * k))
}

// Every name to load is in the directory.
fn all_there(directory: &[u8], list: &[u8]) -> bool
    ensures { result ≡ all_there directory.now list.now }
{
    for k in 0..list.len() / directory::NAME {
        if file_at(directory, list, k).is_none() {
            return false;
        }
    }
    true
}

// Puts the load entry of each name down in the block.
fn put_entries(directory: &[u8], list: &[u8], block: &mut [u8])
    requires list_len_bound { (length list.now ≤ 64) × (length block.old ≡ 194) }
    requires list_value { all_there directory.now list.now ≡ true }
    ensures { block.new ≡ put block.old 66 (join (load_entry directory.now list.now) (length list.now / 8)) }
{
    for k in 0..list.len() / directory::NAME {
        let file = file_at(directory, list, k).unwrap();
        rows::put(
            block,
            ENTRIES + ENTRY * k,
            directory::entry_of(directory, file),
        );
    }
}

// The block of a choice, of whose names none is missing.
fn make(directory: &[u8], choice: Choice, iobyte: u8, configuration: &[u8; 64]) -> [u8; 194]
    requires list_len_bound { length choice.names.now ≤ 64 }
    requires list_value { all_there directory.now choice.names.now ≡ true }
    ensures { result ≡ block_of directory.now configuration.now iobyte (names_of choice.entry) }
{
    let mut block = [0u8; BLOCK];
    rows::put(&mut block, 0, rows::part(configuration, 0, 32));
    block[32] = iobyte;
    rows::put(&mut block, 33, rows::part(configuration, 32, 32));
    block[65] = u8::from(choice.honor);
    put_entries(directory, choice.names, &mut block);
    block
}

// Sends a choice: its honor, with its block; or nothing, and the block stays, where a name is not in the directory.
pub fn send(
    directory: &[u8],
    choice: Choice,
    iobyte: u8,
    configuration: &[u8; 64],
    block: &mut [u8; BLOCK],
) -> Honor
    requires { length choice.names.now ≤ 64 }
    ensures { Sends directory.now configuration.now iobyte (names_of choice.entry) block.old (flag_of result) block.new }
{
    if !all_there(directory, choice.names) {
        return Honor::Nothing;
    }
    *block = make(directory, choice, iobyte, configuration);
    choice.honor
}
