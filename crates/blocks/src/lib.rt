// Boot Phase 2's data block, as a person reads it: four drives, IOBYTE, type-ahead, honor flag and eight load entries, each
// told with the name that the directory has for it. What stands in the block, the crate that chose it alone says.
#![tactic(auto)]

ghost use Rattle.std.specs.Prelude.{◌≡◌, ◌≤◌, length};
ghost use Rattle.boot.specs.Honors.{flag_of};

use boot::Honor;
use pages::{Count, Page, Shown};
use refusals::Refusal;
use rows::LowFirst;

// Room for all that is told of a block, which is under 1,000 bytes.
pub const PAGE: usize = 1024;

// Where the parts of the block begin: IOBYTE, the length of the type-ahead, its bytes, and the load entries.
const IOBYTE: usize = 32;

const LENGTH: usize = 33;

const TYPED: usize = 34;

const ENTRIES: usize = 66;

// The bytes of a load entry, of a name, and of the type-ahead.
const ENTRY: usize = 16;

const NAME: usize = 8;

const MOST: usize = 31;

// Tells a refusal by its number, and what it means: 23, or 13 for any other, since `boot` refuses with no third. The buffer is the
// block's. A number and no `Refusal`, so that it takes any.
pub fn append_refused(page: &mut Page, number: u8)
    ensures { page.new.room.ghost_name ≡ page.old.room.ghost_name }
{
    match number {
        23 => writeln!(page, "refused 23: {}", Refusal::BadBootTables),
        _ => writeln!(page, "refused 13: the buffer is too short for the block"),
    }
}

// The honor that a flag stands for: any above 3 for Nothing.
fn honor_of(flag: u8) -> Honor
    ensures { flag ≤ 4 → flag_of result ≡ flag }
{
    match flag {
        0 => Honor::Exact,
        1 => Honor::Smallest,
        2 => Honor::LoginPlease,
        3 => Honor::Menu,
        _ => Honor::Nothing,
    }
}

// The honor flag, in words.
fn words_of(honor: Honor) -> &'static str {
    match honor {
        Honor::Exact => "the system that matches exactly",
        Honor::Smallest => {
            "the smallest system that fits: its options differ, or the small system was wanted"
        }
        Honor::LoginPlease => "Login Please: name or password unknown",
        Honor::Menu => "OS Menu: no system for this machine",
        Honor::Nothing => {
            "nothing can be loaded: no machine row, no product row, or a chosen name is missing from the directory"
        }
    }
}

// A name without its padding. The loop counts no index: it goes on while its pattern fits what is left, and a `for` would not.
fn unpadded(name: &[u8]) -> &[u8]
    ensures { length result.now ≤ length name.now }
{
    let mut left = name;
    while let [front @ .., 0 | b' '] = left {
        left = front;
    }
    left
}

// Tells a drive, on a line.
fn append_drive(page: &mut Page, letter: char, name: &[u8])
    ensures { page.new.room.ghost_name ≡ page.old.room.ghost_name }
{
    match unpadded(name) {
        [] => writeln!(page, "drive {letter}: none"),
        name => writeln!(page, "drive {letter}: {}", Shown(name)),
    }
}

// Tells the type-ahead: its length, and its text.
fn append_typed(page: &mut Page, block: &[u8; 194])
    ensures { page.new.room.ghost_name ≡ page.old.room.ghost_name }
{
    let n = usize::from(block[LENGTH]);
    if n == 0 {
        writeln!(page, "type-ahead: none");
        return;
    }
    let typed = Shown(rows::part(block, TYPED, n.min(MOST)));
    writeln!(page, "type-ahead: {}: {typed}", Count(n, "byte"));
}

// Tells what stands in the block before the load entries, but for the flag.
fn append_setting(page: &mut Page, block: &[u8; 194])
    ensures { page.new.room.ghost_name ≡ page.old.room.ghost_name }
{
    for (letter, name) in ['A', 'B', 'C', 'D'].iter().zip(block.chunks_exact(NAME)) {
        append_drive(page, *letter, name);
    }
    writeln!(page, "IOBYTE: {:02X}", block[IOBYTE]);
    append_typed(page, block);
}

// The name of the first file whose row is, behind its name, this load entry.
fn name_of<'a>(directory: &'a [u8], entry: &[u8; ENTRY]) -> Option<&'a [u8; NAME]> {
    directory
        .chunks_exact(directory::ROW)
        .find(|row| row.ends_with(entry))?
        .first_chunk()
}

// Tells the name that the directory has for a load entry, at the left of a column of eight.
fn append_name(page: &mut Page, directory: &[u8], entry: &[u8; ENTRY])
    ensures { page.new.room.ghost_name ≡ page.old.room.ghost_name }
{
    let name = unpadded(name_of(directory, entry).unwrap_or(b"?       "));
    write!(page, "{}", Shown(name));
    page.append(&[b' '; NAME][name.len()..]);
}

// Tells a load entry, on a line: file, disk address, length, load address, start offset, and whether it is a program.
fn append_entry(page: &mut Page, entry: &[u8; ENTRY], directory: &[u8])
    ensures { page.new.room.ghost_name ≡ page.old.room.ghost_name }
{
    append_name(page, directory, entry);
    let [volume, partition, _, _, sector, ..] = *entry;
    let track = u16::low_first_at(entry, 2);
    let length = u16::low_first_at(entry, 5);
    write!(
        page,
        "{volume:7}   {partition:7}{track:7}{sector:7}{length:7}"
    );
    let load = u32::low_first_at(entry, 7);
    let start = u16::low_first_at(entry, 11);
    let kind = if entry[13] % 2 == 1 {
        "program"
    } else {
        "data"
    };
    writeln!(page, "  {load:08X}   {start:04X}  {kind}");
}

// Tells the load list, with a line above it that names its columns. An entry of zeros is none.
fn append_list(page: &mut Page, block: &[u8; 194], directory: &[u8])
    ensures { page.new.room.ghost_name ≡ page.old.room.ghost_name }
{
    writeln!(
        page,
        "file     volume partition  track sector length   load at  start  kind"
    );
    for k in 0..8usize {
        let entry = rows::array_at(block, ENTRIES + ENTRY * k);
        if !rows::is_zero(&entry) {
            append_entry(page, &entry, directory);
        }
    }
}

// Tells what a login is given: the honor flag, and what the block has, unless nothing can be loaded. A number and no `Honor`, so that
// it takes any.
pub fn append_honored(page: &mut Page, flag: u8, block: &[u8; 194], directory: &[u8])
    ensures { page.new.room.ghost_name ≡ page.old.room.ghost_name }
{
    let honor = honor_of(flag);
    writeln!(page, "honor flag {}: {}", u8::from(honor), words_of(honor));
    if honor != Honor::Nothing {
        append_setting(page, block);
        append_list(page, block, directory);
    }
}
