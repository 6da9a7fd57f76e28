// Plays a session: the site file site.bin, records from standard input, and a line of text for each. The input comes in
// blocks; what a block holds of a record that is not whole is kept for the next one. What cannot be read or written is
// told on standard error.
#![tactic(auto)]

mod block;

ghost use Rattle.std.specs.Prelude.{◌≡◌, ◌+◌, ◌*◌, ◌^◌, ◌≤◌, ◌<◌, IfSome, length};
ghost use Rattle.files.specs.Counts.{IsPrefixLen};
ghost use Rattle.session.specs.Session.{between, Takes};

use block::Session;
use files::Errors;
use std::io::Read;
use std::rt::Files;

// A proved loop has to end, and nothing says that an input does. No run takes so many blocks.
const TURNS: u64 = 1125899906842624;

// Writes the text to standard output, and answers whether it could. Where not, a line on standard error says why.
fn say<R: Print + Errors>(rt: &R, text: &[u8]) -> bool {
    files::or_tell(rt, b"session: standard output", rt.write_all(text)).is_some()
}

// Reads site.bin and answers its length, or 0, which no good file has, where it is missing or cannot be read.
fn read_site<R: Files + Errors>(rt: &R, file: &mut [u8]) -> usize
    ensures { IsPrefixLen result file.new }
{
    let (n, read) = files::read_file(rt, b"site.bin", file);
    match files::or_tell(rt, b"session: site.bin", read) {
        Some(()) => n,
        None => 0,
    }
}

// One block: reads, plays what is whole, writes the lines and keeps the rest, whose length is answered. None where there is
// no more to do; what was kept is a record cut short where the input has ended.
fn take_turn<R: Print + Errors, I: Read>(
    rt: &R,
    reader: &mut I,
    session: &mut Session,
    kept: usize,
    input: &mut [u8],
    output: &mut [u8],
) -> Option<usize>
    requires { (kept ≤ 256) × (256 < length input.old) × (48 * length input.old ≤ length output.old) × (session.old.index + length input.old < 2 ^ 64) }
    ensures next { (session.new.index ≤ session.old.index + length input.old) × (session.new.site.now ≡ session.old.site.now) }
    ensures kept_bound { IfSome result (λ rest. rest ≤ 256) }
    ensures takes { IfSome result (λ rest. Takes session.old.site.now (between input.old kept session.old.index session.old.locks session.old.records) (between input.new rest session.new.index session.new.locks session.new.records)) }
{
    let read = files::read_more(reader, input, kept);
    let end = files::or_tell(rt, b"session: standard input", read)?;
    if end == kept {
        if kept != 0 {
            say(rt, b"cut\n");
        }
        return None;
    }
    let played = session.play(&input[..end], output);
    if !say(rt, &output[..played.used]) {
        return None;
    }
    let rest = end - played.at;
    rows::slide(input, played.at, 0, rest);
    Some(rest)
}

// Room for a block.
fn room_for_input() -> [u8; 4096]
    ensures { 4096 ≡ length result }
{
    [0; 4096]
}

// Room for the lines of a block of 4,096 bytes, 48 for each: a record has two bytes or more, a line at most 87.
fn room_for_lines() -> [u8; 196608]
    ensures { 196608 ≡ length result }
{
    [0; 196608]
}

// Plays the records of standard input, from fresh tables on.
fn play_records<R: Input + Print + Errors>(rt: &R, site: &[u8]) {
    let mut reader = rt.reader();
    let mut session = Session::new(site);
    let mut input = room_for_input();
    let mut output = room_for_lines();
    let mut kept = 0;
    for _turn in 0..TURNS {
        let taken = take_turn(rt, &mut reader, &mut session, kept, &mut input, &mut output);
        let Some(rest) = taken else {
            return;
        };
        kept = rest;
    }
}

fn main(rt: HostRuntime) {
    let mut file = [0u8; site::ROOM];
    let n = read_site(&rt, &mut file);
    let site = &file[..n];
    if !site::is_good(site) {
        say(&rt, b"site 10\n");
        return;
    }
    if say(&rt, b"rec num ref answer\n") {
        play_records(&rt, site);
    }
}
