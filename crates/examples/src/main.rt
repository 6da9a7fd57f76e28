// 01's checked examples that are not marked: each is run and prints a line, the refusal and the bytes of the answer. The
// marked ones are proved (specs/Marked.antt).
#![tactic(auto)]

// One partition: ARCHIVE1, password SECRET, volume 1, partition 0, size 1, control 5, first sector 2048.
const SITE: [u8; 32] = *b"\0\0\x08\0\x01\0\x08\0ARCHIVE1SECRET\x01\0\x01\x05\0\x08\0\0\0\0";

const EMPTY: [u8; 8] = *b"\0\0\x08\0\0\0\x08\0";

// Assign ARCHIVE1, with six zeros for the password.
const ASSIGN: [u8; 15] = *b"\x17ARCHIVE1\0\0\0\0\0\0";

// What it is an example of, the refusal, and the first n bytes of the answer. What cannot be written is left out.
fn print(rt: &impl Print, what: &str, word: u64, n: usize) {
    let _ = print!(rt; "{what}");
    let _ = print!(rt; "{}", word % 256);
    for byte in word.to_le_bytes().iter().skip(2).take(n) {
        let _ = print!(rt; " {byte:02X}");
    }
    let _ = println!(rt; "");
}

fn place(rt: &impl Print, what: &str, track: u32, sector: u32) {
    print(rt, what, hinet::hinet_place(1, 0, track, sector, &SITE), 0);
}

// An assign by user 0, over fresh tables.
fn assign(rt: &impl Print, what: &str, site: &[u8]) {
    let mut locks = [0u8; locks::BYTES];
    let mut stations = [0u8; who::BYTES];
    hinet::hinet_fresh(&mut locks, &mut stations);
    let word = hinet::hinet_frame(0, &ASSIGN, site, &mut locks, &mut stations);
    print(rt, what, word, 4);
}

fn main(rt: HostRuntime) {
    place(&rt, "track 16: ", 16, 1);
    place(&rt, "sector 0: ", 0, 0);
    place(&rt, "sector 129: ", 0, 129);
    assign(&rt, "assign with six zero password bytes: ", &SITE);
    assign(&rt, "assign with the empty site file: ", &EMPTY);
}
