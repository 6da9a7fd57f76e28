// A station's list of locks: places of 14 lent bytes, length and string, the used ones first.
ghost use Rattle.std.specs.Prelude.{◌≡◌, ◌+◌, ◌*◌, ◌/◌, ◌≤◌, length};
ghost use Rattle.rows.specs.Outcomes.{Finds};
ghost use Rattle.rows.specs.Rows.{put as put_in};
ghost use Rattle.terms.specs.Strings.{string_bytes, normal};
ghost use Rattle.station.specs.State.{places, place_count, place_of, unused, listed, struck_at};
ghost use Rattle.station.specs.Asks.{struck};

use terms::LockString;
use terms::table::{Shape, Table};

pub const PLACE: usize = 14;

// The places as they hold their strings.
pub fn strings(list: &[u8]) -> Table<'_>
    ensures bytes { result.bytes.now ≡ list.now }
    ensures shape { result.shape ≡ places }
    ensures count { result.count ≡ length list.now / 14 }
{
    Table {
        bytes: list,
        shape: Shape {
            width: PLACE,
            string: 0,
            free: 0,
        },
        count: list.len() / PLACE,
    }
}

// Place i is unused.
pub fn is_unused(list: &[u8], i: usize) -> bool
    requires { 14 * i + 14 ≤ length list.now }
    ensures { result ≡ unused list.now i }
{
    list[PLACE * i] == 0
}

// The place that holds s.
#[tactic(auto, unfolding(crate::specs::State::place_of))]
pub fn find(list: &[u8], s: LockString) -> Option<usize>
    ensures { Finds (place_count list.now) (place_of list.now s) result }
{
    strings(list).find(s)
}

// The first unused place: how many strings are listed.
#[tactic(auto, unfolding(crate::specs::State::listed))]
pub fn first_unused(list: &[u8]) -> Option<usize>
    ensures { Finds (place_count list.now) (listed list.now) result }
{
    strings(list).first_free()
}

// Puts s down in place i, with zeros after it.
pub fn put(list: &mut [u8], i: usize, s: LockString)
    requires { 14 * i + 14 ≤ length list.old }
    ensures { list.new ≡ put_in list.old (14 * i) (string_bytes (normal s)) }
{
    terms::put_string(list, PLACE * i, terms::normal(s));
}

// Strikes place i: the places after it move down by one, and the last becomes unused.
fn strike_at(list: &mut [u8], i: usize)
    requires { 14 * i + 14 ≤ length list.old }
    ensures { list.new ≡ struck_at list.old i }
{
    let at = PLACE * i;
    let last = list.len() - PLACE;
    rows::slide(list, at + PLACE, at, last - at);
    rows::put(list, last, &[0; PLACE]);
}

// Strikes s from the list where it is legal and listed.
pub fn strike(list: &mut [u8], s: LockString)
    ensures { list.new ≡ struck list.old s }
{
    if !terms::is_legal(s) {
        return;
    }
    if let Some(i) = find(list, s) {
        strike_at(list, i);
    }
}
