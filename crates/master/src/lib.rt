// The master's entries: fresh tables, the check of the tables, one frame and one poll turn; one frame from the line stands in
// line.rt. The tables are lent; an answer is an enum by value, and `told` (specs/Answers.antt) says what it tells, or what
// the refusal tells in its place. The lock table and the records stay two parameters: the entries are called with them so,
// in the order that README gives, and a struct would be put together in each to be taken apart in `locks` and `who`.
#![tactic(auto)]

mod checks;
mod commands;
pub mod line;
mod poll;

ghost use Rattle.std.specs.Prelude.{◌≡◌, true};
ghost use Rattle.rows.specs.Outcomes.{Gives};
ghost use Rattle.master.specs.Tables.{good_tables};
ghost use Rattle.master.specs.Frames.{Serves};
ghost use Rattle.master.specs.Fresh.{Freshens};
ghost use Rattle.master.specs.Answers.{turn_told};
ghost use Rattle.master.specs.Polls.{due_told, Polls};
ghost use Rattle.master.specs.RowPolls.{RowPolls};

use framing::Heading;
use refusals::Refusal;
use site::{Refused, Site};
use terms::{Partition, Place, Status, Volume};
use who::Station;

// What a frame that is not refused is answered.
#[derive(Clone, Copy)]
pub enum Answer {
    Nothing,
    Status(Status),
    Assigned {
        size: u8,
        partition: Partition,
        control: u8,
        volume: Volume,
    },
    At(Place),
    LoggedIn {
        number: u8,
        found: bool,
        serial: u32,
    },
}

// What a frame from the line is answered: another's by its user number and length, or the master's own as a frame is.
#[derive(Clone, Copy)]
pub enum Received {
    Another(Heading),
    Answered(Answer),
}

// What a poll turn is answered: was it due, did it end in a logout.
#[derive(Clone, Copy)]
pub struct Turned {
    pub due: bool,
    pub out: bool,
}

// Fills fresh tables: 64 free rows and only user 0. 11 for another size.
#[tactic(auto, unfolding(crate::specs::Fresh::fresh_effect, crate::specs::Fresh::sized, crate::specs::Effects::unless, crate::specs::Answers::done_told))]
pub fn fresh(locks: &mut [u8], records: &mut [u8]) -> Result<(), Refusal>
    ensures { Freshens locks.old records.old result locks.new records.new }
{
    if locks.len() != locks::BYTES || records.len() != who::BYTES {
        return Err(Refusal::BadTables);
    }
    locks::fresh(locks);
    who::fresh(records);
    Ok(())
}

// The tables have the right sizes and keep every rule; refusal 11 where they do not.
pub fn tables_good(locks: &[u8], records: &[u8]) -> bool
    ensures { Gives (good_tables locks.now records.now) result }
{
    who::is_good(records) && locks::is_good(locks, who::lent::word_of(records))
}

// One frame at the number polled, over tables and a site file that are known to be good: 1 to 9, or what the frame does.
pub fn act(
    number: u32,
    frame: &[u8],
    site: &Site,
    locks: &mut [u8],
    records: &mut [u8],
) -> Result<Answer, Refused>
    requires { good_tables locks.old records.old ≡ true }
    ensures { Serves number frame.now site.now.file.now locks.old records.old result locks.new records.new }
{
    let request = checks::request_at(number, frame, records)?;
    commands::perform(number as u8, request, site, locks, records)
}

// One frame at the number polled: 11, 10 with the first fault, 1 to 9, or what the frame does.
pub fn serve(
    number: u32,
    frame: &[u8],
    site: &[u8],
    locks: &mut [u8],
    records: &mut [u8],
) -> Result<Answer, Refused>
    ensures { Serves number frame.now site.now locks.old records.old result locks.new records.new }
{
    if !tables_good(locks, records) {
        return Err(Refused::By(Refusal::BadTables));
    }
    let site = Site::of(site)?;
    act(number, frame, &site, locks, records)
}

// Is the next poll turn of the number due: 11, 2, 5, or due, and no logout.
pub fn due(number: u32, locks: &[u8], records: &[u8]) -> Result<Turned, Refusal>
    ensures { Gives (due_told number locks.now records.now) (turn_told result) }
{
    if !who::is_good(records) {
        return Err(Refusal::BadTables);
    }
    poll::may_turn(number, who::lent::word_of(records), locks)?;
    let s = who::station_at(records, number as usize);
    let due = who::is_due(s.misses, s.slow);
    Ok(Turned { due, out: false })
}

// One poll turn of the number, heard or not, over the records lent as one row: 11, 2, 5, 12, or the turn.
pub fn poll_row(
    row: &mut [Station],
    locks: &mut [u8],
    number: u32,
    heard: bool,
) -> Result<Turned, Refusal>
    ensures { RowPolls number heard row.old locks.old result row.new locks.new }
{
    let Some(word) = who::lent::roll_call(row) else {
        return Err(Refusal::BadTables);
    };
    poll::may_turn(number, word, locks)?;
    let polled = &mut row[number as usize];
    poll::turn(polled, number as u8, heard, locks)
}

// The same over the records in bytes: they are read into a row, and the record polled is written back.
pub fn poll_turn(
    number: u32,
    heard: bool,
    locks: &mut [u8],
    records: &mut [u8],
) -> Result<Turned, Refusal>
    ensures { Polls number heard locks.old records.old result locks.new records.new }
{
    if !who::lent::is_row(records) {
        return Err(Refusal::BadTables);
    }
    let mut row = [who::lent::vacant(); 64];
    for n in 0..who::NUMBERS {
        row[n] = who::station_at(records, n);
    }
    let turned = poll_row(&mut row, locks, number, heard)?;
    let at = number as usize;
    who::put_station(records, at, row[at]);
    Ok(turned)
}
