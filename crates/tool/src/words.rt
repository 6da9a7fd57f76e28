// What is said of a site file behind its name. Whether it is good, and what its first fault is, `site::check` alone
// says; here the fault is put into words, with the fields that it is about.
ghost use Rattle.std.specs.Prelude.{◌≡◌, ◌+◌, ◌≤◌, ◌<◌, Err, IfSome};
ghost use Rattle.site.specs.Faults.{checked};

use crate::Status;
use pages::{Count, Page};
use rows::LowFirst;
use site::{Breach, Fault};

// How long a header is, a user row and a partition row.
const HEADER: usize = 8;

const USER: usize = 16;

const PARTITION: usize = 24;

// The rows of a kind: where they begin, and how long one is.
#[derive(Clone, Copy)]
struct Rows {
    from: usize,
    width: usize,
    ghost near: { from < 2000000 },
    ghost short: { (0 < width) × (width ≤ 24) },
}

impl Rows {
    // Tells the first and the last byte of row i.
    fn append_span(self, page: &mut Page, i: usize)
        requires { i < 256 }
        ensures { page.new.room.ghost_name ≡ page.old.room.ghost_name }
    {
        let first = self.from + self.width * i;
        write!(page, "{first} to {}", first + self.width - 1);
    }

    // Tells where a row stands, and where the earlier one does, if there is one.
    fn append_places(self, page: &mut Page, row: u8, earlier: Option<usize>)
        requires { IfSome earlier (λ e. e < 256) }
        ensures { page.new.room.ghost_name ≡ page.old.room.ghost_name }
    {
        write!(page, " (bytes ");
        self.append_span(page, usize::from(row));
        if let Some(earlier) = earlier {
            write!(page, " and ");
            self.append_span(page, earlier);
        }
        write!(page, ")");
    }
}

// The numbers of a header: how many rows of each kind there are, and where it says that they begin.
#[derive(Clone, Copy)]
struct Header {
    users: u16,
    users_from: u16,
    partitions: u16,
    partitions_from: u16,
}

impl Header {
    // The header of a file, unless the file is too short for one.
    fn of_file(file: &[u8]) -> Option<Header> {
        let header: &[u8; HEADER] = file.first_chunk()?;
        Some(Header {
            users: u16::low_first_at(header, 0),
            users_from: u16::low_first_at(header, 2),
            partitions: u16::low_first_at(header, 4),
            partitions_from: u16::low_first_at(header, 6),
        })
    }

    // How many user rows there are.
    fn user_count(self) -> Count<'static> {
        Count(usize::from(self.users), "user")
    }

    // How many partition rows there are. Beside user_count: the field and the word are all that they say.
    fn partition_count(self) -> Count<'static> {
        Count(usize::from(self.partitions), "partition")
    }

    // The partition rows, which begin where the user rows end.
    fn partition_rows(self) -> Rows {
        Rows {
            from: HEADER + USER * usize::from(self.users),
            width: PARTITION,
        }
    }
}

// The fields of a partition row that the rules say something of, but its name.
#[derive(Clone, Copy)]
struct Partition {
    volume: u8,
    number: u8,
    size: u8,
    first: u32,
    spare: [u8; 2],
}

impl Partition {
    // The row that begins at `at`; what lies beyond the end of the file is zero.
    fn at(file: &[u8], at: usize) -> Partition {
        let row = file
            .get(at..)
            .and_then(|rest| rest.first_chunk())
            .unwrap_or(&[0; PARTITION]);
        Partition {
            volume: row[14],
            number: row[15],
            size: row[16],
            first: u32::low_first_at(row, 18),
            spare: [row[22], row[23]],
        }
    }
}

// Tells how long the file is. Of one that is too long no more has been read than shows that.
fn append_length(page: &mut Page, file: &[u8])
    ensures { page.new.room.ghost_name ≡ page.old.room.ghost_name }
{
    let n = file.len();
    if site::ROOM <= n {
        write!(page, "more than 3592 bytes in all");
    } else {
        write!(page, "{} in all", Count(n, "byte"));
    }
}

// Of a header out of range: tells its numbers.
fn append_header(page: &mut Page, file: &[u8], header: Header)
    ensures { page.new.room.ghost_name ≡ page.old.room.ghost_name }
{
    let Header {
        users_from,
        partitions_from,
        ..
    } = header;
    let users = header.user_count();
    write!(
        page,
        ": header: out of range: {users} from byte {users_from}, "
    );
    let partitions = header.partition_count();
    write!(page, "{partitions} from byte {partitions_from}, ");
    append_length(page, file);
}

// Of a user row: tells that it has the name of an earlier one, and where they stand.
fn append_user(page: &mut Page, row: u8, earlier: Option<usize>)
    requires { IfSome earlier (λ e. e < 256) }
    ensures { page.new.room.ghost_name ≡ page.old.room.ghost_name }
{
    write!(page, ": user row {row}");
    if let Some(earlier) = earlier {
        write!(page, ": repeats the name of the earlier row {earlier}");
    }
    let rows = Rows {
        from: HEADER,
        width: USER,
    };
    rows.append_places(page, row, earlier);
}

// A field is out of range: all that the rules say something of are told, whichever it is.
fn append_range(page: &mut Page, row: Partition)
    ensures { page.new.room.ghost_name ≡ page.old.room.ghost_name }
{
    let Partition {
        volume,
        number,
        size,
        first,
        spare: [spare, last],
    } = row;
    write!(
        page,
        ": out of range: volume {volume}, number {number}, size code {size}, first sector {first}"
    );
    write!(page, ", spare bytes {spare} {last}");
}

// Tells what is wrong with a partition row, by itself or beside an earlier one.
fn append_breach(page: &mut Page, row: Partition, breach: Breach, earlier: Option<usize>)
    ensures { page.new.room.ghost_name ≡ page.old.room.ghost_name }
{
    let Partition { volume, number, .. } = row;
    match (breach, earlier) {
        (Breach::Range, _) | (_, None) => append_range(page, row),
        (Breach::Name, Some(earlier)) => {
            write!(page, ": repeats the name of the earlier row {earlier}");
        }
        (Breach::Number, Some(earlier)) => {
            write!(
                page,
                ": repeats volume {volume} and number {number} of the earlier row {earlier}"
            );
        }
        (Breach::Overlap, Some(earlier)) => {
            write!(
                page,
                ": overlaps the earlier row {earlier} on volume {volume}"
            );
        }
    }
}

// Tells the fault of a file, which is the one that the check has given for it.
#[tactic(auto, unfolding(site::specs::Faults::fault_row))]
fn append_fault(page: &mut Page, file: &[u8], header: Header, fault: Fault)
    requires { checked file.now ≡ Err fault }
    ensures { page.new.room.ghost_name ≡ page.old.room.ghost_name }
{
    let earlier = site::earlier_row(file, fault);
    match fault {
        Fault::InHeader => append_header(page, file, header),
        Fault::InUser(row) => append_user(page, row, earlier),
        Fault::InPartition(row, breach) => {
            let rows = header.partition_rows();
            let partition = Partition::at(file, rows.from + rows.width * usize::from(row));
            write!(page, ": partition row {row}");
            append_breach(page, partition, breach, earlier);
            rows.append_places(page, row, earlier);
        }
    }
}

// Checks the file, and tells what came of it.
pub fn append_verdict(page: &mut Page, file: &[u8]) -> Status
    ensures { page.new.room.ghost_name ≡ page.old.room.ghost_name }
{
    let Some(header) = Header::of_file(file) else {
        write!(
            page,
            ": header: out of range: {} in all, and a header has {HEADER}",
            Count(file.len(), "byte")
        );
        return Status::Broken;
    };
    match site::check(file) {
        Ok(()) => {
            let users = header.user_count();
            let partitions = header.partition_count();
            write!(page, ": good, {users}, {partitions}");
            Status::Good
        }
        Err(fault) => {
            append_fault(page, file, header, fault);
            Status::Broken
        }
    }
}
