// Schedules, cut at each place.
use flight_core::{Event, ScheduleFault, ScheduleReader};
use std::alloc::Global;

// A text, and how many of its bytes are a schedule of how many events, or its fault.
#[derive(Drop)]
struct Row<'a> {
    text: &'a [u8],
    want: Result<Taken, ScheduleFault>,
}

#[derive(Clone, Copy, Debug, PartialEq, Eq, Drop)]
struct Taken {
    bytes: usize,
    events: usize,
}

fn good(text: &[u8], bytes: usize, events: usize) -> Row<'_> {
    Row {
        text,
        want: Ok(Taken { bytes, events }),
    }
}

fn bad(text: &[u8], line: u64) -> Row<'_> {
    Row {
        text,
        want: Err(ScheduleFault::Bad { line }),
    }
}

fn ended(text: &[u8], line: u64) -> Row<'_> {
    Row {
        text,
        want: Err(ScheduleFault::Ended { line }),
    }
}

// What a text reads as that comes in two pieces.
fn read(reader: &mut ScheduleReader, first: &[u8], second: &[u8]) -> Result<Taken, ScheduleFault> {
    let taken = match reader.feed(first) {
        Ok(taken) => taken,
        Err(fault) => return Err(fault),
    };
    let more = match reader.feed(second) {
        Ok(more) => more,
        Err(fault) => return Err(fault),
    };
    match reader.finish() {
        Ok(()) => Ok(Taken {
            bytes: taken.saturating_add(more),
            events: reader.events().len(),
        }),
        Err(fault) => Err(fault),
    }
}

// Whether it reads as it should, and the end stays what it is.
fn agrees(alloc: Global, row: &Row, cut: usize) -> bool {
    let (first, second) = row.text.split_at(cut.min(row.text.len()));
    let mut reader = ScheduleReader::new(alloc);
    let got = read(&mut reader, first, second);
    let again = match got {
        Ok(_) => reader.is_complete() && reader.feed(b"feed 1 0 0\n") == Ok(0),
        Err(fault) => reader.feed(b"edges\n") == Err(fault),
    };
    again && got == row.want
}

#[test]
fn texts_read_as_their_format_says_wherever_they_are_cut(rt: HostRuntime) {
    let mut longest = [b'#'; 129];
    longest[128] = b'\n';
    let mut too_long = [b'#'; 130];
    too_long[128] = b'\r';
    too_long[129] = b'\n';
    let rows = [
        good(b"edges", 5, 0),
        good(b"% c\r\n \n\tedges \r\n0 1\n", 16, 0),
        good(b"final 04294967295 0\nskip 1 2\t3\nedges\r", 37, 2),
        ended(b"", 0),
        ended(b"\r", 1),
        ended(b"final 1 0\n", 1),
        ended(b"#\nfeed 1 0 0", 2),
        ended(&longest, 1),
        bad(&too_long, 1),
        bad(&too_long[..129], 1),
        bad(b"\nfinal 4294967296 0\nedges\n", 2),
        bad(b"\nfeed 1 0\n", 2),
        bad(b"\nfinal 1 0 0", 2),
        bad(b"\nskip 1 0 0x\n", 2),
        bad(b"\nfeed 1 0 0 0\n", 2),
        bad(b"\nedges 1\n", 2),
        bad(b"edges\r\r\n", 1),
        bad(b"Edges\n", 1),
    ];
    for (index, row) in rows.iter().enumerate() {
        for cut in 0..=row.text.len() {
            assert!(rt; agrees(rt.alloc(), row, cut), "row {index} cut at {cut}");
        }
    }
}

fn feed(t: u32, i: u32, j: u32) -> Event {
    Event::Feed { t, i, j }
}

fn finish(t: u32, j: u32) -> Event {
    Event::Finalise { t, j }
}

// Iterations 1 and 2 go on at once, and then 2 and 3.
fn interleaved() -> [Event; 18] {
    [
        feed(1, 0, 0),
        feed(1, 1, 0),
        finish(1, 0),
        feed(2, 0, 0),
        feed(2, 0, 1),
        feed(1, 0, 1),
        feed(1, 1, 1),
        finish(1, 1),
        feed(2, 1, 0),
        finish(2, 0),
        feed(3, 0, 1),
        feed(2, 1, 1),
        finish(2, 1),
        feed(3, 0, 0),
        feed(3, 1, 0),
        finish(3, 0),
        feed(3, 1, 1),
        finish(3, 1),
    ]
}

#[test]
fn events_stand_in_the_order_of_their_lines(rt: HostRuntime) {
    let text = b"feed 1 0 0\nfeed 1 1 0\nfinal 1 0\nfeed 2 0 0\nfeed 2 0 1\nfeed 1 0 1\n\
        feed 1 1 1\nfinal 1 1\nfeed 2 1 0\nfinal 2 0\nfeed 3 0 1\nfeed 2 1 1\n\
        final 2 1\nfeed 3 0 0\nfeed 3 1 0\nfinal 3 0\nfeed 3 1 1\nfinal 3 1\nedges\n0 1\n";
    for cut in 0..=text.len() {
        let (first, second) = text.split_at(cut);
        let mut reader = ScheduleReader::new(rt.alloc());
        let want = Taken {
            bytes: 198,
            events: 18,
        };
        assert_eq!(rt; read(&mut reader, first, second), Ok(want), "cut at {cut}");
        assert_eq!(rt; reader.events(), interleaved().as_slice(), "cut at {cut}");
    }
}

// A reader that has read as many events as there may be, and the front of one more.
fn full_reader(alloc: Global) -> ScheduleReader {
    let mut reader = ScheduleReader::new(alloc);
    for _ in 0..100000u32 {
        let _ = reader.feed(b"final 1 0\n");
    }
    let _ = reader.feed(b"final 1 0");
    reader
}

#[test]
fn the_event_behind_the_greatest_number_is_too_many_at_its_lines_end(rt: HostRuntime) {
    let fault = ScheduleFault::TooManyEvents { limit: 100000 };
    let mut reader = full_reader(rt.alloc());
    assert_eq!(rt; reader.events().len(), 100000);
    assert_eq!(rt; reader.feed(b"\n"), Err(fault));
    let mut reader = full_reader(rt.alloc());
    assert_eq!(rt; reader.finish(), Err(fault));
}
