// Sources, sinks and clocks: what calls with ample memory answer, in memory and over std.
use lb_wire::{
    Clock, DayClock, Failed, InputFault, MemClock, MemSink, MemSource, Sink, Source, StdSink,
    StdSource, put_all, read_all,
};
use std::alloc::Global;
use std::cell::Cell;
use std::io::{self, Read};
use std::test::Fail;
use std::time::Duration;

// Bytes of which no two near ones are alike.
fn pattern(alloc: Global, len: u32) -> Result<Vec<u8>, Fail> {
    let mut bytes = Vec::new(alloc);
    for i in 0..len {
        bytes.push((i % 251) as u8)?;
    }
    Ok(bytes)
}

// What is to come of a reading: the whole input, or a fault after so many bytes were taken.
#[derive(Clone, Copy)]
enum Want {
    All,
    Fault(InputFault, usize),
}

#[test]
fn a_whole_input_is_read_or_its_fault_is_told(rt: HostRuntime) -> Result<(), Fail> {
    let table: [(u32, usize, &[u32], Want); 13] = [
        (0, 0, &[], Want::All),
        (0, 10, &[2], Want::All),
        (1, 1, &[], Want::All),
        (1, 0, &[], Want::Fault(InputFault::TooLong, 1)),
        (10, 10, &[], Want::All),
        (11, 10, &[], Want::Fault(InputFault::TooLong, 11)),
        (90, 10, &[], Want::Fault(InputFault::TooLong, 11)),
        (4096, 4096, &[], Want::All),
        (4097, 4096, &[], Want::Fault(InputFault::TooLong, 4097)),
        (9000, usize::MAX, &[], Want::All),
        (9000, 9999, &[1], Want::Fault(InputFault::Failed, 0)),
        (9000, 9999, &[2], Want::Fault(InputFault::Failed, 4096)),
        (9000, 9999, &[7, 4], Want::Fault(InputFault::Failed, 9000)),
    ];
    for (len, most, fails, want) in table {
        let input = pattern(rt.alloc(), len)?;
        let mut source = MemSource::new(rt.alloc(), &input, fails)?;
        let answer = read_all(rt.alloc(), &mut source, most);
        match want {
            Want::All => {
                let bytes = answer.expect(&rt, "the whole input");
                assert!(rt; bytes.as_slice() == input.as_slice(), "{len} of {most}");
            }
            Want::Fault(fault, taken) => {
                assert_eq!(rt; answer.err(), Some(fault), "{len} of {most}");
                let mut rest = [0; 9000];
                let count = source.read(&mut rest).unwrap_or(0);
                assert_eq!(rt; count + taken, input.len(), "{len} of {most}");
                assert!(rt; rest.get(..count) == input.get(taken..), "{len} of {most}");
            }
        }
    }
    Ok(())
}

#[test]
fn each_piece_is_one_call_of_a_sink_that_takes_it_whole(rt: HostRuntime) -> Result<(), Fail> {
    let pieces: [&[u8]; 4] = [b"ab", b"", b"c", b"def"];
    let table: [(&[u32], &[u8], [bool; 4]); 5] = [
        (&[], b"abcdef", [true, true, true, true]),
        (&[1], b"cdef", [false, true, true, true]),
        (&[2], b"abdef", [true, true, false, true]),
        (&[3], b"abc", [true, true, true, false]),
        (&[4, 3, 2, 1], b"", [false, true, false, false]),
    ];
    for (fails, written, wants) in table {
        let mut sink = MemSink::new(rt.alloc(), fails)?;
        for (piece, want) in pieces.iter().zip(wants) {
            assert_eq!(rt; put_all(&mut sink, piece).is_ok(), want, "{fails:?}");
        }
        assert!(rt; sink.bytes() == written, "{fails:?}");
    }
    Ok(())
}

#[test]
fn std_readers_and_writers_are_sources_and_sinks(rt: HostRuntime) -> Result<(), Fail> {
    let (first, second): (&[u8], &[u8]) = (b"two ", b"parts");
    let mut source = StdSource::new(first.chain(second));
    let bytes = read_all(rt.alloc(), &mut source, 9).expect(&rt, "both parts");
    assert!(rt; bytes.as_slice() == b"two parts".as_slice());
    assert_eq!(rt; source.read(&mut [0]), Ok(0));

    let mut sink = StdSink::new(Vec::new(rt.alloc()));
    assert_eq!(rt; put_all(&mut sink, b"piece"), Ok(()));
    let mut room = [0; 3];
    let mut narrow = StdSink::new(&mut room[..]);
    assert_eq!(rt; narrow.put(b""), Ok(0));
    assert_eq!(rt; put_all(&mut narrow, b"piece"), Err(Failed));
    assert!(rt; room == *b"pie");
    Ok(())
}

// A system's clock that shows what it is set to, or fails.
#[derive(Drop)]
struct Shown(Cell<Option<u64>>);

impl std::rt::Clock for Shown {
    fn monotonic(&self) -> io::Result<Duration> {
        self.since_1970()
    }

    fn since_1970(&self) -> io::Result<Duration> {
        match self.0.get() {
            Some(secs) => Ok(Duration::from_secs(secs)),
            None => Err(io::ErrorKind::Other.into()),
        }
    }
}

#[test]
fn a_day_is_in_its_range(rt: HostRuntime) {
    let table = [
        (None, 0),
        (Some(86_399), 0),
        (Some(86_400), 1),
        (None, 1),
        (Some(1_709_164_800), 19_782),
        (Some(0), 0),
        (Some(253_402_300_799), 2_932_896),
        (Some(253_402_300_800), 2_932_896),
        (Some(u64::MAX), 2_932_896),
        (None, 2_932_896),
    ];
    let shown = Shown(Cell::new(None));
    let mut clock = DayClock::new(&shown);
    for (secs, day) in table {
        shown.0.set(secs);
        assert_eq!(rt; clock.today(), day, "{secs:?}");
    }
    let mut fixed = MemClock::new(-719_162);
    assert_eq!(rt; (fixed.today(), fixed.today()), (-719_162, -719_162));
}
