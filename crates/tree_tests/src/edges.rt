use cal_base::{FaultSink, FaultSource, MemSink, MemSource, Sink, Source, StdSink, StdSource};
use std::alloc::Global;
use std::fs::File;
use std::test::Fail;
use std::{fs, io};

/// What a device does in one call.
#[derive(Clone, Copy)]
enum Turn {
    /// It gives or takes at most so many bytes.
    Bytes(usize),
    /// A signal interrupts it.
    Interrupted,
    /// It is broken in this call.
    Broken,
}

/// A reader and writer that does in each call what the next of its turns says, and behind the last of
/// them nothing.
#[derive(Drop)]
struct Device<'a> {
    turns: &'a [Turn],
    text: &'a [u8],
    taken: Vec<u8>,
}

impl Device<'_> {
    fn new<'a>(alloc: Global, turns: &'a [Turn], text: &'a [u8]) -> Device<'a> {
        let taken = Vec::new(alloc);
        Device { turns, text, taken }
    }

    /// How many bytes may pass in this call.
    fn turn(&mut self) -> io::Result<usize> {
        let [turn, later @ ..] = self.turns else {
            return Ok(0);
        };
        self.turns = later;
        match *turn {
            Turn::Bytes(count) => Ok(count),
            Turn::Interrupted => Err(io::Error::from(io::ErrorKind::Interrupted)),
            Turn::Broken => Err(io::Error::from(io::ErrorKind::BrokenPipe)),
        }
    }
}

impl io::Read for Device<'_> {
    fn read(&mut self, into: &mut [u8]) -> io::Result<usize> {
        let count = self.turn()?.min(into.len()).min(self.text.len());
        into[..count].copy_from_slice(&self.text[..count]);
        self.text = &self.text[count..];
        Ok(count)
    }
}

impl io::Write for Device<'_> {
    fn write(&mut self, piece: &[u8]) -> io::Result<usize> {
        let count = self.turn()?.min(piece.len());
        self.taken.extend_from_slice(&piece[..count])?;
        Ok(count)
    }

    fn flush(&mut self) -> io::Result<()> {
        Ok(())
    }
}

#[test]
fn a_source_reads_on_after_a_signal_and_fails_with_its_reader(rt: HostRuntime) -> Result<(), Fail> {
    let turns = [
        Turn::Interrupted,
        Turn::Bytes(2),
        Turn::Broken,
        Turn::Bytes(1),
    ];
    let mut device = Device::new(rt.alloc(), &turns, b"abc");
    let mut source = StdSource::new(&mut device);
    let mut buffer = [b'.'; 4];
    assert_eq!(rt; source.read(&mut buffer).ok(), Some(2));
    assert!(rt; buffer.as_slice() == b"ab..".as_slice());
    assert_eq!(rt; source.faults(), 1);
    assert!(rt; source.read(&mut buffer).is_err());
    assert_eq!(rt; source.faults(), 2);
    assert_eq!(rt; source.read(&mut buffer).ok(), Some(1));
    assert_eq!(rt; source.read(&mut buffer).ok(), Some(0));
    Ok(())
}

#[test]
fn a_sink_goes_on_behind_what_was_taken(rt: HostRuntime) -> Result<(), Fail> {
    let turns = [
        Turn::Bytes(3),
        Turn::Interrupted,
        Turn::Bytes(8),
        Turn::Bytes(2),
        Turn::Broken,
        Turn::Bytes(0),
        Turn::Bytes(8),
    ];
    let mut device = Device::new(rt.alloc(), &turns, b"");
    let mut sink = StdSink::new(&mut device);
    assert!(rt; sink.reserve(8).is_ok());
    assert!(rt; sink.write(b"abcdefgh").is_ok());
    assert_eq!(rt; sink.faults(), 1);
    assert!(rt; sink.write(b"ijkl").is_err());
    assert!(rt; sink.write(b"mn").is_err());
    assert_eq!(rt; sink.faults(), 3);
    assert!(rt; sink.write(b"op").is_ok());
    assert!(rt; device.taken.as_slice() == b"abcdefghijop".as_slice());
    Ok(())
}

#[test]
fn files_are_written_and_read_back(rt: HostRuntime) -> Result<(), Fail> {
    let path = "calypso_edges";
    let mut sink = StdSink::new(fs::create(&rt, path)?);
    assert!(rt; sink.write(b"hello, ").is_ok());
    assert!(rt; sink.write(b"world").is_ok());
    assert_eq!(rt; sink.faults(), 0);
    let mut source = StdSource::new(fs::open(&rt, path)?);
    let mut buffer = [b'.'; 16];
    assert_eq!(rt; source.read(&mut buffer).ok(), Some(12));
    assert!(rt; buffer.as_slice() == b"hello, world....".as_slice());
    assert_eq!(rt; source.read(&mut buffer).ok(), Some(0));
    assert_eq!(rt; source.faults(), 0);
    fs::remove_file(&rt, path)?;
    Ok(())
}

#[test]
fn a_full_device_and_a_directory_fail(rt: HostRuntime) -> Result<(), Fail> {
    let mut full = StdSink::new(fs::create(&rt, "/dev/full")?);
    assert!(rt; full.write(b"a").is_err());
    assert_eq!(rt; full.faults(), 1);
    let mut directory = StdSource::new(fs::open(&rt, "/")?);
    let mut buffer = [0; 4];
    assert!(rt; directory.read(&mut buffer).is_err());
    assert_eq!(rt; directory.faults(), 1);
    Ok(())
}

#[test]
fn memory_gives_and_takes_but_for_listed_calls(rt: HostRuntime) -> Result<(), Fail> {
    let alloc = rt.alloc();
    let bytes = b"hello".to_vec(alloc)?;
    let mut source = FaultSource::new(MemSource::new(bytes), vec![in alloc; 1]?);
    let mut buffer = [0; 3];
    assert_eq!(rt; source.read(&mut buffer).ok(), Some(3));
    assert!(rt; source.read(&mut buffer).is_err());
    assert_eq!(rt; source.read(&mut buffer).ok(), Some(2));
    let memory = MemSink::new(alloc).ok().ok_or("no memory")?;
    let mut sink = FaultSink::new(memory, vec![in alloc; 0]?);
    assert!(rt; sink.reserve(1).is_ok());
    assert!(rt; sink.write(b"a").is_err());
    assert!(rt; sink.reserve(1).is_ok());
    assert!(rt; sink.write(b"b").is_ok());
    assert!(rt; sink.bytes() == b"b".as_slice());
    Ok(())
}
