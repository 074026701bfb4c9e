// Readers and writers whose calls are counted, and of which one fails.
use std::io;
use std::io::{Read, Write};
use std::test::Fail;
use xds_frames::counted::MOST_CALLS;
use xds_frames::{Counted, Faulty, read_whole, write_whole};
use xds_resource::Refusal;

// A writer that takes nothing.
#[derive(Drop)]
struct Full;

impl Write for Full {
    fn write(&mut self, _buf: &[u8]) -> io::Result<usize> {
        Ok(0)
    }

    fn flush(&mut self) -> io::Result<()> {
        Ok(())
    }
}

// A writer that counts how often it was flushed, and whose flushes fail from one on.
#[derive(Drop)]
struct Flushed {
    times: u64,
    failing: u64,
}

impl Write for Flushed {
    fn write(&mut self, buf: &[u8]) -> io::Result<usize> {
        Ok(buf.len())
    }

    fn flush(&mut self) -> io::Result<()> {
        self.times = self.times.saturating_add(1);
        if self.times >= self.failing {
            return Err(io::Error::from(io::ErrorKind::Other));
        }
        Ok(())
    }
}

#[test]
fn a_flush_is_passed_on_and_its_failure_told(rt: HostRuntime) -> Result<(), Fail> {
    let mut writer = Counted::new(Flushed {
        times: 0,
        failing: 2,
    });
    assert!(rt; write_whole(&mut writer, b"ab") == Ok(()));
    assert_eq!(rt; (writer.inner.times, writer.failed), (1, 0));
    assert!(rt; write_whole(&mut writer, b"cd") == Err(Refusal::Device));
    assert_eq!(rt; (writer.inner.times, writer.failed), (2, 1));
    Ok(())
}

#[test]
fn a_device_that_fails_is_blamed_and_asked_once(rt: HostRuntime) -> Result<(), Fail> {
    let alloc = rt.alloc();
    let mut reader = Counted::new(Faulty::new(b"abc".as_slice(), 1));
    assert!(rt; matches!(&read_whole(alloc, &mut reader), Err(Refusal::Device)));
    assert_eq!(rt; (reader.calls, reader.failed), (1, 1));
    assert_eq!(rt; reader.inner.inner, b"abc".as_slice());
    assert_eq!(rt;
        read_whole(alloc, &mut reader)?.as_slice(),
        b"abc".as_slice()
    );
    assert_eq!(rt; reader.failed, 1);
    Ok(())
}

#[test]
fn a_write_that_takes_nothing_has_failed(rt: HostRuntime) -> Result<(), Fail> {
    let mut writer = Counted::new(Full);
    assert!(rt; writer.write(b"a").is_err());
    assert!(rt; writer.write(b"").is_ok());
    assert!(rt; writer.flush().is_ok());
    assert_eq!(rt; (writer.calls, writer.failed), (3, 1));
    Ok(())
}

#[test]
fn one_call_fails_and_is_counted(rt: HostRuntime) -> Result<(), Fail> {
    let mut reader = Counted::new(Faulty::new(b"abcd".as_slice(), 2));
    let mut piece = [0; 2];
    assert!(rt; matches!(&reader.read(&mut piece), Ok(2)));
    assert!(rt; reader.read(&mut piece).is_err());
    assert!(rt; matches!(&reader.read(&mut piece), Ok(2)));
    assert_eq!(rt; piece.as_slice(), b"cd".as_slice());
    assert_eq!(rt; (reader.calls, reader.failed), (3, 1));
    let mut writer = Counted::new(Faulty::new(Vec::new(rt.alloc()), 2));
    assert!(rt; write_whole(&mut writer, b"ab") == Err(Refusal::Device));
    assert!(rt; write_whole(&mut writer, b"cd") == Ok(()));
    assert_eq!(rt; writer.inner.inner.as_slice(), b"abcd".as_slice());
    assert_eq!(rt; (writer.calls, writer.failed), (4, 1));
    Ok(())
}

#[test]
fn calls_after_the_last_fail(rt: HostRuntime) -> Result<(), Fail> {
    let alloc = rt.alloc();
    let mut reader = Counted::new(b"abc".as_slice());
    assert_eq!(rt;
        read_whole(alloc, &mut reader)?.as_slice(),
        b"abc".as_slice()
    );
    assert_eq!(rt; reader.failed, 0);
    let mut reader = Counted {
        inner: b"abc".as_slice(),
        calls: MOST_CALLS - 1,
        failed: 0,
    };
    let mut piece = [0; 2];
    assert!(rt; matches!(&reader.read(&mut piece), Ok(2)));
    assert!(rt; reader.read(&mut piece).is_err());
    assert!(rt; reader.read(&mut piece).is_err());
    assert_eq!(rt; (reader.calls, reader.failed), (MOST_CALLS, 2));
    assert_eq!(rt; reader.inner, b"c".as_slice());
    assert!(rt; matches!(&read_whole(alloc, &mut reader), Err(Refusal::Device)));
    Ok(())
}
