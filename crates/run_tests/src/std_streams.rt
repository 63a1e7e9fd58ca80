//! The adapters of the standard streams: that bytes pass them is what no clause says.

use std::io;
use std::io::{Error, Read, Write};
use std::test::Fail;
use wire_io::{Failed, Sink, Source, StdSink, StdSource, put_all, read_all};

// A reader and writer that fails where it is told to.
#[derive(Clone, Copy, Drop)]
struct Broken {
    write: bool,
    flush: bool,
    count: usize,
}

impl Read for Broken {
    fn read(&mut self, _buf: &mut [u8]) -> io::Result<usize> {
        Err(Error::other("no reading"))
    }
}

impl Write for Broken {
    fn write(&mut self, buf: &[u8]) -> io::Result<usize> {
        if self.write {
            return Err(Error::other("no writing"));
        }
        Ok(buf.len().min(self.count))
    }

    fn flush(&mut self) -> io::Result<()> {
        if self.flush {
            return Err(Error::other("no flushing"));
        }
        Ok(())
    }
}

// Bytes pass the adapters of the standard streams, and each error is a fault.
#[test]
fn passes_bytes_and_faults(rt: HostRuntime) -> Result<(), Fail> {
    let alloc = rt.alloc();
    let mut source = StdSource::new(b"hello".as_slice());
    let bytes = read_all(alloc, &mut source, 5).map_err(|_| Fail::from("unread"))?;
    assert_eq!(rt; bytes.as_slice(), b"hello".as_slice());
    let mut out = Vec::new(alloc);
    {
        let mut sink = StdSink::new(&mut out);
        assert_eq!(rt; put_all(&mut sink, &bytes), Ok(()));
    }
    assert_eq!(rt; out.as_slice(), b"hello".as_slice());

    let cases = [
        (false, false, 2, Ok(2)),
        (true, false, 2, Err(Failed)),
        (false, true, 2, Err(Failed)),
        (false, false, 0, Err(Failed)),
    ];
    for (write, flush, count, expected) in cases {
        let broken = Broken {
            write,
            flush,
            count,
        };
        assert_eq!(rt; StdSink::new(broken).put(b"hello"), expected);
        assert_eq!(rt; StdSource::new(broken).take(&mut [0; 4]), Err(Failed));
    }
    Ok(())
}
