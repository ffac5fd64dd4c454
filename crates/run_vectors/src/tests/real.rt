// A place of real files, and a console over other streams. What the counts of faults are is proved, and read by no call.
use crate::tests::places::{answers, told};
use std::alloc::Global;
use std::fs::Files;
use std::io;
use std::io::{ErrorKind, Write};
use std::process::Abort;
use tx_place::{Console, RealConsole, RealPlace};
use tx_text::Bytes;

const CALLS: &str = "\
write real_place.tmp abc de, read real_place.tmp 0, read real_place.tmp 4, read real_place.tmp 5, \
read real_place.tmp 9, whole real_place.tmp 5, whole real_place.tmp 4, read absent.tmp 0, create absent/x.tmp, \
create real_place.tmp, read real_place.tmp 0, write real_place.tmp x y, whole real_place.tmp 9";

const ANSWERS: &str = "\
ok, abcd, e, , , abcde, too large, failed, failed, ok, , ok, xy, ";

// Whether the calls have their answers.
fn files_are_kept<R: Files + Drop>(rt: &impl Abort, alloc: Global, files: R) -> bool {
    let mut place = RealPlace::new(alloc, files);
    answers(rt, alloc, &mut place, CALLS).as_slice() == ANSWERS.as_bytes()
}

#[test]
fn real_files_are_kept(rt: HostRuntime) {
    assert!(rt; files_are_kept(&rt, rt.alloc(), &rt));
}

// Says and complains over two streams.
fn tell<O: Write + Drop, E: Write + Drop>(
    rt: &impl Abort,
    alloc: Global,
    out: O,
    err: E,
    calls: &str,
) -> Bytes {
    let mut console = RealConsole::new(out, err);
    told(rt, alloc, &mut console, calls)
}

// Whether each of two lists gets the bytes of its own calls, and no others.
fn streams_are_kept_apart(rt: &impl Abort, alloc: Global) -> bool {
    let (mut out, mut err) = (Vec::new(alloc), Vec::new(alloc));
    let answers = tell(
        rt,
        alloc,
        &mut out,
        &mut err,
        "say abc, complain xy, say , say de, complain z",
    );
    answers.as_slice() == b"ok, ok, ok, ok, ok, ".as_slice()
        && out.as_slice() == b"abcde".as_slice()
        && err.as_slice() == b"xyz".as_slice()
}

#[test]
fn each_stream_gets_its_bytes(rt: HostRuntime) {
    assert!(rt; streams_are_kept_apart(&rt, rt.alloc()));
}

/// A stream that takes two bytes at a time, and none where it has no room left.
#[derive(Drop)]
struct Narrow {
    room: usize,
}

impl Write for Narrow {
    fn write(&mut self, bytes: &[u8]) -> io::Result<usize> {
        if self.room == 0 {
            return Err(io::Error::from(ErrorKind::BrokenPipe));
        }
        let taken = bytes.len().min(self.room).min(2);
        self.room -= taken;
        Ok(taken)
    }

    fn flush(&mut self) -> io::Result<()> {
        Ok(())
    }
}

// Whether a call fails exactly where its own stream has no room left.
fn faults_are_answered(rt: &impl Abort, alloc: Global) -> bool {
    let answers = tell(
        rt,
        alloc,
        Narrow { room: 5 },
        Narrow { room: 0 },
        "say abcde, complain x, say f, complain , complain y",
    );
    answers.as_slice() == b"ok, failed, failed, ok, failed, ".as_slice()
}

#[test]
fn faults_of_each_stream_are_answered(rt: HostRuntime) {
    assert!(rt; faults_are_answered(&rt, rt.alloc()));
}

#[test]
fn the_standard_streams_are_written(rt: HostRuntime) {
    let mut console = RealConsole::new(rt.stdout(), rt.stderr());
    let said = console.say(b"said\n");
    let complained = console.complain(b"complained\n");
    assert!(rt; said.is_ok() && complained.is_ok());
}
