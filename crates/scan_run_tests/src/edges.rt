//! Standard input and output over a reader and a writer that fail, come short, take nothing and are interrupted.
use scan_run::{StdInput, StdOutput, read_all, write_all};
use std::alloc::Global;
use std::io::{self, Error, ErrorKind, Read, Write};
use std::process::Abort;

/// A reader of a text and a writer of what it takes. Its steps are words: a call moves so many bytes at most, is `cut` or is
/// `broken`, and behind the last one moves all.
#[derive(Drop)]
struct Steps<'a> {
    text: &'a [u8],
    taken: &'a mut Vec<u8>,
    steps: &'a str,
}

/// How many bytes the next call moves at most, or why it fails.
fn next(steps: &mut &str) -> io::Result<usize> {
    let all = *steps;
    let (step, rest) = all.split_once(' ').unwrap_or((all, ""));
    *steps = rest;
    match step {
        "cut" => Err(Error::from(ErrorKind::Interrupted)),
        "broken" => Err(Error::from(ErrorKind::BrokenPipe)),
        _ => Ok(step.parse::<usize>().unwrap_or(usize::MAX)),
    }
}

impl<'a> Read for Steps<'a> {
    fn read(&mut self, buf: &mut [u8]) -> io::Result<usize> {
        let n = next(&mut self.steps)?.min(buf.len());
        self.text.read(&mut buf[..n])
    }
}

impl<'a> Write for Steps<'a> {
    fn write(&mut self, buf: &[u8]) -> io::Result<usize> {
        let n = next(&mut self.steps)?.min(buf.len());
        self.taken.extend_from_slice(&buf[..n])?;
        Ok(n)
    }

    fn flush(&mut self) -> io::Result<()> {
        Ok(())
    }
}

/// What is read by these steps of a text: its bytes, or the fault.
fn read(rt: &impl Abort, alloc: Global, text: &str, steps: &str) -> String {
    let mut none = Vec::new(alloc);
    let mut input = StdInput::new(Steps {
        text: text.as_bytes(),
        taken: &mut none,
        steps,
    });
    match read_all(alloc, &mut input) {
        Ok(bytes) => String::from_utf8(bytes).expect(rt, "from_utf8"),
        Err(fault) => format!(in alloc; "{fault:?}").expect(rt, "format"),
    }
}

/// What a writer of these steps takes of a text, and the answer.
fn written(rt: &impl Abort, alloc: Global, text: &str, steps: &str) -> String {
    let mut taken = Vec::new(alloc);
    let mut output = StdOutput::new(Steps {
        text: b"",
        taken: &mut taken,
        steps,
    });
    let answer = write_all(&mut output, text.as_bytes());
    let taken = String::from_utf8(taken).expect(rt, "from_utf8");
    format!(in alloc; "{taken}, {answer:?}").expect(rt, "format")
}

#[test]
fn reads_and_writes_go_past_interruptions_and_tell_their_errors(rt: HostRuntime) {
    let alloc = rt.alloc();
    for (text, steps, wanted) in [
        ("", "", ""),
        ("abc", "1", "abc"),
        ("abc", "cut 1 cut cut", "abc"),
        ("abc", "2 0", "ab"),
        ("abc", "broken", "Failed"),
        ("abc", "3 cut broken", "Failed"),
    ] {
        assert_eq!(rt; read(&rt, alloc, text, steps).as_str(), wanted, "{steps}");
    }
    for (steps, wanted) in [
        ("", "abc, Ok(())"),
        ("1 cut 1 cut", "abc, Ok(())"),
        ("1 0", "a, Err(Failed)"),
        ("2 broken", "ab, Err(Failed)"),
        ("cut broken", ", Err(Failed)"),
    ] {
        assert_eq!(rt;
            written(&rt, alloc, "abc", steps).as_str(),
            wanted,
            "{steps}"
        );
    }
}
