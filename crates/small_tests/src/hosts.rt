//! Hosts and sinks, in memory and for real.

use al_host::{FileHost, Host, LogSink, MemHost, MemSink, OutSink, Sink};
use std::alloc::Global;
use std::fs;
use std::test::Fail;

fn bytes(alloc: Global, text: &str) -> Result<Vec<u8>, Fail> {
    Ok(Vec::from_slice(alloc, text.as_bytes())?)
}

#[test]
fn a_host_in_memory_reads_its_texts(rt: HostRuntime) -> Result<(), Fail> {
    let alloc = rt.alloc();
    let mut files = Vec::new(alloc);
    files.push((String::from_str(alloc, "a")?, bytes(alloc, "first")?))?;
    files.push((String::from_str(alloc, "a")?, bytes(alloc, "second")?))?;
    let mut host = MemHost::new(files, Vec::from_slice(alloc, &[3])?);
    let mut buf = [0; 4];
    assert!(rt; host.find("b").is_err());
    assert!(rt; host.find("a").is_ok());
    assert!(rt; host.read(&mut buf).is_err());
    assert_eq!(rt; host.read(&mut buf), Ok(4));
    assert_eq!(rt; buf, *b"firs");
    assert_eq!(rt; host.read(&mut buf), Ok(1));
    assert_eq!(rt; host.read(&mut buf), Ok(0));
    Ok(())
}

#[test]
fn a_sink_in_memory_keeps_what_it_gets(rt: HostRuntime) -> Result<(), Fail> {
    let alloc = rt.alloc();
    let mut sink = MemSink::new(alloc, 5, 3, Vec::from_slice(alloc, &[2])?).expect(&rt, "memory");
    assert_eq!(rt; sink.write(b"abcdef"), Ok(3));
    assert!(rt; sink.write(b"def").is_err());
    assert_eq!(rt; sink.write(b"def"), Ok(2));
    assert!(rt; sink.write(b"f").is_err());
    assert_eq!(rt; sink.write(b""), Ok(0));
    assert_eq!(rt; sink.got(), b"abcde".as_slice());
    Ok(())
}

#[test]
fn a_real_file_is_read_to_its_end(rt: HostRuntime) -> Result<(), Fail> {
    let path = "al_host_file_test.txt";
    fs::write(&rt, path, b"text")?;
    let mut host = FileHost::new(&rt);
    let mut buf = [0; 8];
    assert!(rt; host.find("al_host_no_such_file.txt").is_err());
    assert_eq!(rt; host.read(&mut buf), Ok(0));
    assert!(rt; host.find(path).is_ok());
    assert_eq!(rt; host.read(&mut buf), Ok(4));
    assert_eq!(rt; &buf[..4], b"text".as_slice());
    assert_eq!(rt; host.read(&mut buf), Ok(0));
    fs::remove_file(&rt, path)?;
    Ok(())
}

#[test]
fn the_real_streams_take_bytes(rt: HostRuntime) {
    let mut out = OutSink::new(rt.stdout());
    assert_eq!(rt; out.write(b"out\n"), Ok(4));
    let mut log = LogSink::new(rt.stderr());
    assert_eq!(rt; log.write(b"log\n"), Ok(4));
}
