use crate::{
    Failed, Files, MemFiles, MemSink, MemSource, NamedFile, NamedFiles, RealFiles, RealSink,
    RealSource, Sink, Source, SureFiles, SureSink, SureSource, WriteFault, write_all,
};
use pads_value::{Bytes, Items, Memory};
use std::alloc::Global;
use std::fs::{self, File};
use std::test::Fail;

fn two_files(alloc: Global) -> Result<NamedFiles, Memory> {
    let mut named = Items::new(alloc);
    named.push(NamedFile {
        name: Bytes::from_slice(alloc, b"a")?,
        bytes: Bytes::from_slice(alloc, b"hello")?,
    })?;
    named.push(NamedFile {
        name: Bytes::from_slice(alloc, b"a")?,
        bytes: Bytes::from_slice(alloc, b"later")?,
    })?;
    Ok(named)
}

#[test]
fn a_sure_sink_takes_bytes_until_its_room_is_used_up(rt: HostRuntime) -> Result<(), Fail> {
    let mut sink = SureSink::new(rt.alloc(), 1, 5)?;
    let outcomes = [write_all(&mut sink, b"abc"), write_all(&mut sink, b"defg")];
    assert_eq!(rt; outcomes, [Ok(()), Err(WriteFault)]);
    assert_eq!(rt; sink.fault_count(), 1);
    assert_eq!(rt; sink.write(b""), Ok(0));
    assert_eq!(rt; sink.bytes(), b"abcde".as_slice());
    Ok(())
}

#[test]
fn a_sure_source_gives_its_bytes_in_pieces(rt: HostRuntime) -> Result<(), Fail> {
    let mut source = SureSource::new(Bytes::from_slice(rt.alloc(), b"abc")?, 2);
    let mut into = [0; 4];
    assert_eq!(rt; source.read(&mut into), Ok(2));
    assert_eq!(rt; into, *b"ab\0\0");
    assert_eq!(rt; source.unread(), b"c".as_slice());
    let outcomes = [source.read(&mut into), source.read(&mut into)];
    assert_eq!(rt; outcomes, [Ok(1), Ok(0)]);
    Ok(())
}

#[test]
fn sure_files_have_every_name(rt: HostRuntime) -> Result<(), Fail> {
    let mut files = SureFiles::new(two_files(rt.alloc())?);
    let mut into = [0; 4];
    let outcomes = [
        files.read_at("b", 0, &mut into),
        files.read_at("a", 3, &mut into),
    ];
    assert_eq!(rt; outcomes, [Ok(0), Ok(2)]);
    assert_eq!(rt; into, *b"lo\0\0");
    Ok(())
}

#[test]
fn a_source_in_memory_fails_at_the_listed_calls(rt: HostRuntime) -> Result<(), Fail> {
    let failing = Items::from_slice(rt.alloc(), &[1, 2])?;
    let mut source = MemSource::new(Bytes::from_slice(rt.alloc(), b"abc")?, 0, failing);
    let mut into = [0; 2];
    let outcomes = [
        source.read(&mut into),
        source.read(&mut into),
        source.read(&mut into),
    ];
    assert_eq!(rt; outcomes, [Ok(2), Err(Failed), Err(Failed)]);
    assert_eq!(rt; source.unread(), b"c".as_slice());
    assert_eq!(rt; source.fault_count(), 2);
    Ok(())
}

#[test]
fn a_sink_in_memory_fails_at_the_listed_calls(rt: HostRuntime) -> Result<(), Fail> {
    let mut sink = MemSink::new(rt.alloc(), 2, Items::from_slice(rt.alloc(), &[2])?);
    let outcomes = [write_all(&mut sink, b"abcde"), write_all(&mut sink, b"e")];
    assert_eq!(rt; outcomes, [Err(WriteFault), Ok(())]);
    assert_eq!(rt; sink.bytes(), b"abcde".as_slice());
    assert_eq!(rt; sink.fault_count(), 1);
    Ok(())
}

#[test]
fn files_in_memory_fail_where_the_name_is_missing(rt: HostRuntime) -> Result<(), Fail> {
    let failing = Items::from_slice(rt.alloc(), &[1])?;
    let mut files = MemFiles::new(two_files(rt.alloc())?, failing);
    let mut into = [0; 9];
    let outcomes = [
        files.read_at("a", 1, &mut into),
        files.read_at("a", 5, &mut into),
        files.read_at("b", 0, &mut into),
    ];
    assert_eq!(rt; outcomes, [Ok(4), Err(Failed), Err(Failed)]);
    assert_eq!(rt; files.fault_count(), 2);
    Ok(())
}

/// What three reads from this file give, one after the other.
fn read_thrice(
    files: &mut RealFiles<HostRuntime>,
    path: &str,
    into: &mut [u8],
) -> [Result<usize, Failed>; 3] {
    [
        files.read_at(path, 0, into),
        files.read_at(path, 3, into),
        files.read_at(path, 1, into),
    ]
}

#[test]
fn the_real_adapters_reach_a_file(rt: HostRuntime) -> Result<(), Fail> {
    let folder = std::env::temp_dir(&rt)?;
    let number = std::process::id(rt.process());
    let path = format!(in rt.alloc(); "{}/pads_io-{number}", folder.display())?;
    let mut sink = RealSink::new(File::create(&rt, path.as_str())?);
    assert_eq!(rt; write_all(&mut sink, b"hello"), Ok(()));
    let mut source = RealSource::new(File::open(&rt, path.as_str())?);
    let mut into = [0; 3];
    assert_eq!(rt; source.read(&mut into), Ok(3));
    assert_eq!(rt; into, *b"hel");
    let mut files = RealFiles::new(rt.alloc(), rt.clone()?);
    let outcomes = read_thrice(&mut files, path.as_str(), &mut into);
    assert_eq!(rt; outcomes, [Ok(3), Ok(2), Ok(3)]);
    assert_eq!(rt; into, *b"ell");
    fs::remove_file(&rt, path.as_str())?;
    assert_eq!(rt; files.read_at(path.as_str(), 0, &mut into), Err(Failed));
    Ok(())
}
