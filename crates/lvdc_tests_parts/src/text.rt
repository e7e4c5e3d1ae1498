use crate::same::same;
use lvdc_text::{
    FaultySink, FaultySource, MemorySink, MemorySource, ReadEnd, Source, StdSink, StdSource,
    WriteFault, read_all, write_all,
};
use std::alloc::Global;
use std::process::Abort;
use std::test::Fail;

const BYTES: [u8; 100] = [b'*'; 100];

/// Reading a source to its end gives these bytes, or ends so.
fn gives<S: Source>(
    rt: &impl Abort,
    alloc: Global,
    source: &mut S,
    limit: usize,
    wanted: Result<&[u8], ReadEnd>,
) {
    match read_all(alloc, source, limit) {
        Ok(read) => same(rt, Ok(read.as_slice()), wanted),
        Err(end) => same(rt, Err(end), wanted),
    }
}

#[test]
fn a_source_is_read_to_its_end(rt: HostRuntime) -> Result<(), Fail> {
    let alloc = rt.alloc();
    let mut source = MemorySource::new(Vec::from_slice(alloc, &BYTES)?);
    gives(&rt, alloc, &mut source, 100, Ok(&BYTES));
    let mut source = StdSource::new(BYTES.as_slice());
    gives(&rt, alloc, &mut source, 100, Ok(&BYTES));
    let mut source = StdSource::new(BYTES.as_slice());
    gives(&rt, alloc, &mut source, 99, Err(ReadEnd::TooLong));
    Ok(())
}

#[test]
fn a_read_that_fails_is_told(rt: HostRuntime) -> Result<(), Fail> {
    let alloc = rt.alloc();
    let bytes = Vec::from_slice(alloc, &BYTES)?;
    let mut source = FaultySource::new(bytes, Vec::from_slice(alloc, &[2])?);
    gives(&rt, alloc, &mut source, 100, Err(ReadEnd::ReadFault));
    Ok(())
}

#[test]
fn a_sink_takes_all(rt: HostRuntime) -> Result<(), Fail> {
    let mut sink = MemorySink::with_room(rt.alloc(), 100)?;
    same(&rt, write_all(&mut sink, &BYTES), Ok(()));
    same(&rt, sink.bytes(), BYTES.as_slice());
    let mut empty = MemorySink::new(rt.alloc());
    same(&rt, write_all(&mut empty, b""), Ok(()));
    Ok(())
}

#[test]
fn a_write_that_fails_is_told(rt: HostRuntime) -> Result<(), Fail> {
    let alloc = rt.alloc();
    let mut sink = FaultySink::with_room(alloc, 100, Vec::from_slice(alloc, &[2])?)?;
    let fault = write_all(&mut sink, &BYTES);
    same(&rt, fault, Err(WriteFault { written: 64 }));
    same(&rt, sink.bytes(), &BYTES[..64]);
    Ok(())
}

#[test]
fn a_full_writer_of_std_fails(rt: HostRuntime) -> Result<(), Fail> {
    let mut card = [0u8; 4];
    let mut sink = StdSink::new(card.as_mut_slice());
    let fault = write_all(&mut sink, b"END\nRUN");
    same(&rt, fault, Err(WriteFault { written: 4 }));
    Ok(())
}
