use pw_base::mem_sink::MemSink;
use pw_base::mem_source::MemSource;
use pw_input_output::input::read_input;
use pw_input_output::output::written;
use pw_input_output::status::Status;
use std::test::Fail;

/// The report of a deck without terminals.
const REPORT: &[u8] = b"SERIAL\nSCREENS\nFILES\nLOG\nPATHWAY LOG 2\nFINISHED\n";

#[test]
fn source_fails_at_each_call(rt: HostRuntime) -> Result<(), Fail> {
    let alloc = rt.alloc();
    for call in 1..=2 {
        let mut failing = MemSource::new(alloc, b"?END", &[call])?;
        let read = read_input(alloc, &mut failing);
        assert!(rt; matches!(read, Err(Status::ReadFault)));
    }
    let mut whole = MemSource::new(alloc, b"?END", &[3])?;
    let read = read_input(alloc, &mut whole);
    assert!(rt; matches!(&read, Ok(Some(bytes)) if bytes.as_slice() == b"?END".as_slice()));
    let spaces = vec![in alloc; b' '; 16_777_217]?;
    let mut long = MemSource::new(alloc, spaces.as_slice(), &[])?;
    assert!(rt; matches!(read_input(alloc, &mut long), Ok(None)));
    Ok(())
}

#[test]
fn sink_fails_at_each_call(rt: HostRuntime) -> Result<(), Fail> {
    let alloc = rt.alloc();
    for call in 1..=16u64 {
        let mut failing = MemSink::new(alloc, 100, 3, &[call])?;
        let status = written(&mut failing, Status::Finished, REPORT);
        assert!(rt; status == Status::WriteFault);
        assert!(rt; REPORT.starts_with(failing.written()));
        assert!(rt; failing.written().len() as u64 == 3 * (call - 1));
    }
    let mut sink = MemSink::new(alloc, 100, 3, &[18])?;
    assert!(rt; written(&mut sink, Status::Limit, REPORT) == Status::Limit);
    assert!(rt; sink.written() == REPORT);
    Ok(())
}

#[test]
fn usage_source_and_sink_faults(rt: HostRuntime) -> Result<(), Fail> {
    let mut failing = MemSource::new(rt.alloc(), b"?END", &[1])?;
    let status = read_input(rt.alloc(), &mut failing).err();
    assert!(rt; status == Some(Status::ReadFault) && Status::ReadFault.number() == 4);
    let mut failing = MemSink::new(rt.alloc(), 100, 3, &[2])?;
    let status = written(&mut failing, Status::Finished, REPORT);
    assert!(rt; status.number() == 5);
    assert!(rt; failing.written() == b"SER".as_slice());
    Ok(())
}
