use cv_base::Seq;
use cv_io::{MemSink, WriteError, write_all};
use std::test::Fail;

#[test]
fn bytes_are_written_up_to_a_failing_write(rt: HostRuntime) -> Result<(), Fail> {
    let cases: [(usize, u64, Result<(), WriteError>, &[u8]); 5] = [
        (1, 9, Ok(()), b"abcde"),
        (3, 9, Ok(()), b"abcde"),
        (2, 1, Err(WriteError::WriteFault), b""),
        (2, 2, Err(WriteError::WriteFault), b"ab"),
        (2, 3, Err(WriteError::WriteFault), b"abcd"),
    ];
    for (piece, call, want, written) in cases {
        let fails = Seq::of(vec![in rt.alloc(); call]?);
        let mut output = MemSink::new(rt.alloc(), piece, fails);
        assert_eq!(rt; write_all(&mut output, b"abcde"), want, "call {call}");
        assert_eq!(rt; output.bytes(), written, "call {call}");
    }
    Ok(())
}
