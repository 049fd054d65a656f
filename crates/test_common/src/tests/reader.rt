ghost use Rattle.std.specs.Prelude.{◌≤◌};

use cv_base::{NoMemory, Seq};
use cv_io::{CalmSource, Line, LineError, LineReader, MemSource, Source};
use std::alloc::Global;
use std::str;
use std::test::Fail;

/// Each line with a bar after it, and then how the reading stopped.
fn read_all<S: Source>(
    alloc: Global,
    input: &mut S,
    max_line: usize,
    max_input: u64,
) -> Result<String, Fail> {
    let mut reader = LineReader::new(alloc, max_line, max_input)?;
    let mut output = String::new(alloc);
    for _ in 0..20 {
        if reader.is_spent() {
            return Ok(output);
        }
        match reader.next(alloc, input) {
            Ok(Line::Text(text)) => output.push_str(str::from_utf8(text.as_slice())?)?,
            Ok(Line::End) => {
                output.push_str("end")?;
                return Ok(output);
            }
            Err(LineError::ReadFault) => output.push_str("read fault")?,
            Err(LineError::LineTooLong) => output.push_str("line too long")?,
            Err(LineError::InputTooLong) => output.push_str("input too long")?,
            Err(LineError::NoMemory) => output.push_str("no memory")?,
        }
        output.push_str("|")?;
    }
    Ok(output)
}

fn bytes(alloc: Global, text: &str) -> Result<Seq<u8>, Fail> {
    Ok(Seq::of(text.as_bytes().to_vec(alloc)?))
}

fn read_pieces(
    alloc: Global,
    text: &str,
    piece: usize,
    max_line: usize,
    max_input: u64,
) -> Result<String, Fail>
    requires { 1 ≤ piece }
{
    let mut input = CalmSource::new(bytes(alloc, text)?, piece);
    read_all(alloc, &mut input, max_line, max_input)
}

#[test]
fn lines_are_cut_in_pieces_of_any_length(rt: HostRuntime) -> Result<(), Fail> {
    let cases = [
        ("abcd\nabcde\n", 4, 100, "abcd|line too long|"),
        ("abcd\n", 4, 5, "abcd|input too long|"),
        ("abcd\n", 4, 6, "abcd|end"),
        ("abcd", 4, 5, "abcd|end"),
        ("abcd", 4, 4, "input too long|"),
        ("abcde", 4, 5, "line too long|"),
        ("abcde", 4, 4, "input too long|"),
        ("abc\r\n", 4, 6, "abc|end"),
        ("abcd\r\n", 4, 100, "line too long|"),
        ("", 0, 1, "end"),
        ("", 0, 0, "input too long|"),
        ("\n\n", 0, 3, "||end"),
        ("a\r\nb\n", 100, 100, "a|b|end"),
        ("a\r\r\n", 100, 100, "a\r|end"),
        ("a\rb\n", 100, 100, "a\rb|end"),
        ("\r\n", 100, 100, "|end"),
        ("a\nb\r", 100, 100, "a|b|end"),
        ("\r", 100, 100, "|end"),
        ("a\nb", 100, 100, "a|b|end"),
    ];
    for (text, max_line, max_input, want) in cases {
        for piece in 1..4 {
            let output = read_pieces(rt.alloc(), text, piece, max_line, max_input)?;
            assert_eq!(rt; output.as_str(), want, "{text} in pieces of {piece}");
        }
    }
    Ok(())
}

#[test]
fn a_failing_read_ends_the_lines(rt: HostRuntime) -> Result<(), Fail> {
    let alloc = rt.alloc();
    for (call, want) in [
        (1, "read fault|"),
        (2, "ab|read fault|"),
        (3, "ab|cd|read fault|"),
        (4, "ab|cd|read fault|"),
        (5, "ab|cd|ef|end"),
    ] {
        let fails = Seq::of(vec![in alloc; call]?);
        let mut input = MemSource::new(bytes(alloc, "ab\ncd\nef")?, 3, fails);
        let output = read_all(alloc, &mut input, 100, 100)?;
        assert_eq!(rt; output.as_str(), want, "call {call} fails");
    }
    Ok(())
}
