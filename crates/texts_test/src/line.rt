use session::session::play_input;
use std::test::Fail;

/// An input, and the line that it leaves.
#[derive(Clone, Copy)]
struct Case {
    input: &'static [u8],
    line: [u8; 15],
}

#[test]
fn lines_of_inputs(rt: HostRuntime) -> Result<(), Fail> {
    let cases = [
        Case {
            input: b"",
            line: *b"00000 00008000\n",
        },
        Case {
            input: b"A\x00\x0a\x00D\x26\x11L\x00\x0a\x00P\x00\x00\x00\x00G\x00\x00\x01",
            line: *b"00A02 00000002\n",
        },
        // The last command is cut short.
        Case {
            input: b"L\x00\x0a\x00P\x00\x00\x00",
            line: *b"00A00 00008000\n",
        },
        // A deposit in the first place that is not fitted ends the tape.
        Case {
            input: b"L\x00\x0a\x00A\x01\x00\x00D\x00\x00P\x00\x00\x00\x00",
            line: *b"00A00 00008000\n",
        },
        // One in the last place that is fitted does not.
        Case {
            input: b"L\x00\x0a\x00A\x00\xff\xfeD\x00\x00P\x00\x00\x00\x00",
            line: *b"00A00 00000000\n",
        },
    ];
    for case in &cases {
        assert_eq!(rt; play_input(rt.alloc(), case.input)?, case.line);
    }
    Ok(())
}

/// A command that ends with byte 65,532 is obeyed, and one that ends with byte 65,536, the first past the limit, is cut short.
#[test]
fn inputs_over_the_limit(rt: HostRuntime) -> Result<(), Fail> {
    let cases = [
        (65_528usize, *b"00000 00000007\n"),
        (65_532, *b"00000 00008000\n"),
    ];
    for (before, line) in &cases {
        let mut input = vec![in rt.alloc(); b'A'; *before]?;
        input.extend_from_slice(b"P\0\0\0\x07AAAAAAA")?;
        assert_eq!(rt; play_input(rt.alloc(), &input)?, *line);
    }
    Ok(())
}
