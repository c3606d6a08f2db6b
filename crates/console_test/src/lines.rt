use crate::parts::UNUSED;
use session::session::play_to_line;
use std::process::Abort;

/// A tape, and the line that its play leaves.
#[derive(Clone, Copy)]
struct Case<'a> {
    tape: &'a [u8],
    line: [u8; 15],
}

/// Plays each tape on a new machine and compares the line.
fn all_leave(rt: &impl Abort, cases: &[Case<'_>]) {
    for case in cases {
        let mut words = [0; 2048];
        let mut slots = [UNUSED; 4];
        let played = play_to_line(case.tape, &mut words, &mut slots);
        assert_eq!(rt; played.line, case.line);
    }
}

/// Tapes that run nothing: empty, cut short, not tapes at all.
#[test]
fn without_a_run(rt: HostRuntime) {
    all_leave(
        &rt,
        &[
            Case {
                tape: b"",
                line: *b"00000 00008000\n",
            },
            Case {
                tape: b"L\x00\x0a\x00P\x00\x00\x00",
                line: *b"00A00 00008000\n",
            },
            Case {
                tape: b"\xff\x13\x9a",
                line: *b"00000 00008000\n",
            },
            Case {
                tape: b"A\x37\xc2\x99P\xfe\xdc\xba\x98L\x0f\xed\xca~G\x00",
                line: *b"FEDCA FEDCBA98\n",
            },
        ],
    );
}

/// Tapes that run into each kind of interrupt, and some that do not.
#[test]
fn with_a_run(rt: HostRuntime) {
    all_leave(
        &rt,
        &[
            // AIS.
            Case {
                tape: b"A\x00\x0a\x00D\x26\x11L\x00\x0a\x00P\x00\x00\x00\x00G\x00\x00\x01",
                line: *b"00A02 00000002\n",
            },
            // SVC 3, with its own entry of the table.
            Case {
                tape: b"A\x00\x00\x98D\x00\x00D\x80\x02A\x00\x00\xa2D\x0b\x01A\x00\x0a\x00D\xe1\x30D\x01\x23L\x00\x0a\x00P\x00\x00\x00\x00G\x00\x00\x05",
                line: *b"00B00 00008002\n",
            },
            // A code that is not there.
            Case {
                tape: b"A\x00\x00\x30D\x00\x00D\x80\x04D\x00\x00D\x0c\x01L\x00\x0a\x00P\x00\x00\x00\x00G\x00\x00\x05",
                line: *b"00C00 00008004\n",
            },
            // EPSR under protection.
            Case {
                tape: b"A\x00\x00\x30D\x00\x00D\x80\x01D\x00\x01D\x0c\x10A\x00\x0a\x00D\x95\x12L\x00\x0a\x00P\x00\x00\x01\x00G\x00\x00\x05",
                line: *b"10C10 00008001\n",
            },
            // A fetch beyond the limit of a segment.
            Case {
                tape: b"A\x00\x00\x90D\x00\x00D\x80\x08D\x00\x00D\x0d\x00L\x00\x0a\x00P\x00\x00\x04\x00G\x00\x00\x05",
                line: *b"00D00 00008008\n",
            },
            // A fetch from a segment without fetches, then from one with them.
            Case {
                tape: b"A\x00\x00\x90D\x00\x00D\x80\x09D\x00\x00D\x0e\x00A\x00\x0a\x00D\x26\x11L\x00\x0a\x00S\x00\x0f\xf0\x00\x90P\x00\x00\x04\x00G\x00\x00\x05",
                line: *b"00E00 00008009\n",
            },
            Case {
                tape: b"A\x00\x0a\x00D\x26\x11L\x00\x0a\x00S\x00\x0f\xf0\x00\x10P\x00\x00\x04\x00G\x00\x00\x01",
                line: *b"00A02 00000402\n",
            },
        ],
    );
}
