use model::{Cause, Denial, Record};
use outcome::panel::{add_ending, add_store, add_trace, page_of};
use queue::Queue;
use std::test::Fail;
use tape::orders::TapeFault;

/// How a tape ends, and the lines that say so.
#[derive(Clone, Copy)]
struct Ending {
    ending: Result<usize, TapeFault>,
    lines: &'static str,
}

fn fault(denial: Denial, place: usize, letter: Option<u8>) -> Result<usize, TapeFault> {
    Err(TapeFault {
        denial,
        place,
        letter,
    })
}

#[test]
fn endings(rt: HostRuntime) -> Result<(), Fail> {
    let cases = [
        Ending {
            ending: Ok(0),
            lines: "Commands obeyed: 0\n",
        },
        Ending {
            ending: Ok(65_536),
            lines: "Commands obeyed: 65536\n",
        },
        Ending {
            ending: fault(Denial::TraceFull, 0, None),
            lines: "Fault at byte 0, no letter\nDenial 9: the trace is full\n",
        },
        Ending {
            ending: fault(Denial::UnknownLetter, 107, Some(b'a')),
            lines: "Fault at byte 107, letter a\nDenial 5: the letter is unknown\n",
        },
        Ending {
            ending: fault(Denial::UnknownLetter, 65_535, Some(0)),
            lines: "Fault at byte 65535, letter X'00'\nDenial 5: the letter is unknown\n",
        },
        Ending {
            ending: fault(Denial::UnknownLetter, 10, Some(b' ')),
            lines: "Fault at byte 10, letter X'20'\nDenial 5: the letter is unknown\n",
        },
        Ending {
            ending: fault(Denial::UnknownLetter, 1, Some(b'!')),
            lines: "Fault at byte 1, letter !\nDenial 5: the letter is unknown\n",
        },
        Ending {
            ending: fault(Denial::UnknownLetter, 2, Some(b'~')),
            lines: "Fault at byte 2, letter ~\nDenial 5: the letter is unknown\n",
        },
        Ending {
            ending: fault(Denial::UnknownLetter, 3, Some(0x7F)),
            lines: "Fault at byte 3, letter X'7F'\nDenial 5: the letter is unknown\n",
        },
        Ending {
            ending: fault(Denial::CutShort, 4, Some(b'D')),
            lines: "Fault at byte 4, letter D\nDenial 6: the operand is cut short\n",
        },
    ];
    for case in &cases {
        let mut text = Vec::new(rt.alloc());
        add_ending(&mut text, case.ending)?;
        assert_eq!(rt; text.as_slice(), case.lines.as_bytes());
    }
    Ok(())
}

/// Some halfwords of a store, and the rows that show them.
#[derive(Clone, Copy)]
struct Rows {
    words: &'static [u16],
    rows: &'static str,
}

/// Rows of zeros are left out, and the last row may be a short one.
const STORES: [Rows; 6] = [
    Rows {
        words: &[],
        rows: "",
    },
    Rows {
        words: &[0, 0, 0],
        rows: "",
    },
    Rows {
        words: &[0, 0x12AB, 0],
        rows: "00000: 0000 12AB 0000\n",
    },
    Rows {
        words: &[0, 0, 0, 0, 0, 0, 0, 0, 1],
        rows: "00010: 0001\n",
    },
    Rows {
        words: &[1, 0, 0, 0, 0, 0, 0, 0, 0, 0, 0, 0, 0, 0, 0, 0, 0, 0xFFFF],
        rows: "00000: 0001 0000 0000 0000 0000 0000 0000 0000\n00020: 0000 FFFF\n",
    },
    Rows {
        words: &[0, 0, 0, 0, 0, 0, 0, 2, 0, 0, 0],
        rows: "00000: 0000 0000 0000 0000 0000 0000 0000 0002\n",
    },
];

#[test]
fn rows_of_the_store(rt: HostRuntime) -> Result<(), Fail> {
    for case in &STORES {
        let mut text = Vec::new(rt.alloc());
        add_store(&mut text, case.words)?;
        let shown = text.strip_prefix(b"Store, where it is not zero\n");
        assert_eq!(rt; shown, Some(case.rows.as_bytes()));
    }
    Ok(())
}

#[test]
fn records_of_a_trace(rt: HostRuntime) -> Result<(), Fail> {
    let blank = Record {
        cause: Cause::AccessFault,
        status: 0,
        location: 0xFFFFE,
        faults: 0x10,
    };
    let mut slots = [blank; 2];
    let mut trace = Queue::new(&mut slots);
    let mut text = Vec::new(rt.alloc());
    add_trace(&mut text, &trace)?;
    assert_eq!(rt; text.as_slice(), b"Interrupts: 0\n".as_slice());
    assert_eq!(rt; trace.push(blank), Ok(()));
    let last = Record {
        cause: Cause::DeviceRequest,
        status: 0x8000_4000,
        location: 0x100,
        faults: 0,
    };
    assert_eq!(rt; trace.push(last), Ok(()));
    text.clear();
    add_trace(&mut text, &trace)?;
    let lines = "Interrupts: 2
    0: status 00000000, location FFFFE, interrupt status 10, access fault
    1: status 80004000, location 00100, interrupt status 00, device request
";
    assert_eq!(rt; text.as_slice(), lines.as_bytes());
    Ok(())
}

#[test]
fn page_of_two_commands(rt: HostRuntime) -> Result<(), Fail> {
    let page = page_of(rt.alloc(), b"A\0\0\x20D\xCA\xFE")?;
    let lines = "Commands obeyed: 2
PSW: status 00008000, location 00000
Register set 0
    0: 00000000 00000000 00000000 00000000 00000000 00000000 00000000 00000000
    8: 00000000 00000000 00000000 00000000 00000000 00000000 00000000 00000000
Register set 15
    0: 00000000 00000000 00000000 00000000 00000000 00000000 00000000 00000000
    8: 00000000 00000000 00000000 00000000 00000000 00000000 00000000 00000000
Segmentation registers
    0: 00000000 00000000 00000000 00000000 00000000 00000000 00000000 00000000
    8: 00000000 00000000 00000000 00000000 00000000 00000000 00000000 00000000
Interrupt status: 00000000
Interrupts: 0
Store, where it is not zero
00020: CAFE 0000 0000 0000 0000 0000 0000 0000
";
    assert_eq!(rt; page.as_slice(), lines.as_bytes());
    Ok(())
}
