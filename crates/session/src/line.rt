ghost use Rattle.std.specs.Prelude.{◌≡◌, ◌%◌, ◌<◌};
ghost use Rattle.session.specs.Lines.{hex_digit, line_of};

/// The character of the last hexadecimal digit of a number, 0 to 9 or A to F.
#[tactic(auto, unfolding(crate::specs::Lines::hex_digit))]
pub fn hex_digit(d: u8) -> u8
    ensures { result ≡ hex_digit (d % 16) }
{
    let d = d % 16;
    if d < 10 { b'0' + d } else { b'A' - 10 + d }
}

/// The character of the last hexadecimal digit of a number.
fn hex(v: u32) -> u8
    ensures { result ≡ hex_digit (v % 16) }
{
    hex_digit((v % 16) as u8)
}

// Not by Display: the line is made without memory of its own, so it cannot fail.
/// The Location Counter in 5 hexadecimal digits, a space, the status in 8, a newline.
#[tactic(auto, unfolding(crate::specs::Lines::line_of))]
pub fn psw_line(location: u32, status: u32) -> [u8; 15]
    ensures { result ≡ line_of location status }
{
    [
        hex(location / 0x1_0000),
        hex(location / 0x1000),
        hex(location / 0x100),
        hex(location / 0x10),
        hex(location),
        b' ',
        hex(status / 0x1000_0000),
        hex(status / 0x100_0000),
        hex(status / 0x10_0000),
        hex(status / 0x1_0000),
        hex(status / 0x1000),
        hex(status / 0x100),
        hex(status / 0x10),
        hex(status),
        b'\n',
    ]
}
