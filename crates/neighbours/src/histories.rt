ghost use Rattle.std.specs.Prelude.{◌≡◌, IfOk};
ghost use Rattle.neighbours.specs.Neighbours.{history};

use comparison::calls::Call;
use std::alloc::{AllocError, Global};

// A position is raised by a speed, as in a table of orbits, multiplied and divided, kept at X'40', and the supervisor is called.
/// The program.
pub const PROGRAM: [u16; 12] = [
    0x2413, 0x4820, 0x0040, 0x0a21, 0x4020, 0x0040, 0x2432, 0x1c22, 0x1d23, 0x5030, 0x0044, 0xe100,
];

/// The real address of the program, where relocation brings its address 0.
pub const PLACE: u32 = 0x1000;

/// A history: the program deposited, then the calls for its neighbours, then its beginning.
pub fn history(
    heap: Global,
    neighbours: &[Call<'static>],
    beginning: &[Call<'static>],
) -> Result<Vec<Call<'static>>, AllocError>
    ensures { IfOk result (λ past. past.items ≡ history PLACE PROGRAM neighbours.now beginning.now) }
{
    let mut past = Vec::new(heap);
    let mut address = PLACE;
    for word in &PROGRAM {
        past.push(Call::Deposit(address, *word))?;
        address += 2;
    }
    past.extend_from_slice(neighbours)?;
    past.extend_from_slice(beginning)?;
    Ok(past)
}
