//! Laws of the tape, each the contract of a function.

ghost use Rattle.tape.specs.Writing.{ReadsBack};

/// Commands written as bytes are read back as they were, each at its letter's place, and nothing is broken.
pub fn commands_read_back()
    ensures { ReadsBack }
{}
