//! Laws above the definitions, each the contract of a function that does nothing.
ghost use Rattle.model.specs.Denials.{FirstIsGiven};
ghost use Rattle.model.specs.Interrupts.{InterruptsInWords};
ghost use Rattle.model.specs.Lasting.{PlacesStay, StoresStaySound, RegistersStay, SegmentsStay, UnusedBitsStayZero};
ghost use Rattle.model.specs.Requests.{LowestIsTaken};

/// A store stays sound, whatever calls its machine gets: as many places are fitted, each is of its kind, and what is not writable
/// reads what it read.
pub fn stores_stay_sound()
    ensures places { PlacesStay }
    ensures sound { StoresStaySound }
{}

/// The eight unused bits of each segmentation register are zero, whatever calls the machine gets.
pub fn unused_bits_stay_zero()
    ensures { UnusedBitsStayZero }
{}

/// No register is lost, whatever calls the machine gets.
pub fn no_register_is_lost()
    ensures general { RegistersStay }
    ensures segmentation { SegmentsStay }
{}

/// The device whose request is taken is the lowest of 1 to 255 that requests.
pub fn lowest_requester_is_taken()
    ensures { LowestIsTaken }
{}

/// A call is denied by the first denial that applies, in the order 7, 8, 5, 6, 1, 2, 3, 4, 9.
pub fn first_denial_is_given()
    ensures { FirstIsGiven }
{}

/// An interrupt saves the old PSW, and what else it brings, in registers of set 0, and loads a new PSW; all else stays. None is taken at
/// an arithmetic fault that is not enabled, and after an instruction with no write to report.
pub fn interrupts_save_and_load()
    ensures { InterruptsInWords }
{}
