//! Cases of the definitions that the instructions are proved by.
#![tactic(auto)]

ghost use Rattle.cases.specs.Alike.{AlikeMachines};
ghost use Rattle.cases.specs.Cases.{WorkedCases};
ghost use Rattle.cases.specs.Devices.{DeviceCases};
ghost use Rattle.cases.specs.Example.{Example};
ghost use Rattle.cases.specs.Further.{FurtherCases};

/// The worked cases hold.
pub fn worked_cases()
    ensures { WorkedCases }
{}

/// Further cases, where an emulator easily goes wrong.
pub fn further_cases()
    ensures { FurtherCases }
{}

/// Worked cases of devices hold.
pub fn device_cases()
    ensures { DeviceCases }
{}

/// There are two machines, reached by calls, that look alike to a protected program, and lists as the law of isolation asks for.
pub fn two_alike_machines()
    ensures { AlikeMachines }
{}

/// There are such machines and lists with another meaning of halfwords too: 0 goes on to the next, any other calls the supervisor.
pub fn there_are_such_machines()
    ensures { Example }
{}
