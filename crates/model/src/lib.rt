//! The words that the machine's definitions and its code share: what a store, an access, an interrupt and an answer can be. And
//! the law above the definitions: a protected program is isolated from all that is not its own.
#![tactic(auto)]

ghost use Rattle.model.specs.Isolation.{Isolation};

pub mod laws;
mod numbers;
mod wording;

/// What a place of a store is.
#[derive(Clone, Copy, Debug, PartialEq, Eq)]
pub enum Kind {
    /// Holds a halfword that a write replaces.
    Writable,
    /// Holds a halfword that stays.
    Fixed,
    /// Holds nothing.
    Unfitted,
}

/// What an access to the store is for.
#[derive(Clone, Copy, Debug, PartialEq, Eq)]
pub enum Access {
    Fetch,
    Read,
    Write,
}

/// How the access controller lets an access through.
#[derive(Clone, Copy, Debug, PartialEq, Eq)]
pub enum Grant {
    /// With no more.
    Plain,
    /// With an interrupt when the instruction has ended.
    Reported,
}

/// Why the access controller refuses an access.
#[derive(Clone, Copy, Debug, PartialEq, Eq)]
pub enum Violation {
    /// The block number is over the segment's limit.
    Limit,
    /// The segment is not present.
    Absent,
    /// A fetch of an instruction from a segment of data.
    NoExecute,
    /// A write in a segment that is protected from writes.
    WriteProtected,
}

/// Why an instruction ends otherwise than by going on.
#[derive(Clone, Copy, Debug, PartialEq, Eq)]
pub enum Trap {
    /// An operation code that is not there, or a privileged one under protection.
    Illegal,
    /// A division that has no result.
    Arithmetic,
    /// An access that the controller refused.
    Refusal,
    /// A supervisor call: its number and its address.
    Supervisor(u8, u32),
}

/// Why an interrupt was taken.
#[derive(Clone, Copy, Debug, PartialEq, Eq)]
pub enum Cause {
    IllegalInstruction,
    ArithmeticFault,
    AccessFault,
    SupervisorCall,
    DeviceRequest,
}

/// A record of the trace: the cause of an interrupt, the status and the Location Counter that it saved, and the interrupt status.
#[derive(Clone, Copy, Debug, PartialEq, Eq)]
pub struct Record {
    pub cause: Cause,
    pub status: u32,
    pub location: u32,
    pub faults: u32,
}

/// What a slot of a trace holds before any record.
pub const BLANK: Record = Record {
    cause: Cause::IllegalInstruction,
    status: 0,
    location: 0,
    faults: 0,
};

/// What a step answers.
#[derive(Clone, Copy, Debug, PartialEq, Eq)]
pub enum StepAnswer {
    Done,
    Waiting,
    Interrupted(Cause),
}

/// Why a run stopped.
#[derive(Clone, Copy, Debug, PartialEq, Eq)]
pub enum Reason {
    Waited,
    Filled,
    Counted,
}

/// Why a call was denied.
#[derive(Clone, Copy, Debug, PartialEq, Eq)]
pub enum Denial {
    /// An address that is odd, over X'FFFFF' or of an unfitted place.
    NoPlace,
    /// A deposit in a fixed place.
    FixedPlace,
    /// A register or segment number over 15, or a register set that is not there.
    NoRegister,
    /// A key position, location, segmentation register or run count out of its range.
    OutOfRange,
    /// A tape letter that is no command.
    UnknownLetter,
    /// A tape command whose operand is cut short.
    CutShort,
    /// The key is OFF.
    KeyOff,
    /// The key is at LOCK.
    KeyLocked,
    /// The trace is full.
    TraceFull,
}

/// A register of the machine that the console sets and shows.
#[derive(Clone, Copy, Debug, PartialEq, Eq)]
pub enum Item {
    /// A general register: its set and its number.
    General(u8, u8),
    /// A segmentation register.
    Segment(u8),
    /// The status of the PSW.
    Status,
    /// The Location Counter of the PSW.
    Location,
}

/// A protected program is isolated, whatever tree of effects each halfword means.
pub fn protected_programs_are_isolated()
    ensures { Isolation }
{}
