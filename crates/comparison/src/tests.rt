use crate::agreement::agreed;
use crate::calls::{Call, Continued};
use crate::compare::compare;
use crate::sides::Side;
use bus::silent::SilentBus;
use model::{BLANK, Cause, Item, StepAnswer};
use store::boards::CoreBoards;
use store::meaning::Store;

const ILLEGAL: StepAnswer = StepAnswer::Interrupted(Cause::IllegalInstruction);

/// LIS 1,7 and then a word that is no instruction, with a word beside them.
const BEGINNING: [Call<'static>; 5] = [
    Call::Deposit(0, 0x2417),
    Call::Deposit(2, 0x0000),
    Call::Deposit(8, 0xabcd),
    Call::Set(Item::Status, 0),
    Call::Set(Item::Location, 0),
];

/// A machine over the words, ready to run the two.
fn side<'a>(words: &'a mut [u16], list: &'a [Continued]) -> Side<'a, CoreBoards<'a>, SilentBus> {
    Side {
        store: CoreBoards::new(words),
        bus: SilentBus {},
        past: &BEGINNING,
        list,
    }
}

/// Two machines run the two words; the other has one more word deposited beside them.
#[test]
fn machines_come_back(rt: HostRuntime) -> Result<(), std::alloc::AllocError> {
    let mut words = [0; 16];
    let mut other_words = [0; 16];
    let mut slots = [BLANK; 2];
    let mut other_slots = [BLANK; 3];
    let one = side(&mut words, &[Continued::Step; 2]);
    let list = [
        Continued::Step,
        Continued::Deposit(10, 0x1234),
        Continued::Step,
    ];
    let other = side(&mut other_words, &list);
    let both = compare(rt.alloc(), one, &mut slots, other, &mut other_slots)?;
    let (one, other) = (both.one, both.other);
    assert_eq!(rt;
        one.answered.answers.as_slice(),
        [StepAnswer::Done, ILLEGAL].as_slice()
    );
    assert_eq!(rt; agreed(&one.answered.answers, &other.answered.answers), 2);
    let (store, _) = one.machine.into_parts();
    assert_eq!(rt; store.read(4), 0xabcd);
    assert_eq!(rt; store.read(5), 0);
    let (store, _) = other.machine.into_parts();
    assert_eq!(rt; store.read(5), 0x1234);
    assert_eq!(rt; slots[0].cause, Cause::IllegalInstruction);
    assert_eq!(rt; slots[1], BLANK);
    Ok(())
}

#[test]
fn answers_that_differ_end_the_agreement(rt: HostRuntime) {
    assert_eq!(rt;
        agreed(&[StepAnswer::Done, ILLEGAL], &[StepAnswer::Done; 2]),
        1
    );
}
