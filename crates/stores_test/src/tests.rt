use bus::meaning::Bus;
use bus::usage::Usage;
use buses::drives::Drives;
use buses::teletype::Teletype;
use joined::JoinedBus;
use model::Kind;
use queue::Queue;
use std::test::Fail;
use store::boards::{CoreBoards, LIMIT};
use store::meaning::Store;
use stores::image::ByteImage;
use stores::pair::BankPair;
use stores::strip::LoaderStrip;

#[test]
fn no_places(rt: HostRuntime) {
    let mut words: [u16; 0] = [];
    let mut store = LoaderStrip::new(CoreBoards::new(&mut words), [9; 24]);
    store.write(0, 1);
    assert_eq!(rt; store.fitted(), 0);
    assert_eq!(rt; store.read(0), 0);
    assert_eq!(rt; store.read(40), 0);
}

#[test]
fn odd_byte(rt: HostRuntime) {
    let mut bytes = [1, 2, 3];
    let mut image = ByteImage::new(&mut bytes);
    assert_eq!(rt; image.fitted(), 1);
    assert_eq!(rt; image.read(0), 0x0102);
    assert_eq!(rt; image.read(1), 0);
    image.write(0, 0x0A0B);
    image.write(1, 0x0C0D);
    assert_eq!(rt; bytes, [10, 11, 3]);
}

#[test]
fn one_place_too_many(rt: HostRuntime) -> Result<(), Fail> {
    let mut words = vec![in rt.alloc(); 7u16; LIMIT + 1]?;
    let mut boards = CoreBoards::new(words.as_mut_slice());
    boards.write(LIMIT - 1, 8);
    boards.write(LIMIT, 9);
    assert_eq!(rt; boards.fitted(), LIMIT);
    assert_eq!(rt; boards.read(LIMIT - 1), 8);
    assert_eq!(rt; boards.read(LIMIT), 0);
    assert_eq!(rt; words.get(LIMIT).copied(), Some(7));
    Ok(())
}

#[test]
fn banks_to_the_limit(rt: HostRuntime) -> Result<(), Fail> {
    let mut low = vec![in rt.alloc(); 5u16; LIMIT - 1]?;
    let mut high = [1, 2, 3, 4];
    let mut banks = BankPair::new(
        CoreBoards::new(low.as_mut_slice()),
        ByteImage::new(&mut high),
    );
    banks.write(LIMIT - 1, 0x0506);
    banks.write(LIMIT, 0x0708);
    assert_eq!(rt; banks.fitted(), LIMIT);
    assert_eq!(rt; banks.read(LIMIT - 2), 5);
    assert_eq!(rt; banks.read(LIMIT - 1), 0x0506);
    assert_eq!(rt; banks.read(LIMIT), 0);
    assert_eq!(rt; high, [5, 6, 3, 4]);
    Ok(())
}

#[test]
fn memory_comes_back(rt: HostRuntime) {
    let mut low = [5; 40];
    let mut high = [1, 2, 3, 4, 5];
    let mut banks = BankPair::new(CoreBoards::new(&mut low), ByteImage::new(&mut high));
    banks.write(39, 6);
    banks.write(41, 0x0708);
    let (boards, image) = banks.into_parts();
    let words = boards.into_words();
    let bytes = image.into_bytes();
    assert_eq!(rt; words.len(), 40);
    assert_eq!(rt; words.last().copied(), Some(6));
    assert_eq!(rt; &*bytes, [1, 2, 7, 8].as_slice());
    assert_eq!(rt; high, [1, 2, 7, 8, 5]);
}

#[test]
fn strip_over_few_places(rt: HostRuntime) {
    let mut forty = [3; 40];
    let mut one_more = [3; 41];
    let short = LoaderStrip::new(CoreBoards::new(&mut forty), [9; 24]);
    assert_eq!(rt; short.read(39), 3);
    assert_eq!(rt; short.read(40), 0);
    let long = LoaderStrip::new(CoreBoards::new(&mut one_more), [9; 24]);
    assert_eq!(rt; long.read(39), 3);
    assert_eq!(rt; long.read(40), 9);
    assert!(rt; long.kind(40) == Kind::Fixed);
    assert_eq!(rt; long.read(41), 0);
}

#[test]
fn joined_buses(rt: HostRuntime) {
    let mut slots = [0; 4];
    let mut bytes = Queue::new(&mut slots);
    assert_eq!(rt; bytes.push(65), Ok(()));
    let mut bus = JoinedBus::new(Teletype::new(bytes), Drives::new());
    assert!(rt; !bus.answers(0) && !bus.answers(255));
    assert_eq!(rt; bus.requesting(), None);
    assert!(rt; bus.answers(2) && bus.answers(16) && bus.answers(23) && !bus.answers(24));
    assert_eq!(rt; bus.offer(2), 65);
    assert_eq!(rt; bus.usage(2), Usage::new());
    assert_eq!(rt; bus.usage(23), Usage::new());
}

#[test]
fn queue_round_its_end(rt: HostRuntime) {
    let mut slots = [0; 3];
    let mut queue = Queue::new(&mut slots);
    for item in [1, 2, 3] {
        assert_eq!(rt; queue.push(item), Ok(()));
    }
    assert_eq!(rt; queue.push(4), Err(4));
    assert_eq!(rt; queue.pop(), Some(1));
    assert_eq!(rt; queue.push(5), Ok(()));
    let mut seen = [0; 3];
    for (place, item) in seen.iter_mut().zip(&queue) {
        *place = *item;
    }
    assert_eq!(rt; seen, [2, 3, 5]);
    assert_eq!(rt; queue.iter().count(), queue.len());
}
