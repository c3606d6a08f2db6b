ghost use Rattle.std.specs.Prelude.{◌≡◌, take};
ghost use Rattle.model.specs.Stores.{stored, store_limit};
ghost use Rattle.store.specs.Boards.{core_boards, boards_after};
ghost use Rattle.stores.specs.Layers.{byte_image, behind, under_after};

use store::boards::CoreBoards;
use store::meaning::Store;
use stores::image::ByteImage;
use stores::pair::BankPair;
use stores::strip::LoaderStrip;

/// Sends a halfword to a store, of which no more is known than that it is one.
fn send<S: Store>(store: &mut S, place: usize, word: u16)
    ensures { S.Store.meaning store.new ≡ stored (S.Store.meaning store.old) place word }
{
    store.write(place, word);
}

/// Sends a halfword to lent halfwords, and gives back those within the limit: the meaning of the store tells each of them.
pub fn send_to_words<'a>(words: &'a mut [u16], place: usize, word: u16) -> &'a mut [u16]
    ensures { result.now ≡ boards_after (take store_limit words.old) place word }
{
    let mut boards = CoreBoards::new(words);
    send(&mut boards, place, word);
    boards.into_words()
}

/// Sends a halfword to lent memory in two banks, and gives the memory back.
pub fn send_to_banks<'a>(
    low: &'a mut [u16],
    high: &'a mut [u8],
    place: usize,
    word: u16,
) -> (&'a mut [u16], &'a mut [u8])
    ensures { behind (core_boards result.0.now) (byte_image result.1.now) ≡ stored (behind (core_boards low.old) (byte_image high.old)) place word }
{
    let mut banks = BankPair::new(CoreBoards::new(low), ByteImage::new(high));
    send(&mut banks, place, word);
    let (boards, image) = banks.into_parts();
    (boards.into_words(), image.into_bytes())
}

/// Sends a halfword to lent bytes under a loader strip, and gives the bytes back.
pub fn send_under_strip<'a>(
    bytes: &'a mut [u8],
    strip: [u16; 24],
    place: usize,
    word: u16,
) -> &'a mut [u8]
    ensures { byte_image result.now ≡ under_after (byte_image bytes.old) place word }
{
    let mut stripped = LoaderStrip::new(ByteImage::new(bytes), strip);
    stripped.write(place, word);
    stripped.into_below().into_bytes()
}
