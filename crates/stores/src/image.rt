ghost use Rattle.std.specs.Prelude.{◌≡◌, ◌≤◌, ◌*◌, ◌%◌, length, take};
ghost use Rattle.stores.specs.Layers.{byte_image, image_after, image_places};
ghost use Rattle.model.specs.Stores.{stored, store_limit};

use model::Kind;
use store::boards::LIMIT;
use store::meaning::Store;

/// A byte image over lent bytes: two bytes are a halfword, the high one first.
#[derive(Drop)]
pub struct ByteImage<'a> {
    bytes: &'a mut [u8],
    ghost even: { length bytes.now % 2 ≡ 0 },
    ghost within: { length bytes.now ≤ 2 * store_limit },
}

impl<'a> ByteImage<'a> {
    /// An image over the whole halfwords within the limit: the first 1,048,576 bytes, or all but a last odd one where they are fewer.
    /// The others are not lent on.
    pub fn new(bytes: &'a mut [u8]) -> ByteImage<'a>
        ensures holds { result.bytes.now ≡ take (2 * image_places bytes.old) bytes.old }
        ensures means { byte_image result.bytes.now ≡ byte_image bytes.old }
    {
        let places = (bytes.len() / 2).min(LIMIT);
        ByteImage {
            bytes: &mut bytes[..2 * places],
        }
    }

    /// The bytes as they are now: an even number, at most 1,048,576.
    pub fn into_bytes(self) -> &'a mut [u8]
        ensures holds { result.now ≡ self.entry.bytes.now }
        ensures even { length result.now % 2 ≡ 0 }
        ensures within { length result.now ≤ 2 * store_limit }
    {
        self.bytes
    }
}

// Fitted places and kinds are spelled as for core boards: a trait over the lent memory would need as many methods as they share.
impl Store for ByteImage<'_> {
    ghost meaning = { λ s. byte_image s.bytes.now };

    fn fitted(&self) -> usize {
        self.bytes.len() / 2
    }

    fn kind(&self, place: usize) -> Kind {
        if place < self.fitted() {
            Kind::Writable
        } else {
            Kind::Unfitted
        }
    }

    fn read(&self, place: usize) -> u16 {
        if place < self.fitted() {
            u16::from_be_bytes([self.bytes[2 * place], self.bytes[2 * place + 1]])
        } else {
            0
        }
    }

    fn write(&mut self, place: usize, word: u16)
        ensures written { byte_image self.new.bytes.now ≡ stored (byte_image self.old.bytes.now) place word }
        ensures bytes { self.new.bytes.now ≡ image_after self.old.bytes.now place word }
    {
        if place < self.fitted() {
            let [high, low] = word.to_be_bytes();
            self.bytes[2 * place] = high;
            self.bytes[2 * place + 1] = low;
        }
    }
}
