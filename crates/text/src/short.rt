// A text of at most 64 bytes that is built in place, without allocation, and written out.
ghost use Rattle.std.specs.Prelude.{◌≡◌, ℕ, ◌≤◌, List, [], ◌++◌, length, take, decimal};
ghost use Rattle.text.specs.Placed.{placed};

use arrayvec::ArrayVec;
use itoa::Buffer;
use refusal::Refusal;
use std::marker::Model;

#[derive(Drop)]
pub struct Short {
    bytes: ArrayVec<u8, 64>,
}

// A text is its bytes: contracts speak of a `Short` as of the list of them. So each call that is lent one says how long it is.
impl Model for Short {
    ghost Value = { List ℕ };

    ghost view = { λ s. s.bytes.items };
}

impl Short {
    // The text of no bytes.
    pub fn new() -> Short
        ensures { result ≡ [] }
    {
        Short {
            bytes: ArrayVec::new(),
        }
    }

    pub fn as_bytes(&self) -> &[u8]
        ensures value { result.now ≡ self.now }
        ensures short { length self.now ≤ 64 }
    {
        self.bytes.as_slice()
    }

    // Puts `bytes` at the end; what passes 64 bytes is left out.
    pub fn push(&mut self, bytes: &[u8])
        ensures after { self.new ≡ take 64 (self.old ++ bytes.now) }
        ensures short { length self.old ≤ 64 }
    {
        let n = self.bytes.remaining_capacity().min(bytes.len());
        self.bytes.try_extend_from_slice(&bytes[..n]).unwrap();
    }

    // Puts the decimal digits of `n` at the end.
    pub fn push_number(&mut self, n: u64)
        ensures after { self.new ≡ take 64 (self.old ++ decimal n) }
        ensures short { length self.old ≤ 64 }
    {
        self.push(Buffer::new().format(n).as_bytes());
    }

    // Writes the text to the front of `out` and answers its length, or refuses and leaves `out` as it is.
    pub fn write_to(&self, out: &mut [u8]) -> Result<usize, Refusal>
        ensures answer { result ≡ (placed self.now out.old).0 }
        ensures after { out.new ≡ (placed self.now out.old).1 }
        ensures short { length self.now ≤ 64 }
    {
        let text = self.as_bytes();
        let (front, _) = out
            .split_at_mut_checked(text.len())
            .ok_or(Refusal::BufferTooShort)?;
        front.copy_from_slice(text);
        Ok(text.len())
    }
}
