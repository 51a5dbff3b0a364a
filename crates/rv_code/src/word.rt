//! The words that encode instructions.
ghost use Rattle.std.specs.Prelude.{◌≡◌};

use arrayvec::ArrayVec;

/// The encoding of an instruction: a word of sixteen bits or of thirty-two.
#[derive(Clone, Copy, Debug, PartialEq, Eq)]
pub enum Word {
    /// Sixteen bits.
    Half(u16),
    /// Thirty-two bits.
    Full(u32),
}

impl Word {
    ghost use Rattle.rv_code.specs.Encoding.{bytes_of_word};

    /// The bytes as they stand in memory, the lowest first.
    pub fn bytes(self) -> ArrayVec<u8, 4>
        ensures { result.items ≡ bytes_of_word self }
    {
        let mut bytes = ArrayVec::new();
        match self {
            Word::Half(number) => {
                let [first, second] = number.to_le_bytes();
                bytes.push(first);
                bytes.push(second);
            }
            Word::Full(number) => {
                let [first, second, third, fourth] = number.to_le_bytes();
                bytes.push(first);
                bytes.push(second);
                bytes.push(third);
                bytes.push(fourth);
            }
        }
        bytes
    }
}
