//! Two words, as header entries, slots and records begin with.

ghost use Rattle.std.specs.Prelude.{◌≡◌, ◌+◌, ◌≤◌, length};

use byte_lists::slices::word_at;

/// Two words that stand one behind the other.
#[derive(Clone, Copy)]
pub struct Words {
    pub first: u32,
    pub second: u32,
}

impl From<[u8; 8]> for Words {
    ghost use Rattle.file.specs.Extents.{WordsAt};

    ghost from_gives = { λ bytes words. WordsAt bytes 0 words };

    fn from(bytes: [u8; 8]) -> Words {
        Words {
            first: word_at(&bytes, 0),
            second: word_at(&bytes, 4),
        }
    }
}
