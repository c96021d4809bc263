// A text in a room of fixed size: nothing is allocated.
//
// Owns: where the bytes stand. Must not own: what they say.
// Defends: no byte beyond the room is touched, and all behind the text are zeros.
ghost use Rattle.std.specs.Prelude.{◌≡◌, [], ◌∷◌, ◌++◌, ◌+◌, ◌≤◌, ◌<◌, length, take};

use std::marker::Model;

// The bytes of a text stand first.
#[derive(Clone, Copy)]
pub struct Text<const N: usize> {
    bytes: [u8; N],
    len: usize,
}

// A clause sees the text's bytes alone. What stands behind them is zeros, so they tell the whole of it.
impl<const N: usize> Model for Text<N> {
    ghost use Rattle.std.specs.Prelude.{List, ℕ};

    ghost Value = { List ℕ };

    ghost use Rattle.lines.specs.Kept.{bytes_of, holding, IsKept};

    ghost view = { bytes_of };

    ghost invariant = { IsKept N };

    ghost inverse = { holding N };

    ghost inverse_ok = { λ l h. h.whole };
}

impl<const N: usize> Text<N> {
    pub fn empty() -> Self
        ensures { result ≡ [] }
    {
        Text {
            bytes: [0; N],
            len: 0,
        }
    }

    // The text's bytes, and none of those behind it.
    pub fn as_bytes(&self) -> &[u8]
        ensures value { result.now ≡ self.now }
        ensures len_bound { length self.now ≤ N }
    {
        &self.bytes[..self.len]
    }

    // The bytes behind the text; what does not fit is left out.
    pub fn add(&mut self, more: &[u8])
        ensures { self.new ≡ take N (self.old ++ more.now) }
    {
        let room = N - self.as_bytes().len();
        if more.len() <= room {
            self.write(more);
        } else {
            self.write(&more[..room]);
        }
    }

    // One byte, for which there is room.
    pub(crate) fn push(&mut self, byte: u8)
        requires { length self.old < N }
        ensures { self.new ≡ self.old ++ byte ∷ [] }
    {
        self.bytes[self.len] = byte;
        self.len += 1;
    }

    // Bytes for which there is room.
    pub(crate) fn write(&mut self, more: &[u8])
        requires { length self.old + length more.now ≤ N }
        ensures { self.new ≡ self.old ++ more.now }
    {
        let from = self.len;
        let end = from + more.len();
        let room = &mut self.bytes[..];
        room[from..end].copy_from_slice(more);
        self.len = end;
    }
}
