//! Texts that are read byte by byte: one piece of memory, or two that stand one behind the other.

ghost use Rattle.std.specs.Prelude.{◌≡◌, ℕ, ◌+◌, ◌^◌, ◌<◌, ◌≤◌, List, ◌++◌, length, drop, take, slice_index, bytes_eq};

/// A text that is passed by value, and is read without a copy of its bytes.
pub trait Text: Copy {
    ghost bytes: { Self → List ℕ };

    /// How many bytes there are. One more can be counted.
    fn len(self) -> usize
        ensures value { result ≡ length (bytes self) }
        ensures short { length (bytes self) + 1 < 2 ^ 64 };

    /// The byte at the offset, 0 past the end.
    fn byte(self, at: usize) -> u8
        ensures { result ≡ slice_index (bytes self) at };

    /// What stands behind so many bytes.
    fn after(self, at: usize) -> Self
        requires { at ≤ length (bytes self) }
        ensures { bytes result ≡ drop at (bytes self) };

    /// So many bytes at the front.
    fn before(self, at: usize) -> Self
        requires { at ≤ length (bytes self) }
        ensures { bytes result ≡ take at (bytes self) };

    /// Whether the bytes are those of this ASCII word.
    fn is(self, word: &[u8]) -> bool
        ensures { result ≡ bytes_eq word.now (bytes self) };
}

impl<'a> Text for &'a [u8] {
    ghost bytes = { λ s. s.now };

    #[inline(always)]
    fn len(self) -> usize {
        <[u8]>::len(self)
    }

    #[inline(always)]
    fn byte(self, at: usize) -> u8 {
        if at < <[u8]>::len(self) { self[at] } else { 0 }
    }

    #[inline(always)]
    fn after(self, at: usize) -> &'a [u8] {
        &self[at..]
    }

    #[inline(always)]
    fn before(self, at: usize) -> &'a [u8] {
        &self[..at]
    }

    #[inline(always)]
    fn is(self, word: &[u8]) -> bool {
        word == self
    }
}

/// The text that two pieces make together.
#[derive(Clone, Copy)]
pub struct Joined<'a> {
    front: &'a [u8],
    rest: &'a [u8],
}

impl<'a> Joined<'a> {
    /// The text that begins with `front` and ends with `rest`.
    pub fn new(front: &'a [u8], rest: &'a [u8]) -> Joined<'a>
        ensures { ⟦<Joined<'a> as Text>⟧.bytes result ≡ front.now ++ rest.now }
    {
        Joined { front, rest }
    }
}

impl<'a> Text for Joined<'a> {
    ghost bytes = { λ s. s.front.now ++ s.rest.now };

    fn len(self) -> usize {
        self.front.len() + self.rest.len()
    }

    fn byte(self, at: usize) -> u8 {
        let seam = self.front.len();
        if at < seam {
            return self.front[at];
        }
        if at - seam < self.rest.len() {
            self.rest[at - seam]
        } else {
            0
        }
    }

    fn after(self, at: usize) -> Joined<'a> {
        let seam = self.front.len();
        if at <= seam {
            return Joined {
                front: &self.front[at..],
                rest: self.rest,
            };
        }
        Joined {
            front: &[],
            rest: &self.rest[at - seam..],
        }
    }

    fn before(self, at: usize) -> Joined<'a> {
        let seam = self.front.len();
        if at <= seam {
            return Joined {
                front: &self.front[..at],
                rest: &[],
            };
        }
        Joined {
            front: self.front,
            rest: &self.rest[..at - seam],
        }
    }

    #[tactic(auto, using(crate::proofs::JoinedLemmas::joined_eq))]
    fn is(self, word: &[u8]) -> bool {
        let seam = self.front.len();
        if word.len() < seam {
            return false;
        }
        &word[..seam] == self.front && &word[seam..] == self.rest
    }
}
