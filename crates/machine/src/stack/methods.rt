// What is done to a stack, each said of the list of its bytes, the top byte first.
ghost use Rattle.std.specs.Prelude.{◌≡◌, ◌+◌, ◌*◌, ◌/◌, ◌%◌, ◌<◌, ◌≤◌, [], ◌∷◌, ◌++◌, reverse, length, drop, replicate, MatchOption, slice_index, slice_set};
ghost use Rattle.machine.specs.Bytes.{bytes, top, rest};

use super::Stack;

impl Stack {
    #[tactic(auto, unfolding(crate::specs::Bytes::bytes, crate::specs::Bytes::heaped))]
    pub fn new() -> Stack
        ensures bytes { bytes result ≡ [] }
        ensures depth { result.depth ≡ 0 }
    {
        Stack {
            cells: [0; 255],
            depth: 0,
        }
    }

    // A stack that holds these bytes, the last of them on top, if they are few enough.
    #[tactic(auto, using(crate::proofs::Heaped::laid), unfolding(crate::specs::Bytes::bytes))]
    pub fn from_slice(given: &[u8]) -> Option<Stack>
        ensures { MatchOption result (255 < length given.now) (λ s. bytes s ≡ reverse given.now) }
    {
        // A test of its own: of a write through `cells.get_mut(..n)?` no goal is told what the array then holds.
        if given.len() > 255 {
            return None;
        }
        let mut cells = [0; 255];
        cells[..given.len()].copy_from_slice(given);
        Some(Stack {
            cells,
            depth: given.len(),
        })
    }

    // The bytes, the top one last.
    #[tactic(auto, using(crate::proofs::Heaped::as_reverse, crate::proofs::Heaped::length_heaped), unfolding(crate::specs::Bytes::bytes))]
    pub fn as_slice(&self) -> &[u8]
        ensures bytes { reverse result.now ≡ bytes self.now }
        ensures len { length result.now ≡ self.now.depth }
        ensures many { length result.now ≡ length (bytes self.now) }
    {
        &self.cells[..self.depth]
    }

    pub fn depth(&self) -> usize
        ensures depth { result ≡ self.now.depth }
        ensures bytes { result ≡ length (bytes self.now) }
    {
        self.as_slice().len()
    }

    #[tactic(auto, using(crate::proofs::Heaped::pushed), unfolding(crate::specs::Bytes::bytes))]
    pub(crate) fn push(&mut self, byte: u8)
        requires { self.old.depth < 255 }
        ensures bytes { bytes self.new ≡ byte ∷ bytes self.old }
        ensures depth { self.new.depth ≡ self.old.depth + 1 }
    {
        self.cells[self.depth] = byte;
        self.depth += 1;
    }

    #[tactic(auto, using(crate::proofs::Heaped::popped), unfolding(crate::specs::Bytes::bytes))]
    pub(crate) fn pop(&mut self) -> u8
        requires { 0 < self.old.depth }
        ensures value { result ≡ top (bytes self.old) }
        ensures bytes { bytes self.new ≡ rest (bytes self.old) }
        ensures depth { self.new.depth + 1 ≡ self.old.depth }
    {
        self.depth -= 1;
        self.cells[self.depth]
    }

    // A word, its low byte on top.
    pub(crate) fn push_word(&mut self, word: u16)
        requires { self.old.depth < 254 }
        ensures bytes { bytes self.new ≡ (word % 256) ∷ ((word / 256) ∷ bytes self.old) }
        ensures depth { self.new.depth ≡ self.old.depth + 2 }
    {
        let [high, low] = word.to_be_bytes();
        self.push(high);
        self.push(low);
    }

    pub(crate) fn pop_word(&mut self) -> u16
        requires { 1 < self.old.depth }
        ensures value { result ≡ top (rest (bytes self.old)) * 256 + top (bytes self.old) }
        ensures bytes { bytes self.new ≡ rest (rest (bytes self.old)) }
        ensures depth { self.new.depth + 2 ≡ self.old.depth }
    {
        let low = self.pop();
        let high = self.pop();
        u16::from_be_bytes([high, low])
    }

    // The byte k under the top one.
    #[tactic(auto, using(crate::proofs::Heaped::peeked), unfolding(crate::specs::Bytes::bytes))]
    pub(crate) fn peek(&self, k: usize) -> u8
        requires { k < self.now.depth }
        ensures { result ≡ slice_index (bytes self.now) k }
    {
        self.cells[self.depth - 1 - k]
    }

    // Writes the byte k under the top one.
    #[tactic(auto, using(crate::proofs::Heaped::poked), unfolding(crate::specs::Bytes::bytes))]
    pub(crate) fn poke(&mut self, k: usize, byte: u8)
        requires { k < self.old.depth }
        ensures bytes { bytes self.new ≡ slice_set (bytes self.old) k byte }
        ensures depth { self.new.depth ≡ self.old.depth }
    {
        let at = self.depth - 1 - k;
        self.cells[at] = byte;
    }

    // Adds k bytes of one value.
    pub(crate) fn grow(&mut self, k: usize, fill: u8)
        requires { self.old.depth + k ≤ 255 }
        ensures bytes { bytes self.new ≡ replicate k fill ++ bytes self.old }
        ensures depth { self.new.depth ≡ self.old.depth + k }
    {
        // A loop, as `fill` on the cells above slowed the machine by a tenth, on routines that never grow a stack.
        for _ in 0..k {
            self.push(fill);
        }
    }

    // Drops the top k bytes.
    #[tactic(auto, using(crate::proofs::Heaped::cut), unfolding(crate::specs::Bytes::bytes))]
    pub(crate) fn cut(&mut self, k: usize)
        requires { k ≤ self.old.depth }
        ensures bytes { bytes self.new ≡ drop k (bytes self.old) }
        ensures depth { self.new.depth + k ≡ self.old.depth }
    {
        self.depth -= k;
    }
}
