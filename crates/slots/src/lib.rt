// The free slots: one bit each in four words; the number free and the lowest come from counting bits.
#![tactic(auto)]

ghost use Rattle.std.specs.Prelude.{◌≡◌, ◌+◌, ◌<◌, set, replicate};
ghost use Rattle.lists.specs.Count.{bit};
ghost use Rattle.slots.specs.Bits.{digits, bits_of, total, first_one, slot_for, free_at, slot_in};

// The free slots of 256: one bit each, set where the slot is free, in four words from the lowest bit up.
#[derive(Clone, Copy)]
pub struct Free {
    pub words: [u64; 4],
}

// The word with one of its bits set, or not set.
#[tactic(auto, using(crate::specs::BitLaws::bit_set, crate::specs::BitLaws::bit_cleared))]
fn marked(word: u64, place: usize, free: bool) -> u64
    requires { place < 64 }
    ensures { digits 64 result ≡ set (digits 64 word) place (bit free) }
{
    let mask = 1u64 << place;
    if free { word | mask } else { word & !mask }
}

impl Free {
    // Every slot is free.
    pub fn all() -> Self
        ensures { bits_of result.words ≡ replicate 256 1 }
    {
        Free {
            words: [u64::MAX; 4],
        }
    }

    // How many slots are free.
    pub fn count(self) -> u32
        ensures { result ≡ total (bits_of self.words) }
    {
        let mut free = 0;
        for word in self.words {
            free += word.count_ones();
        }
        free
    }

    // The lowest free slot.
    #[tactic(auto, using(crate::specs::BitLaws::lowest_here, crate::specs::BitLaws::lowest_turn))]
    pub fn lowest(self) -> Option<usize>
        ensures { result ≡ slot_in (first_one (bits_of self.words)) }
    {
        for (at, word) in self.words.iter().enumerate() {
            if *word != 0 {
                return Some(at * 64 + word.trailing_zeros() as usize);
            }
        }
        None
    }

    // The slot of an add: these were free before it, and `roomy` are once it has made room. The number free says whether there is one.
    #[tactic(auto, using(crate::specs::FreeLaws::none_lowest))]
    pub fn slot_for(self, roomy: Free) -> Option<usize>
        ensures { result ≡ slot_in (slot_for (bits_of self.words) (bits_of roomy.words)) }
    {
        if roomy.count() == 0 {
            None
        } else {
            roomy.lowest()
        }
    }

    // Whether the slot is free. A number past the last slot is not.
    #[tactic(auto, using(crate::specs::BitLaws::free_here, crate::specs::BitLaws::free_past))]
    pub fn is_free(self, slot: usize) -> bool
        ensures { result ≡ free_at (bits_of self.words) slot }
    {
        let at = slot / 64;
        at < self.words.len() && (self.words[at] >> (slot % 64)) % 2 == 1
    }

    // The slot is free, or it is not any more. A number past the last slot changes nothing. (By index: no clause of std says what a slice ends
    // as after `get_mut`.)
    #[tactic(auto, using(crate::specs::BitLaws::put, crate::specs::BitLaws::out_of_range))]
    fn with(self, slot: usize, free: bool) -> Self
        ensures { bits_of result.words ≡ set (bits_of self.words) slot (bit free) }
    {
        let mut words = self.words;
        let at = slot / 64;
        if at < words.len() {
            words[at] = marked(words[at], slot % 64, free);
        }
        Free { words }
    }

    // The slot is not free any more.
    pub fn take(self, slot: usize) -> Self
        ensures { bits_of result.words ≡ set (bits_of self.words) slot 0 }
    {
        self.with(slot, false)
    }

    // The slot is free again.
    pub fn give(self, slot: usize) -> Self
        ensures { bits_of result.words ≡ set (bits_of self.words) slot 1 }
    {
        self.with(slot, true)
    }
}
