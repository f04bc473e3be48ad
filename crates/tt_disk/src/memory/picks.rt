//! The numbers that choose what a crash leaves, each made from the one before. The same pick gives the same numbers.
ghost use Rattle.std.specs.Prelude.{◌≤◌};

// Where the bytes of a torn range come from: they are the old ones, those that a read gives, any, or each of one of these.
#[derive(Clone, Copy)]
pub(super) enum ByteSource {
    Old,
    Now,
    Any,
    Mixed,
}

// The state that the next number is made from.
#[derive(Drop)]
pub(super) struct Picks {
    state: u64,
}

impl Picks {
    pub(super) fn new(pick: u64, index: u64) -> Picks {
        Picks {
            state: pick.wrapping_mul(0xbf58_476d_1ce4_e5b9)
                ^ index.wrapping_mul(0xd1b5_4a32_d192_ed03),
        }
    }

    fn number(&mut self) -> u64 {
        self.state = self.state.wrapping_add(0x9e37_79b9_7f4a_7c15);
        let mixed = (self.state ^ (self.state >> 30)).wrapping_mul(0xbf58_476d_1ce4_e5b9);
        let mixed = (mixed ^ (mixed >> 27)).wrapping_mul(0x94d0_49bb_1331_11eb);
        mixed ^ (mixed >> 31)
    }

    // A number up to this one.
    fn up_to(&mut self, most: u64) -> u64
        ensures { result ≤ most }
    {
        let number = self.number();
        match most.checked_add(1) {
            Some(count) => number % count,
            None => number,
        }
    }

    // A number up to this one, often 0 or the number itself: a length is often at one of its ends.
    pub(super) fn length_up_to(&mut self, most: u64) -> u64
        ensures { result ≤ most }
    {
        match self.up_to(2) {
            0 => 0,
            1 => most,
            _ => self.up_to(most),
        }
    }

    // Whether a create or a remove is done.
    pub(super) fn is_done(&mut self) -> bool {
        self.up_to(1) == 1
    }

    pub(super) fn source(&mut self) -> ByteSource {
        match self.up_to(3) {
            0 => ByteSource::Old,
            1 => ByteSource::Now,
            2 => ByteSource::Any,
            _ => ByteSource::Mixed,
        }
    }

    // Any byte, which half the time is 0 or 1: a byte that closes or opens something has one of these.
    fn any_byte(&mut self) -> u8 {
        let number = self.number();
        if number & 0x100 == 0 {
            (number & 1) as u8
        } else {
            (number & 0xff) as u8
        }
    }

    pub(super) fn byte(&mut self, source: ByteSource, old: u8, now: Option<u8>) -> u8 {
        let any = self.any_byte();
        match source {
            ByteSource::Old => old,
            ByteSource::Now => now.unwrap_or(old),
            ByteSource::Any => any,
            ByteSource::Mixed => match self.up_to(2) {
                0 => old,
                1 => now.unwrap_or(old),
                _ => any,
            },
        }
    }
}
