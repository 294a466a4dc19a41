// The positions of an array along the distributed dimension, dealt to the ranks in blocks.
ghost use Rattle.std.specs.Prelude.{◌≡◌, ◌+◌, ◌^◌, ◌<◌, ◌≤◌};

/// Positions from `start` on of a dimension whose blocks go to the ranks in turn.
#[derive(Clone, Copy)]
pub struct Positions {
    pub start: u32,
    pub block: u32,
    pub ranks: u8,
    ghost dealt: { (0 < block) × (0 < ranks) },
}

impl Positions {
    ghost use Rattle.decomp_map.specs.Counting.{count_below};
    ghost use Rattle.decomp_map.specs.Positions.{is_dealt, is_owned, owner_at, position_of_number};

    /// The rank that owns the position `index` places behind the first.
    pub fn owner(&self, index: u32) -> u8
        requires { self.now.start + index < 2 ^ 32 }
        ensures value { result ≡ owner_at self.now index }
        ensures rank { result < self.now.ranks }
    {
        ((self.start + index) / self.block % u32::from(self.ranks)) as u8
    }

    /// How many of the first `count` positions a rank owns.
    pub fn owned(&self, rank: u8, count: u32) -> u32
        requires rank { rank < self.now.ranks }
        requires small { self.now.start + count < 2 ^ 32 }
        ensures { result ≡ count_below (is_owned self.now rank) count }
    {
        (self.dealt(rank, self.start + count) - self.dealt(rank, self.start)) as u32
    }

    /// Where among these positions a rank has the one with so many of its own before it. There is such a one, however
    /// far behind the array's end.
    pub fn nth(&self, rank: u8, number: u32) -> u64
        requires rank { rank < self.now.ranks }
        ensures owner { owner_at self.now result ≡ rank }
        ensures number { count_below (is_owned self.now rank) result ≡ number }
    {
        let number = self.dealt(rank, self.start) + u64::from(number);
        self.position_of(rank, number) - u64::from(self.start)
    }

    /// The position in the whole dimension of a rank with so many of its own before it.
    fn position_of(&self, rank: u8, number: u64) -> u64
        requires rank { rank < self.now.ranks }
        requires small { number < 2 ^ 33 }
        ensures { result ≡ position_of_number self.now.block self.now.ranks rank number }
    {
        let block = u64::from(self.block);
        let rest = number % block;
        (number - rest) * u64::from(self.ranks) + u64::from(rank) * block + rest
    }

    /// How many positions of the whole dimension below `end` go to a rank.
    fn dealt(&self, rank: u8, end: u32) -> u64
        requires { rank < self.now.ranks }
        ensures value { result ≡ count_below (is_dealt self.now.block self.now.ranks rank) end }
        ensures small { result ≤ end }
    {
        let block = end / self.block;
        let turn = u64::from(block / u32::from(self.ranks));
        let in_turn = block % u32::from(self.ranks);
        let rank = u32::from(rank);
        let last = if rank < in_turn {
            self.block
        } else if rank == in_turn {
            end % self.block
        } else {
            0
        };
        turn * u64::from(self.block) + u64::from(last)
    }
}
