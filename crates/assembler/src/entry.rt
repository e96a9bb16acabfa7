// An instruction of a list, whose function is the high four bits of a byte.
ghost use Rattle.std.specs.Prelude.{◌≡◌, ◌≤◌};
ghost use Rattle.assembler.specs.Entries.{byte_in};
ghost use Rattle.assembler.specs.Places.{prefixes_in, place_in, operand_by};

// With an operand, or with a code distance: from the byte after its user to the instruction reached, both by their indices.
#[derive(Clone, Copy, PartialEq, Eq)]
pub enum Entry {
    Plain {
        function: u8,
        operand: u32,
    },
    Distance {
        function: u8,
        reached: u16,
        user: u16,
    },
}

impl Entry {
    // What stands where a list has no instruction yet.
    pub const BLANK: Entry = Entry::Plain {
        function: 0,
        operand: 0,
    };

    // The function.
    pub(crate) fn function(&self) -> u8
        ensures { result ≡ byte_in self.now }
    {
        match *self {
            Entry::Plain { function, .. } => function,
            Entry::Distance { function, .. } => function,
        }
    }

    // The prefixes: a distance has three, another operand as few as can be.
    pub(crate) fn prefixes(&self) -> u32
        ensures said { result ≡ prefixes_in self.now }
        ensures bound { result ≤ 7 }
    {
        match *self {
            Entry::Plain { operand, .. } => instruction::fewest(operand),
            Entry::Distance { .. } => 3,
        }
    }

    // The operand, by the places of a list's entries: a distance counts from the byte after its user to the first byte reached.
    pub(crate) fn operand(&self, places: &[u32; 16385]) -> u32
        ensures { result ≡ operand_by places.now self.now }
    {
        match *self {
            Entry::Plain { operand, .. } => operand,
            Entry::Distance { reached, user, .. } => word::less(
                place_in(places, reached as usize),
                place_in(places, user as usize + 1),
            ),
        }
    }
}

// The place of an index, 0 where there is none.
fn place_in(places: &[u32; 16385], index: usize) -> u32
    ensures { result ≡ place_in places.now index }
{
    if index <= crate::ENTRIES {
        return places[index];
    }
    0
}
