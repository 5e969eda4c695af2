// A table of slots: its numbers, lent, and how many slots they are.
#![tactic(auto)]

ghost use Rattle.std.specs.Prelude.{◌≡◌, ◌+◌, ◌*◌, ◌≤◌, ◌<◌, length};
ghost use Rattle.machine.specs.Contract.{Sized};

use terms::Rec;

// Lent to be read. The slot count stands beside the numbers, so that no step divides.
#[derive(Clone, Copy)]
pub struct Slots<'a> {
    pub numbers: &'a [u32],
    pub n: u32,
    pub ghost sized: { Sized numbers.now n },
}

// Lent to be written too. No one type is over both a `&` and a `&mut`.
#[derive(Drop)]
pub struct SlotsMut<'a> {
    pub numbers: &'a mut [u32],
    pub n: u32,
    pub ghost sized: { Sized numbers.now n },
}

#[tactic(auto, unfolding(machine::specs::Table::view, machine::specs::Table::place, machine::specs::Choice::if_b))]
impl Slots<'_> {
    ghost use Rattle.fields.specs.Writes.{seen};

    // A record by value. Beyond the table it reads as a free one.
    pub fn at(&self, s: u32) -> Rec
        ensures { result ≡ seen self.now s }
    {
        if self.n <= s {
            return Rec::default();
        }
        let i = s as usize * 6;
        let t = self.numbers;
        Rec {
            state: t[i],
            number: t[i + 1],
            price: t[i + 2],
            rank: t[i + 3],
            left: t[i + 4],
            right: t[i + 5],
        }
    }

    // The state alone, for the scans.
    pub fn state_at(&self, s: u32) -> u32
        requires { s < self.now.n }
        ensures { result ≡ (seen self.now s).state }
    {
        self.numbers[s as usize * 6]
    }
}

#[tactic(auto, unfolding(machine::specs::Table::puts, machine::specs::Table::put, machine::specs::Table::place))]
impl SlotsMut<'_> {
    ghost use Rattle.std.specs.Prelude.{[], ◌∷◌};
    ghost use Rattle.machine.specs.Table.{fill, off, lead};
    ghost use Rattle.fields.specs.Writes.{read, Writes};

    // The same table, to be read.
    pub fn read(&self) -> Slots<'_>
        ensures { (result.numbers.now ≡ self.now.numbers.now) × (result.n ≡ self.now.n) }
    {
        Slots {
            numbers: self.numbers,
            n: self.n,
        }
    }

    pub fn at(&self, s: u32) -> Rec
        ensures { result ≡ read self.now s }
    {
        self.read().at(s)
    }

    // A whole record is written.
    pub fn fill(&mut self, s: u32, r: Rec)
        requires { s < self.old.n }
        ensures { Writes self.old self.new (fill s r ∷ []) }
    {
        let i = s as usize * 6;
        self.numbers[i] = r.state;
        self.numbers[i + 1] = r.number;
        self.numbers[i + 2] = r.price;
        self.numbers[i + 3] = r.rank;
        self.numbers[i + 4] = r.left;
        self.numbers[i + 5] = r.right;
    }

    // A record is taken off.
    pub fn take_off(&mut self, s: u32)
        requires { s < self.old.n }
        ensures { Writes self.old self.new (off s ∷ []) }
    {
        self.numbers[s as usize * 6] = 2;
    }

    // A link now leads to another slot; true is left.
    pub fn lead(&mut self, s: u32, left: bool, to: u32)
        requires { s < self.old.n }
        ensures { Writes self.old self.new (lead s left to ∷ []) }
    {
        let i = s as usize * 6;
        if left {
            self.numbers[i + 4] = to;
        } else {
            self.numbers[i + 5] = to;
        }
    }
}
