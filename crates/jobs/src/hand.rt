// The hand, that shear is in between two walls.
ghost use Rattle.std.specs.Prelude.{◌≡◌};
ghost use Rattle.law.specs.States.{empty};

use registers::note::Note;

// The note of no shear. Kept as a literal: a constant calls no `default`, and all four numbers can be read here.
pub(crate) const NO_SHEAR: Note = Note {
    job: 0,
    wall: 0,
    storey: 0,
    newtons: 0,
};

// What is in hand. A hand is never copied, and may only end with no shear in it.
pub struct Hand {
    pub(crate) note: Note,
}

impl Hand {
    // A hand with nothing in it.
    pub fn empty() -> Hand
        ensures nothing_in_hand { result.note ≡ empty }
    {
        Hand { note: NO_SHEAR }
    }

    // The shear in hand, in N.
    pub fn newtons(&self) -> u32
        ensures shear_in_hand { result ≡ self.now.note.newtons }
    {
        self.note.newtons
    }
}

impl Drop for Hand {
    // A hand ends only with no shear in it.
    fn drop(self)
        requires no_shear_in_it { self.note.newtons ≡ 0 }
    {
        let Hand { note: _ } = self;
    }
}
