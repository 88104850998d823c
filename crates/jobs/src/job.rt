// The job, that stands beside its registers.
ghost use Rattle.std.specs.Prelude.{◌≡◌};

use registers::note::Note;

// A job's number, and its note of shear in hand. A job is never copied.
#[derive(Drop)]
pub struct Job {
    pub(crate) number: u32,
    pub(crate) note: Note,
}

impl Job {
    // The job's number.
    pub fn number(&self) -> u32
        ensures number_of_the_job { result ≡ self.now.number }
    {
        self.number
    }
}
