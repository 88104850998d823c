// What is noted of shear in hand.

// Shear that was taken off a wall and is not yet on another: the job's number, the mark of the wall that it came from,
// that wall's storey, and how much it is in N. An empty note is all zeros and no None: the rules of the job fix it so.
#[derive(Clone, Copy, Debug, PartialEq, Eq)]
pub struct Note {
    pub job: u32,
    pub wall: u32,
    pub storey: u32,
    pub newtons: u32,
}
