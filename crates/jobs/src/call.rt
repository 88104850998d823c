// The calls of a job, with their arguments.

// One call: a message; a kind and a mark; a wall and newtons; a storey. Kept as numbers, also a kind's: the caller need not
// know which stand for one, since the call refuses those that do not (I6).
#[derive(Clone, Copy)]
pub enum Call<'m> {
    Enter(&'m [u8]),
    Withdraw { kind: u32, mark: u32 },
    Judge { kind: u32, mark: u32 },
    Lift { wall: u32, newtons: u32 },
    Place { wall: u32, newtons: u32 },
    PutBack,
    Tally { storey: u32 },
}
