// One task from start to end: a beam and two walls are entered and judged, shear is moved from one wall to the other and
// the rest put back, a wall whose shear moved is not withdrawn, the beam is, and a sheet's message is written. Each call's
// answer is printed. The hand is empty on every way out. Buffers and arrays are kept: a job takes no heap.
#![tactic(auto)]

ghost use Rattle.std.specs.Prelude.{◌≡◌, None, IsTrue, is_none};
ghost use Rattle.std.specs.List.{list_all};
ghost use Rattle.law.specs.Histories.{put_back, wall_moved};
ghost use Rattle.law.specs.Laws.{InStep};
ghost use Rattle.jobs.specs.Views.{act_of, state_of};

use beams::articles::BeamBook;
use cases::{worked_beam, worked_wall};
use columns::articles::ColumnBook;
use faults::fault::JobFault;
use jobs::call::Call;
use jobs::calls::{open, write};
use jobs::hand::Hand;
use jobs::job::Job;
use jobs::lent::{Books, Piles, Registers};
use jobs::perform::perform;
use law::answers::Answer;
use messages::message::encode;
use registers::row::Row;
use registers::rows::{BeamRow, ColumnRow, WallRow};
use sheets::sheet::Sheet;
use std::io;
use tables::codes::Kind;
use walls::articles::WallBook;

// A job with all that its calls are handed, whatever calls were made since its opening: the hand agrees with the job's
// note of shear.
struct Task<'r, P: Books> {
    job: Job,
    registers: Registers<'r>,
    hand: Hand,
    piles: P,
    ghost goes_on_from_an_opening: { ∥ InStep (P.meanings piles) (state_of job registers) hand.note ∥₁ },
}

impl<P: Books> Task<'_, P> {
    // Makes a call, and prints its answer.
    fn make(&mut self, rt: &impl Print, name: &str, call: Call<'_>) -> io::Result<()>
        ensures same_hand_where_no_shear_moves { wall_moved (act_of call.entry) self.old.hand.note ≡ None → self.new.hand.note ≡ self.old.hand.note }
        ensures put_back_leaves_no_shear { act_of call.entry ≡ put_back → self.new.hand.note.newtons ≡ 0 }
    {
        let answer = perform(
            &mut self.job,
            &mut self.registers,
            &mut self.hand,
            &self.piles,
            call,
        );
        tell(rt, name, answer)
    }

    // Makes calls in turn, and prints their answers.
    fn make_each(&mut self, rt: &impl Print, calls: &[(&str, Call<'_>)]) -> io::Result<()>
        ensures same_hand_where_no_shear_moves { IsTrue (list_all (λ named. is_none (wall_moved (act_of named.1) self.old.hand.note)) calls.now) → self.new.hand.note ≡ self.old.hand.note }
    {
        for &(name, call) in calls {
            self.make(rt, name, call)?;
        }
        Ok(())
    }

    // Enters a sheet by its message, and prints the answer.
    fn enter(&mut self, rt: &impl Print, name: &str, sheet: Sheet) -> io::Result<()>
        ensures same_hand { self.new.hand.note ≡ self.old.hand.note }
    {
        let mut message = [0u8; 256];
        match encode(&sheet, &mut message) {
            Ok(size) => self.make(rt, name, Call::Enter(&message[0..size])),
            Err(fault) => tell(rt, name, Err(fault)),
        }
    }

    // Lifts shear off wall 1, places part of it on wall 2, judges that wall and tallies the storey.
    fn share(&mut self, rt: &impl Print) -> io::Result<()> {
        self.make_each(
            rt,
            &[
                (
                    "lift 180001 off wall 1",
                    Call::Lift {
                        wall: 1,
                        newtons: 180_001,
                    },
                ),
                (
                    "lift 180000 off wall 1",
                    Call::Lift {
                        wall: 1,
                        newtons: 180_000,
                    },
                ),
                (
                    "place 82631 on wall 2",
                    Call::Place {
                        wall: 2,
                        newtons: 82_631,
                    },
                ),
                (
                    "judge wall 2",
                    Call::Judge {
                        kind: Kind::Wall.into(),
                        mark: 2,
                    },
                ),
                ("tally storey 1", Call::Tally { storey: 1 }),
            ],
        )
    }

    // Puts back what is in hand, and prints the answer.
    fn give_back(&mut self, rt: &impl Print) -> io::Result<()>
        ensures no_shear_in_hand { self.new.hand.note.newtons ≡ 0 }
    {
        self.make(rt, "put back", Call::PutBack)
    }

    // Shares shear between the walls and puts the rest back, whatever went wrong between. That no shear is in hand is kept as a
    // clause of this and of the two beside it: it holds after them and not before.
    fn share_and_give_back(&mut self, rt: &impl Print) -> io::Result<()>
        ensures no_shear_in_hand { self.new.hand.note.newtons ≡ 0 }
    {
        let shared = self.share(rt);
        let given = self.give_back(rt);
        shared?;
        given
    }

    // The task, on a job that was just opened.
    fn run(&mut self, rt: &impl Print) -> io::Result<()>
        requires nothing_in_hand { self.old.hand.note.newtons ≡ 0 }
        ensures no_shear_in_hand { self.new.hand.note.newtons ≡ 0 }
    {
        self.enter(rt, "enter beam 1", Sheet::Beam(worked_beam(1)))?;
        self.enter(rt, "enter wall 1", Sheet::Wall(worked_wall(1)))?;
        self.enter(rt, "enter wall 2", Sheet::Wall(worked_wall(2)))?;
        let beam = u32::from(Kind::Beam);
        let wall = u32::from(Kind::Wall);
        self.make_each(
            rt,
            &[
                (
                    "judge beam 1",
                    Call::Judge {
                        kind: beam,
                        mark: 1,
                    },
                ),
                (
                    "judge wall 1",
                    Call::Judge {
                        kind: wall,
                        mark: 1,
                    },
                ),
            ],
        )?;
        self.share_and_give_back(rt)?;
        self.make_each(
            rt,
            &[
                (
                    "judge wall 1",
                    Call::Judge {
                        kind: wall,
                        mark: 1,
                    },
                ),
                (
                    "withdraw wall 1",
                    Call::Withdraw {
                        kind: wall,
                        mark: 1,
                    },
                ),
                (
                    "withdraw beam 1",
                    Call::Withdraw {
                        kind: beam,
                        mark: 1,
                    },
                ),
            ],
        )?;
        self.write_back(rt)
    }

    // Writes the message of wall 2 back, and prints its length.
    fn write_back(&self, rt: &impl Print) -> io::Result<()> {
        let mut buffer = [0u8; 256];
        match write(
            &self.job,
            &self.registers,
            Kind::Wall.into(),
            2,
            &mut buffer,
        ) {
            Ok(size) => println!(rt; "write wall 2: {size} bytes"),
            Err(fault) => tell(rt, "write wall 2", Err(fault)),
        }
    }
}

// Prints what a call answered.
fn tell(rt: &impl Print, name: &str, answer: Result<Answer, JobFault>) -> io::Result<()> {
    match answer {
        Ok(answer) => println!(rt; "{name}: {answer}"),
        Err(fault) => println!(rt; "{name}: {fault}"),
    }
}

// Opens job 7 on registers with room for a beam, a column and two walls, and does the task.
fn main(rt: HostRuntime) -> io::Result<()> {
    let mut beams = [BeamRow::blank(); 1];
    let mut columns = [ColumnRow::blank(); 1];
    let mut walls = [WallRow::blank(); 2];
    let mut registers = Registers {
        beams: &mut beams,
        columns: &mut columns,
        walls: &mut walls,
    };
    let job = match open(7, &mut registers) {
        Ok(job) => job,
        Err(fault) => return tell(&rt, "open", Err(fault)),
    };
    println!(rt; "open: job {}", job.number())?;
    let mut task = Task {
        job,
        registers,
        hand: Hand::empty(),
        piles: Piles {
            beams: &BeamBook,
            columns: &ColumnBook,
            walls: &WallBook,
        },
    };
    let done = task.run(&rt);
    let Task {
        job: _,
        registers: _,
        hand: _,
        piles: _,
    } = task;
    done
}
