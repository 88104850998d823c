// What is lent to a job's calls.
ghost use Rattle.std.specs.Prelude.{◌≡◌};
ghost use Rattle.law.specs.States.{Piles as Meanings, is_size};
ghost use Rattle.jobs.specs.Views.{piles_of, sized};

use books::book::Book;
use members::member::{Beam, Column, Wall};
use registers::rows::{BeamRow, ColumnRow, WallRow};

// The register of each kind: slices that the caller lends, since a job has no memory of its own.
#[derive(Drop)]
pub struct Registers<'r> {
    pub beams: &'r mut [BeamRow],
    pub columns: &'r mut [ColumnRow],
    pub walls: &'r mut [WallRow],
}

impl Registers<'_> {
    // Whether each register may have as many rows as it has.
    pub(crate) fn are_sized(&self) -> bool
        ensures each_from_1_to_256 { result ≡ sized self.now }
    {
        is_size(self.beams.len()) && is_size(self.columns.len()) && is_size(self.walls.len())
    }
}

// Whether a register may have so many rows.
fn is_size(rows: usize) -> bool
    ensures from_1_to_256 { result ≡ is_size rows }
{
    (1..=256).contains(&rows)
}

// The pile of each kind, a book bare or behind specifications.
#[derive(Drop)]
pub struct Piles<'p, B, C, W> {
    pub beams: &'p B,
    pub columns: &'p C,
    pub walls: &'p W,
}

// The pile of each kind, as the calls ask it.
pub trait Books {
    // what the books of the piles mean
    ghost meanings: { Self → Meanings };

    // What stands for each pile.
    type Beams: Book<Beam>;

    type Columns: Book<Column>;

    type Walls: Book<Wall>;

    // The pile of beams.
    fn beams(&self) -> &Self::Beams
        ensures pile_of_beams { Self.Beams.meaning result.now ≡ (meanings self.now).beams };

    // The pile of columns.
    fn columns(&self) -> &Self::Columns
        ensures pile_of_columns { Self.Columns.meaning result.now ≡ (meanings self.now).columns };

    // The pile of walls.
    fn walls(&self) -> &Self::Walls
        ensures pile_of_walls { Self.Walls.meaning result.now ≡ (meanings self.now).walls };
}

impl<B: Book<Beam>, C: Book<Column>, W: Book<Wall>> Books for Piles<'_, B, C, W> {
    ghost meanings = { piles_of B.Book.meaning C.Book.meaning W.Book.meaning };

    type Beams = B;

    type Columns = C;

    type Walls = W;

    fn beams(&self) -> &B {
        self.beams
    }

    fn columns(&self) -> &C {
        self.columns
    }

    fn walls(&self) -> &W {
        self.walls
    }
}
