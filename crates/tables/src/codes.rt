// The closed lists that stand for a number in a message or an argument. `Rattle.tables.specs.Codes` gives the
// number of each case.
ghost use Rattle.std.specs.Prelude.{◌≡◌};
ghost use Rattle.tables.specs.Codes.{kind_number, kind_of, analysis_of, quantity_of, sense_of, or_unlisted};

// A number that stands for none of its closed list. Each list below has conversions of its own, alike in shape alone: they are
// kept, since the numbers are all that each says, and an `impl` by a macro of this repository is refused by its gate.
#[derive(Clone, Copy, Debug, PartialEq, Eq)]
pub struct Unlisted;

// The kind of a member.
#[derive(Clone, Copy, Debug, PartialEq, Eq)]
pub enum Kind {
    Beam,
    Column,
    Wall,
}

// The number of the kind in messages and arguments.
impl From<Kind> for u32 {
    ghost from_gives = { λ kind r. r ≡ kind_number kind };

    fn from(kind: Kind) -> u32 {
        match kind {
            Kind::Beam => 1,
            Kind::Column => 2,
            Kind::Wall => 3,
        }
    }
}

// The kind that the number stands for.
impl TryFrom<u32> for Kind {
    type Error = Unlisted;

    ghost try_from_gives = { λ number r. r ≡ or_unlisted (kind_of number) };

    fn try_from(number: u32) -> Result<Kind, Unlisted> {
        match number {
            1 => Ok(Kind::Beam),
            2 => Ok(Kind::Column),
            3 => Ok(Kind::Wall),
            _ => Err(Unlisted),
        }
    }
}

// How a wall's shear was found.
#[derive(Clone, Copy, Debug, PartialEq, Eq)]
pub enum Analysis {
    Static,
    Dynamic,
}

// The analysis that the number stands for.
impl TryFrom<u32> for Analysis {
    type Error = Unlisted;

    ghost try_from_gives = { λ number r. r ≡ or_unlisted (analysis_of number) };

    fn try_from(number: u32) -> Result<Analysis, Unlisted> {
        match number {
            1 => Ok(Analysis::Static),
            2 => Ok(Analysis::Dynamic),
            _ => Err(Unlisted),
        }
    }
}

// What a rule of a specification measures on a member.
#[derive(Clone, Copy, Debug, PartialEq, Eq)]
pub enum Quantity {
    Thickness,
    TieSpacing,
    Storey,
}

// The quantity that the number stands for.
impl TryFrom<u32> for Quantity {
    type Error = Unlisted;

    ghost try_from_gives = { λ number r. r ≡ or_unlisted (quantity_of number) };

    fn try_from(number: u32) -> Result<Quantity, Unlisted> {
        match number {
            1 => Ok(Quantity::Thickness),
            2 => Ok(Quantity::TieSpacing),
            3 => Ok(Quantity::Storey),
            _ => Err(Unlisted),
        }
    }
}

// Which way a rule of a specification bounds its quantity.
#[derive(Clone, Copy, Debug, PartialEq, Eq)]
pub enum Sense {
    AtLeast,
    AtMost,
}

// The sense that the number stands for.
impl TryFrom<u32> for Sense {
    type Error = Unlisted;

    ghost try_from_gives = { λ number r. r ≡ or_unlisted (sense_of number) };

    fn try_from(number: u32) -> Result<Sense, Unlisted> {
        match number {
            1 => Ok(Sense::AtLeast),
            2 => Ok(Sense::AtMost),
            _ => Err(Unlisted),
        }
    }
}
