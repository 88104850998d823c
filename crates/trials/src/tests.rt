// Each trial lends registers, sets rows as no call would, and compares what the calls answer and leave.
use beams::articles::BeamBook;
use books::book::Book;
use cases::worked_wall;
use columns::articles::ColumnBook;
use faults::fault::{Origin, Refusal};
use jobs::calls::{judge, lift, open, place, put_back, write};
use jobs::hand::Hand;
use jobs::lent::{Piles, Registers};
use members::member::{Beam, Wall};
use registers::row::Row;
use registers::rows::{BeamRow, ColumnRow, WallRow};
use specifications::specification::Specification;
use std::test::Fail;
use tables::codes::Kind;
use walls::articles::WallBook;

// The ground of refusal S4.
const S4: Refusal = Refusal {
    origin: Origin::State,
    number: 4,
    layer: 3,
    place: 0,
};

// The books, bare.
fn books() -> Piles<'static, BeamBook, ColumnBook, WallBook> {
    Piles {
        beams: &BeamBook,
        columns: &ColumnBook,
        walls: &WallBook,
    }
}

// The worked wall with this mark, filed with this shear on it.
fn wall_row(mark: u32, carried: u32) -> WallRow {
    WallRow {
        member: Wall {
            sheet: worked_wall(mark),
            carried,
        },
        certified: false,
    }
}

#[test]
fn unlawful_rows_are_refused(rt: HostRuntime) -> Result<(), Fail> {
    let mut beams = [BeamRow::blank(); 1];
    let mut columns = [ColumnRow::blank(); 1];
    let mut walls = [WallRow::blank(); 2];
    let mut registers = Registers {
        beams: &mut beams,
        columns: &mut columns,
        walls: &mut walls,
    };
    let mut hand = Hand::empty();
    let Ok(mut job) = open(1, &mut registers) else {
        return Err(Fail::new("not opened"));
    };
    let wall = u32::from(Kind::Wall);
    if registers.walls.len() == 2 {
        registers.walls[0] = wall_row(1, 600_000);
        registers.walls[1] = wall_row(2, 419_999);
    }
    let judged = judge(&job, &mut registers, &books(), wall, 2);
    let lifted = lift(&mut job, &mut registers, &mut hand, 2, 1);
    let in_hand = lift(&mut job, &mut registers, &mut hand, 1, 1);
    let placed = place(&mut job, &mut registers, &mut hand, 2, 1);
    if registers.walls.len() == 2 {
        registers.walls[0] = wall_row(1, 1);
    }
    let back = put_back(&mut job, &mut registers, &mut hand);
    let mut buffer = [0u8; 200];
    let written = write(&job, &registers, wall, 1, &mut buffer);
    if registers.walls.len() == 2 {
        registers.walls[0] = wall_row(1, 599_999);
    }
    let given = put_back(&mut job, &mut registers, &mut hand);
    assert_eq!(rt; hand.newtons(), 0);
    assert!(rt; given.is_ok());
    assert_eq!(rt; judged.map_err(Refusal::from), Err(S4));
    assert_eq!(rt; lifted.map_err(Refusal::from), Err(S4));
    assert!(rt; in_hand.is_ok());
    assert_eq!(rt; placed.map_err(Refusal::from), Err(S4));
    assert_eq!(rt; back.map_err(Refusal::from), Err(S4));
    assert_eq!(rt; written.map_err(Refusal::from), Err(S4));
    assert!(rt; buffer == [0u8; 200]);
    Ok(())
}

// How many articles a specification has, which is passed by value.
fn articles_of(specification: Specification<BeamBook>) -> u32 {
    Book::<Beam>::count(&specification)
}

#[test]
fn a_specification_is_copied_where_it_is_passed(rt: HostRuntime) {
    let mut specification = Specification::before::<Beam>(BeamBook);
    let added = specification.add(1, 1, 100);
    assert!(rt; added.is_ok());
    assert_eq!(rt; articles_of(specification), 8);
    assert_eq!(rt; articles_of(specification), 8);
}
