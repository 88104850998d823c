// The console: reads one message from standard input and prints the line that answers it.
#![tactic(auto)]

ghost use Rattle.std.specs.Prelude.{◌≤◌, length, IfOk};

use report::answer::reply;
use std::io;
use std::io::Read;

// One byte more than a message may have: so many bytes tell all there is to know. Kept as a buffer: nothing between the bytes
// and the line takes heap.
const ENOUGH: usize = 257;

// Fills the buffer from the input until one of them is at its end, and answers how many bytes were read.
fn fill<R: Read>(input: &mut R, buffer: &mut [u8]) -> io::Result<usize>
    ensures no_more_than_the_buffer_holds { IfOk result (λ size. size ≤ length buffer.new) }
{
    let most = buffer.len();
    let mut rest = buffer;
    while !rest.is_empty() {
        match input.read(rest)? {
            0 => break,
            more => rest = &mut rest[more..],
        }
    }
    Ok(most - rest.len())
}

// One message in, one line out.
fn main(rt: HostRuntime) -> io::Result<()> {
    let mut buffer = [0u8; ENOUGH];
    let mut input = rt.stdin();
    let size = fill(&mut input, &mut buffer)?;
    let line = reply(&buffer[0..size]);
    println!(rt; "{line}")
}

#[cfg(test)]
mod tests {
    use super::*;
    use books::answers::{Sides, Verdict};
    use books::judgement::verdict;
    use faults::fault::{Origin, Refusal};
    use members::member::Wall;
    use messages::message::encode;
    use sheets::sheet::{NumberedSheet, Sheet, WallSheet};
    use std::test::Fail;
    use walls::articles::WallBook;

    // An input that gives one byte at a time.
    #[derive(Drop)]
    struct Drip {
        left: usize,
    }

    impl Read for Drip {
        fn read(&mut self, buf: &mut [u8]) -> io::Result<usize> {
            if self.left == 0 || buf.is_empty() {
                return Ok(0);
            }
            buf[0] = 7;
            self.left -= 1;
            Ok(1)
        }
    }

    #[test]
    fn reads_up_to_the_buffer(rt: HostRuntime) -> Result<(), Fail> {
        for (given, read) in [(0, 0), (1, 1), (256, 256), (257, 257), (300, 257)] {
            let mut buffer = [0u8; ENOUGH];
            assert_eq!(rt; fill(&mut Drip { left: given }, &mut buffer)?, read);
        }
        Ok(())
    }

    // The ground of refusal S4.
    const S4: Refusal = Refusal {
        origin: Origin::State,
        number: 4,
        layer: 3,
        place: 0,
    };

    // A ground of refusal from the input, at place 0. Kept as numbers: the format fixes them.
    fn ground(number: u32, layer: u32) -> Refusal {
        Refusal {
            origin: Origin::Input,
            number,
            layer,
            place: 0,
        }
    }

    #[test]
    fn empty_and_overlong_input_is_refused(rt: HostRuntime) {
        let zeros = [0u8; ENOUGH];
        for (size, number) in [(0, 1), (257, 1), (256, 3)] {
            let answer = reply(&zeros[0..size]).answer;
            assert_eq!(rt; answer.map_err(Refusal::from), Err(ground(number, 1)));
        }
    }

    // The worked wall: storey 1 of 5, static, 200 thick, 3,000 long, shear 600,000.
    fn worked_wall() -> WallSheet {
        WallSheet::of_numbers([
            3, 100, 17, 140, 1, 5, 1, 200, 3_000, 9_000, 2_800, 600_000, 300_000, 480_000, 2, 10,
            200, 32, 12, 200,
        ])
    }

    #[test]
    fn carried_shear_decides_article_12(rt: HostRuntime) {
        let sheet = worked_wall();
        for carried in [420_000, 682_631] {
            assert!(rt;
                matches!(
                    verdict(&WallBook, &Wall { sheet, carried }),
                    Ok(Verdict::Certificate)
                )
            );
        }
        let under = Wall {
            sheet,
            carried: 419_999,
        };
        assert_eq!(rt; verdict(&WallBook, &under).map_err(Refusal::from), Err(S4));
        let over = Wall {
            sheet,
            carried: 682_632,
        };
        let sides = Sides {
            left: 12_867_600_000,
            right: 12_867_613_200,
        };
        assert_eq!(rt; verdict(&WallBook, &over), Ok(Verdict::Breaks(12, sides)));
    }

    #[test]
    fn a_short_buffer_stays_as_it_was(rt: HostRuntime) {
        let sheet = Sheet::Wall(worked_wall());
        let mut buffer = [9u8; 143];
        assert!(rt; encode(&sheet, &mut buffer).is_err());
        assert!(rt; buffer == [9u8; 143]);
    }
}
