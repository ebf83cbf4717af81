ghost use Rattle.std.specs.Prelude.{◌≡◌};

use crate::parts::Sum;
use shared_objects::Either;
use std::test::*;
use turnstile::Machine;

// It answers the request before.
#[derive(Drop)]
struct Last {
    letter: char,
}

impl Machine for Last {
    type Request = char;

    type Reply = char;

    type Charter = ();

    ghost charter = { λ l. Prim.tt };

    ghost takes = { λ most request. Unit {0} };

    ghost turns = { λ l request reply n. (n.letter ≡ request) × (reply ≡ l.letter) };

    fn turn(&mut self, request: char) -> char {
        let reply = self.letter;
        self.letter = request;
        reply
    }
}

// The replies that are numbers, and those that are letters.
fn told(replies: &[Either<u64, char>]) -> (u64, u32) {
    let mut sum = 0u64;
    let mut letters = 0u32;
    for reply in replies {
        match reply {
            Either::Left(number) => sum = sum.wrapping_add(*number),
            Either::Right(letter) => letters = letters.wrapping_add(u32::from(*letter)),
        }
    }
    (sum, letters)
}

#[test]
fn each_answers_on_its_side(rt: HostRuntime) -> Result<(), Fail> {
    let mut sum: Either<Sum, Last> = Either::Left(Sum { total: 7 });
    let mut last: Either<Sum, Last> = Either::Right(Last { letter: 'a' });
    let replies = [
        sum.turn(Either::Left(5)),
        last.turn(Either::Right('b')),
        sum.turn(Either::Left(1)),
        last.turn(Either::Right('c')),
    ];
    assert_eq!(rt; told(&replies), (25, 195));
    Ok(())
}
