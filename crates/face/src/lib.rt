// The answer that C is given, and the answer of each call in its numbers. The exported functions
// are in `trieff`.
#![tactic(auto)]

ghost use Rattle.std.specs.Prelude.{◌≡◌};
ghost use Rattle.paper.specs.Answers.{refusal_numbers, done_of, value_of, stored_of, noted_of};
ghost use Rattle.paper.specs.Answers.{found_of};
ghost use Rattle.paper.specs.Hearing.{done_numbers};
ghost use Rattle.face.specs.Face.{numbers_of};

use paper::{Found, Noted, Refusal};

// The answer of every call, in the numbers of 01. A field that a call does not use is 0. In a
// refusal all fields but number and place are 0.
#[repr(C)]
#[derive(Drop)]
pub struct TrieffAnswer {
    // 0 for done, else the number of the refusal.
    pub number: u32,
    // The node or address that the refusal names, else 0.
    pub place: u32,
    // The number of letters of the key found, or of the writes that a store noted.
    pub length: u32,
    // The change in the number of stored keys by a store: -1, 0 or 1.
    pub change: i32,
    // A value, the number of stored keys, or a key's position.
    pub value: u64,
}

// A refusal, with its number and its place.
pub fn refused(why: Refusal) -> TrieffAnswer
    ensures { numbers_of result ≡ refusal_numbers why }
{
    TrieffAnswer {
        number: why.number(),
        place: why.place(),
        length: 0,
        change: 0,
        value: 0,
    }
}

// A call that is done, with these numbers.
pub fn done_with(length: u32, change: i32, value: u64) -> TrieffAnswer
    ensures { numbers_of result ≡ done_numbers length change value }
{
    TrieffAnswer {
        number: 0,
        place: 0,
        length,
        change,
        value,
    }
}

// An impl for each form of answer: each has its own arm for what is done, and a trait for the six
// would say that once more.

// The answer of make, check, mend, counts and check_counts.
impl From<Result<(), Refusal>> for TrieffAnswer {
    ghost from_gives = { λ r a. numbers_of a ≡ done_of r };

    #[tactic(auto, unfolding(paper::specs::Answers::done_of))]
    fn from(answer: Result<(), Refusal>) -> TrieffAnswer {
        match answer {
            Ok(()) => done_with(0, 0, 0),
            Err(why) => refused(why),
        }
    }
}

// The answer of look_up and look_up_text: the value, 0 for absent.
impl From<Result<u64, Refusal>> for TrieffAnswer {
    ghost from_gives = { λ r a. numbers_of a ≡ value_of r };

    #[tactic(auto, unfolding(paper::specs::Answers::value_of))]
    fn from(answer: Result<u64, Refusal>) -> TrieffAnswer {
        match answer {
            Ok(value) => done_with(0, 0, value),
            Err(why) => refused(why),
        }
    }
}

// The answer of count, position and position_text: the number of stored keys, or the key's
// position, is the value.
impl From<Result<u32, Refusal>> for TrieffAnswer {
    ghost from_gives = { λ r a. numbers_of a ≡ value_of r };

    #[tactic(auto, unfolding(paper::specs::Answers::value_of))]
    fn from(answer: Result<u32, Refusal>) -> TrieffAnswer {
        match answer {
            Ok(number) => done_with(0, 0, u64::from(number)),
            Err(why) => refused(why),
        }
    }
}

// The answer of a store without writes, with or without counts: the change.
impl From<Result<i32, Refusal>> for TrieffAnswer {
    ghost from_gives = { λ r a. numbers_of a ≡ stored_of r };

    #[tactic(auto, unfolding(paper::specs::Answers::stored_of))]
    fn from(answer: Result<i32, Refusal>) -> TrieffAnswer {
        match answer {
            Ok(change) => done_with(0, change, 0),
            Err(why) => refused(why),
        }
    }
}

// The answer of a store with writes: the change, and the number of writes as the length.
impl From<Result<Noted, Refusal>> for TrieffAnswer {
    ghost from_gives = { λ r a. numbers_of a ≡ noted_of r };

    #[tactic(auto, unfolding(paper::specs::Answers::noted_of))]
    fn from(answer: Result<Noted, Refusal>) -> TrieffAnswer {
        match answer {
            Ok(noted) => done_with(noted.writes, noted.change, 0),
            Err(why) => refused(why),
        }
    }
}

// The answer of next_key and key_at: the length and the value of the key found.
impl From<Result<Found, Refusal>> for TrieffAnswer {
    ghost from_gives = { λ r a. numbers_of a ≡ found_of r };

    #[tactic(auto, unfolding(paper::specs::Answers::found_of))]
    fn from(answer: Result<Found, Refusal>) -> TrieffAnswer {
        match answer {
            Ok(found) => done_with(found.length, 0, found.value),
            Err(why) => refused(why),
        }
    }
}
