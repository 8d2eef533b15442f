// Answers in the papers' numbers, as structs that C can take: 0 and the results, or a refusal's number and zeros.
#![tactic(auto)]

ghost use Rattle.std.specs.Prelude.{◌+◌, Ok};
ghost use Rattle.model.specs.Calls.{preview_places};
ghost use Rattle.model.specs.Answers.{reply, execution, delivery, reading, finding, preview};
ghost use Rattle.ffi_numbers.specs.AnswerNumbers.{lone, executed, committed, valued, found, previewed, NumberedBy};

use model::{Commit, Preview, Version};

// Work: operations carried out, pending transactions now finished. Here and below a number of its own, and not a Result: the C interface.
#[repr(C)]
#[derive(Drop)]
pub struct Executed {
    pub number: u32,
    pub operations: u32,
    pub finished: u32,
}

// Final delivery. `kept` is 1 where the early results were validated, 0 where the transaction was run again, by `operations` operations.
#[repr(C)]
#[derive(Drop)]
pub struct Committed {
    pub number: u32,
    pub outcome: u32,
    pub kept: u32,
    pub stamp: u32,
    pub stored: u32,
    pub operations: u32,
}

// Read: value and stamp of the version that the reader sees.
#[repr(C)]
#[derive(Drop)]
pub struct Valued {
    pub number: u32,
    pub value: i64,
    pub stamp: u32,
}

// Find: the optimistic position and the length of the body.
#[repr(C)]
#[derive(Drop)]
pub struct Found {
    pub number: u32,
    pub place: u32,
    pub length: u32,
}

// Dry run: what a final delivery would come to now, and the value that each object would hold after it, 0 past the last object.
#[repr(C)]
#[derive(Drop)]
pub struct Previewed {
    pub number: u32,
    pub outcome: u32,
    pub kept: u32,
    pub stamp: u32,
    pub values: [i64; 128],
}

// An answer that is 0 or a refusal, as its number. A function, since neither type is of this crate. Here and below a refusal is a `Refusal`, a `u32`, or
// what else has a number.
pub fn reply_number<R: Into<u32>>(r: Result<(), R>) -> u32
    ensures { NumberedBy 0 (lone result) (λ u. reply (Ok u)) R.converts r }
{
    match r {
        Ok(()) => 0,
        Err(refusal) => refusal.into(),
    }
}

// Work's answer in the paper's numbers.
impl<R: Into<u32>> From<Result<model::Executed, R>> for Executed {
    ghost from_gives = { λ answer n. NumberedBy 2 (executed n) (λ x. execution (Ok x)) R.converts answer };

    fn from(answer: Result<model::Executed, R>) -> Executed {
        match answer {
            Ok(e) => Executed {
                number: 0,
                operations: e.operations,
                finished: e.finished,
            },
            Err(refusal) => {
                let k = refusal.into();
                Executed {
                    number: k,
                    operations: 0,
                    finished: 0,
                }
            }
        }
    }
}

// A final delivery's answer in the paper's numbers.
impl<R: Into<u32>> From<Result<Commit, R>> for Committed {
    ghost from_gives = { λ answer n. NumberedBy 5 (committed n) (λ x. delivery (Ok x)) R.converts answer };

    fn from(answer: Result<Commit, R>) -> Committed {
        match answer {
            Ok(c) => Committed {
                number: 0,
                outcome: c.outcome,
                kept: u32::from(c.validated),
                stamp: c.timestamp.0,
                stored: c.stored,
                operations: c.operations,
            },
            Err(refusal) => {
                let k = refusal.into();
                Committed {
                    number: k,
                    outcome: 0,
                    kept: 0,
                    stamp: 0,
                    stored: 0,
                    operations: 0,
                }
            }
        }
    }
}

// Read's answer in the paper's numbers.
impl<R: Into<u32>> From<Result<Version, R>> for Valued {
    ghost from_gives = { λ answer n. NumberedBy 2 (valued n) (λ x. reading (Ok x)) R.converts answer };

    fn from(answer: Result<Version, R>) -> Valued {
        match answer {
            Ok(v) => Valued {
                number: 0,
                value: v.value,
                stamp: v.timestamp.0,
            },
            Err(refusal) => {
                let k = refusal.into();
                Valued {
                    number: k,
                    value: 0,
                    stamp: 0,
                }
            }
        }
    }
}

// Find's answer in the paper's numbers.
impl<R: Into<u32>> From<Result<model::Found, R>> for Found {
    ghost from_gives = { λ answer n. NumberedBy 2 (found n) (λ x. finding (Ok x)) R.converts answer };

    fn from(answer: Result<model::Found, R>) -> Found {
        match answer {
            Ok(f) => Found {
                number: 0,
                place: f.position.0,
                length: f.length,
            },
            Err(refusal) => {
                let k = refusal.into();
                Found {
                    number: k,
                    place: 0,
                    length: 0,
                }
            }
        }
    }
}

// A dry run's answer in the paper's numbers.
impl<R: Into<u32>> From<Result<Preview, R>> for Previewed {
    ghost from_gives = { λ answer n. NumberedBy (3 + preview_places) (previewed n) (λ x. preview (Ok x)) R.converts answer };

    fn from(answer: Result<Preview, R>) -> Previewed {
        match answer {
            Ok(p) => {
                let values = p.values;
                Previewed {
                    number: 0,
                    outcome: p.outcome,
                    kept: u32::from(p.validated),
                    stamp: p.timestamp.0,
                    values,
                }
            }
            Err(refusal) => {
                let k = refusal.into();
                let values = [0; 128];
                Previewed {
                    number: k,
                    outcome: 0,
                    kept: 0,
                    stamp: 0, // a delivery that would be refused gets none
                    values,
                }
            }
        }
    }
}
