// The plain data that the rules and the engine share.
use kinds::operation::Verb;

// The phases, in their order; joined comes again after merging.
#[derive(Clone, Copy, PartialEq, Eq)]
pub enum Phase {
    Joined,
    Closing,
    Split,
    Merging,
}

// A record that is split, and the one operation that may then be done to it.
#[derive(Clone, Copy)]
pub struct SplitItem {
    pub key: u16,
    pub part: u8,
    pub verb: Verb,
}

// A record's version, and the worker that has it locked.
#[derive(Clone, Copy)]
pub struct Stamp {
    pub version: u64,
    pub owner: Option<u8>,
}

// The version that a record had when a transaction first read it.
#[derive(Clone, Copy)]
pub struct Note {
    pub key: u16,
    pub version: u64,
}

// How a transaction ended: at its place, by a conflict on a record, or turned away where no more could be stashed.
// It is no `Result`: a conflict is no error of a call, and the rules speak of the three side by side.
#[derive(Clone, Copy)]
pub enum Outcome {
    Committed { place: u64 },
    Conflict { key: u16 },
    TurnedAway,
}

// What a transaction does next: run an entry, lock a record, check what it read, write a record,
// or apply the operation of an entry to a shard. It has its place from the check on.
#[derive(Clone, Copy)]
pub enum Stage {
    Running,
    Locking { key: u16 },
    Checking,
    Writing { place: u64, key: u16 },
    Sharding { place: u64, entry: usize },
    Ended { outcome: Outcome },
}

// What a step tells of its transaction.
#[derive(Clone, Copy)]
pub enum Told {
    Runs,
    Ended,
    Stashed,
}
