use crate::refusal::Refusal;
use single::answer::Answer;
use single::mode::Mode;

/// The numbers of a hold: its lane, and the serial that the take gave it. A name may be of a hold that has ended, or that never was.
#[derive(Clone, Copy, Drop, PartialEq, Eq, Debug)]
pub struct Name {
    pub lane: u32,
    pub serial: u32,
}

/// What is asked with a hold.
#[derive(Clone, Copy, Drop, PartialEq, Eq, Debug)]
pub enum Request {
    Load { k: u32, q: u32, x: u32 },
    Load32 { word: u32 },
    Step { count: u32 },
    Look,
    Collect { mode: Mode },
    Give,
}

/// One of the eight calls of a bank.
#[derive(Clone, Copy, Drop, PartialEq, Eq, Debug)]
pub enum Call {
    Tick { time: u32 },
    Take { lane: u32, ticks: u32 },
    Ask { name: Name, request: Request },
}

/// What a bank answers to a call that it accepts.
#[derive(Clone, Copy, Drop, PartialEq, Eq, Debug)]
pub enum Reply {
    /// A tick, a load or a give is done.
    Done,
    Took { serial: u32 },
    Stepped { digits: u32 },
    Shown { made: u32, s: u32 },
    Told(Answer),
}

/// A call of a list, with its answer once the list is played.
#[derive(Clone, Copy, Drop, PartialEq, Eq, Debug)]
pub struct Play {
    pub call: Call,
    pub reply: Option<Result<Reply, Refusal>>,
}
