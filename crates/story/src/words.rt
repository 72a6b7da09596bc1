use protocol::call::{Call, Name, Reply, Request};
use single::answer::Answer;
use std::fmt;

/// A call, a request or a reply, shown in the story's words.
#[derive(Drop)]
pub(crate) struct InWords<T>(pub(crate) T);

impl fmt::Display for InWords<Call> {
    /// Shows a call.
    fn fmt<W: fmt::Write>(&self, f: &mut fmt::Formatter<W>) -> fmt::Result {
        match self.0 {
            Call::Tick { time } => write!(f, "tick {time}"),
            Call::Take { lane, ticks } => write!(f, "take lane {lane} for {ticks}"),
            Call::Ask { name, request } => {
                let request = InWords(request);
                let Name { lane, serial } = name;
                write!(f, "{request} with lane {lane}, serial {serial}")
            }
        }
    }
}

impl fmt::Display for InWords<Request> {
    /// Shows what is asked with a hold.
    fn fmt<W: fmt::Write>(&self, f: &mut fmt::Formatter<W>) -> fmt::Result {
        match self.0 {
            Request::Load { k, q, x } => write!(f, "load K {k} Q {q} x {x}"),
            Request::Load32 { word } => write!(f, "load32 {word:08x}"),
            Request::Step { count } => write!(f, "step {count}"),
            Request::Look => write!(f, "look"),
            Request::Collect { mode } => write!(f, "collect {mode}"),
            Request::Give => write!(f, "give"),
        }
    }
}

impl fmt::Display for InWords<Reply> {
    /// Shows what the bank tells.
    fn fmt<W: fmt::Write>(&self, f: &mut fmt::Formatter<W>) -> fmt::Result {
        match self.0 {
            Reply::Done => write!(f, "done"),
            Reply::Took { serial } => write!(f, "serial {serial}"),
            Reply::Stepped { digits } => write!(f, "made {digits}"),
            Reply::Shown { made, s } => write!(f, "made {made}, s = {s}"),
            Reply::Told(Answer { word, marks }) => {
                let marks = marks.number();
                write!(f, "{word}, marks {marks}")
            }
        }
    }
}
