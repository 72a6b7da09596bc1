use recurrence::job::Job;
use single::answer::Answer;
use single::positive::Positive;

/// The job of a lane: a special single, settled with its answer; a fixed-point job; or a positive single, worked by a fixed-point job.
#[derive(Clone, Copy, Drop, PartialEq, Eq, Debug)]
pub enum LaneJob {
    Settled(Answer),
    Fixed(Job),
    Single(Positive, Job),
}
