use lane_job::job::LaneJob;

/// Who holds a lane: by which serial, to which deadline, and with which job.
#[derive(Clone, Copy, Drop, PartialEq, Eq, Debug)]
pub struct Holder {
    pub serial: u32,
    pub deadline: u32,
    pub job: Option<LaneJob>,
}

/// A lane, free or held.
// a record of its own, as a rule of the project has it: the holder is an `Option` in it, and a lane may come to have more
#[derive(Clone, Copy, Drop, PartialEq, Eq, Debug)]
pub struct Lane {
    pub(crate) holder: Option<Holder>,
}

/// The eight lanes with their clock and the next serial.
#[derive(Drop)]
pub struct Lanes {
    pub(crate) clock: u32,
    /// From 1 up to 2^32, which is never handed out.
    pub(crate) next: u64,
    pub(crate) lanes: [Lane; 8],
}
