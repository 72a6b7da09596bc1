ghost use Rattle.std.specs.Prelude.{◌≡◌, ◌<◌, ◌≤◌, Some};
ghost use Rattle.protocol.specs.declared.call.Call.TheVariants.{Tick, Take};
ghost use Rattle.protocol.specs.Operands.{Make};
ghost use Rattle.protocol.specs.Bank.{new, answer, after};
ghost use Rattle.lanes.specs.Seen.{seen, lane_of, in_force, BelowEight, put, at_time};
ghost use Rattle.lanes.specs.Replies.{done, took};

use crate::lanes::{Holder, Lane, Lanes};
use lane_job::job::LaneJob;
use protocol::call::Name;
use protocol::refusal::Refusal;

impl Lanes {
    /// Makes eight free lanes, with the clock at 0 and 1 as the next serial.
    pub fn new() -> Lanes
        ensures { seen result ≡ new }
    {
        Lanes {
            clock: 0,
            next: 1,
            lanes: [Lane { holder: None }; 8],
        }
    }

    /// Sets the clock, and frees every lane whose deadline it reaches.
    pub fn tick(&mut self, time: u32) -> Result<(), Refusal>
        ensures answers { (m : Make) → done result ≡ answer m (seen self.old) (Tick time) }
        ensures leaves { (m : Make) → seen self.new ≡ after m (seen self.old) (Tick time) }
    {
        if time < self.clock {
            return Err(Refusal::BelowClock);
        }
        self.clock = time;
        for lane in &mut self.lanes {
            *lane = lane.at_time(time);
        }
        Ok(())
    }

    /// Finds the holder of a hold that is in force.
    pub fn in_force(&self, name: Name) -> Result<Holder, Refusal>
        ensures is { result ≡ in_force self.now name }
        ensures lane { BelowEight name.lane result }
    {
        self.lanes
            .get(name.lane as usize)
            .and_then(|lane| lane.holder)
            .filter(|holder| holder.serial == name.serial)
            .ok_or(Refusal::NotInForce)
    }

    /// Writes the holder of a lane; a lane above 7 there is none.
    pub fn put(&mut self, lane: u32, holder: Option<Holder>)
        ensures within { lane < 8 → seen self.new ≡ put lane (lane_of holder) (seen self.old) }
        ensures beyond { 8 ≤ lane → self.new ≡ self.old }
    {
        // By its index: `get_mut` does not promise that the lanes stay as they are where it finds none.
        if lane < 8 {
            self.lanes[lane as usize] = Lane { holder };
        }
    }

    /// Lets a lane: the serial handed out is the next.
    pub fn take(&mut self, lane: u32, ticks: u32) -> Result<u32, Refusal>
        ensures answers { (m : Make) → took result ≡ answer m (seen self.old) (Take lane ticks) }
        ensures leaves { (m : Make) → seen self.new ≡ after m (seen self.old) (Take lane ticks) }
    {
        let wanted = self.lanes.get(lane as usize).ok_or(Refusal::NoSuchLane)?;
        if wanted.holder.is_some() {
            return Err(Refusal::LaneHeld);
        }
        if ticks == 0 {
            return Err(Refusal::Ticks);
        }
        let deadline = self.clock.checked_add(ticks).ok_or(Refusal::Ticks)?;
        let serial = u32::try_from(self.next).map_err(|_| Refusal::SerialsUsedUp)?;
        self.next += 1;
        let holder = Holder {
            serial,
            deadline,
            job: None,
        };
        self.put(lane, Some(holder));
        Ok(serial)
    }
}

impl Lane {
    /// Gives the lane as it stands at a time: free from the deadline on.
    fn at_time(self, time: u32) -> Lane
        ensures { result ≡ at_time time self }
    {
        Lane {
            holder: self.holder.filter(|holder| time < holder.deadline),
        }
    }
}

impl Holder {
    /// Gives the holder with a job.
    pub fn with_job(self, job: LaneJob) -> Holder
        ensures { result ≡ record { serial = self.serial; deadline = self.deadline; job = Some job } }
    {
        Holder {
            job: Some(job),
            ..self
        }
    }
}
