ghost use Rattle.std.specs.Prelude.{◌≡◌, ◌≤◌, ◌⊎◌, ◌↔◌, false, IsTrue};
ghost use Rattle.std.specs.List.{Contains};
ghost use Rattle.ug_io.specs.Outside.{Rose};
ghost use Rattle.ug_disk.specs.Scripts.{IsTurn};

/// Says which calls of a disk in memory fail, and after which calls it stops. Calls are counted
/// from 1.
#[derive(Drop)]
pub struct Script {
    /// The calls that fail.
    pub failing: Vec<u64>,
    /// The calls after which the disk stops.
    pub stopping: Vec<u64>,
}

/// The calls of a disk in memory so far.
#[derive(Drop)]
pub struct Calls {
    /// The calls that fail or stop the disk.
    pub script: Script,
    /// The number of calls.
    pub count: u64,
    /// The number of faults, up to its largest value.
    pub faults: u64,
    /// Has the disk stopped?
    pub is_stopped: bool,
}

/// What happens to a call.
#[derive(Clone, Copy, PartialEq, Eq)]
pub enum Turn {
    /// It succeeds.
    Goes,
    /// It fails after it has begun.
    Fails,
    /// The disk has stopped, and nothing happens.
    Stopped,
}

impl Calls {
    /// Returns the state before the first call.
    pub fn new(script: Script) -> Calls
        ensures { result ≡ record { script = script; count = 0; faults = 0; is_stopped = false } }
    {
        Calls {
            script,
            count: 0,
            faults: 0,
            is_stopped: false,
        }
    }

    /// Counts a call and returns what happens to it.
    pub fn next(&mut self) -> Turn
        ensures turn { IsTurn self.old self.new.count result }
        ensures stops { IsTrue self.new.is_stopped
            ↔ (IsTrue self.old.is_stopped
            ⊎ Contains self.old.script.stopping.items self.new.count) }
        ensures goes { result ≡ Turn.Goes → self.new.faults ≡ self.old.faults }
        ensures fails { (result ≡ Turn.Goes → ⊥) → Rose self.old.faults self.new.faults }
        ensures never_falls { self.old.faults ≤ self.new.faults }
    {
        self.count = self.count.saturating_add(1);
        let turn = self.turn();
        let stops = self.script.stopping.contains(&self.count);
        self.is_stopped |= stops;
        if turn != Turn::Goes {
            self.fail();
        }
        turn
    }

    // Returns what happens to the call of this number.
    fn turn(&self) -> Turn
        ensures { IsTurn self.now self.now.count result }
    {
        if self.is_stopped {
            Turn::Stopped
        } else if self.script.failing.contains(&self.count) {
            Turn::Fails
        } else {
            Turn::Goes
        }
    }

    /// Counts a fault.
    pub fn fail(&mut self)
        ensures rose { Rose self.old.faults self.new.faults }
        ensures never_falls { self.old.faults ≤ self.new.faults }
        ensures others { self.new ≡ record self.old { faults = self.new.faults } }
    {
        self.faults = self.faults.saturating_add(1);
    }

    /// Lets a stopped disk work again.
    pub fn resume(&mut self)
        ensures { self.new ≡ record self.old { is_stopped = false } }
    {
        self.is_stopped = false;
    }
}
