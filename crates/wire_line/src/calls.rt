ghost use Rattle.std.specs.Prelude.{◌≡◌, ◌+◌, ◌-◌, ◌^◌, min};
ghost use Rattle.wire_line.specs.Memory.{faults_after, is_listed};

/// The calls of a source or a sink that are to fail, and how many calls and faults there were.
#[derive(Drop)]
pub struct Calls {
    pub failing: Vec<u64>,
    pub made: u64,
    pub faults: u64,
}

impl Calls {
    /// Counts a call, and answers whether it is to fail. If so, the fault is counted too.
    pub fn next_fails(&mut self) -> bool
        ensures listed { result ≡ is_listed self.old.failing.items self.old.made }
        ensures failing { self.new.failing ≡ self.old.failing }
        ensures made { self.new.made ≡ min (self.old.made + 1) (2 ^ 64 - 1) }
        ensures faults { self.new.faults ≡ faults_after result self.old.faults }
    {
        let fails = self.failing.contains(&self.made);
        self.made = self.made.saturating_add(1);
        if fails {
            self.count_fault();
        }
        fails
    }

    pub fn count_fault(&mut self)
        ensures faults { self.new.faults ≡ min (self.old.faults + 1) (2 ^ 64 - 1) }
        ensures failing { self.new.failing ≡ self.old.failing }
        ensures made { self.new.made ≡ self.old.made }
    {
        self.faults = self.faults.saturating_add(1);
    }
}
