// The two queues of nodes, and a value for each of them.
ghost use Rattle.std.specs.Prelude.{◌≡◌};
ghost use Rattle.trees.specs.Forests.{lane_of, put_lane};

// The two queues of nodes: those whose arcs are still to be looked at, and those that have lost their parent.
#[derive(Clone, Copy, PartialEq, Eq, Debug)]
pub enum Lane {
    Waiting,
    Orphans,
}

// A value for each queue.
#[derive(Clone, Copy, PartialEq, Eq, Debug, Default)]
pub struct Lanes<T> {
    pub waiting: T,
    pub orphans: T,
}

impl<T: Copy> Lanes<T> {
    // The value for a queue.
    pub fn get(self, lane: Lane) -> T
        ensures { result ≡ lane_of lane self }
    {
        match lane {
            Lane::Waiting => self.waiting,
            Lane::Orphans => self.orphans,
        }
    }

    // Puts another value for a queue.
    pub fn set(&mut self, lane: Lane, value: T)
        ensures { self.new ≡ put_lane lane value self.old }
    {
        match lane {
            Lane::Waiting => self.waiting = value,
            Lane::Orphans => self.orphans = value,
        }
    }
}
