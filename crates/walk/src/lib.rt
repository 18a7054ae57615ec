// The walk over an event's steps: the test of all their times, and the figures that they fold to.
#![tactic(auto)]

ghost use Rattle.std.specs.Prelude.{◌≡◌, ◌+◌, ◌*◌, ◌≤◌, length};
ghost use Rattle.annex.specs.Inside.{Timely};
ghost use Rattle.fields.specs.Fields.{steps_from};
ghost use Rattle.walk.specs.Walk.{set_out, walked_step, walked};

use annex::{Course, Step};

// The steps of an event so far: whether a time broke a rule, and the event's course, while none did.
#[derive(Clone, Copy)]
pub struct Walk {
    pub late: bool,
    pub course: Course,
}

impl Walk {
    // Before the first step.
    pub fn begin(t0: u32) -> Walk
        ensures { result ≡ set_out t0 }
    {
        Walk {
            late: false,
            course: Course::begin(t0),
        }
    }

    // One step more.
    pub fn with(self, step: Step) -> Walk
        requires { Timely self.course }
        ensures { result ≡ walked_step self step }
    {
        let late = self.late | limits::is_late(step.time, self.course.last);
        if late {
            return Walk {
                late: true,
                course: Course::begin(step.time),
            };
        }
        Walk {
            late: false,
            course: self.course.with(step),
        }
    }
}

// All the steps of a record of kind 3 that states so many, and has them.
pub fn walk_of(s: &[u8], steps: u8, t0: u32) -> Walk
    requires { 14 + 16 * steps ≤ length s.now }
    ensures { result ≡ walked (set_out t0) (steps_from s.now steps 14) }
{
    let mut walk = Walk::begin(t0);
    for i in 0..steps {
        walk = walk.with(fields::step_at(s, 14 + 16 * i as usize));
    }
    walk
}
