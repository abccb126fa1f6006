// A list of calls performed in turn on a part that answers each.
#![tactic(auto)]

ghost use Rattle.std.specs.Prelude.{◌≡◌, ◌-◌, ◌++◌, take, vec_len, vec_capacity};
ghost use Rattle.parts.specs.Runs.{Machine, answers, after};

// A part that answers calls given as values.
pub trait Performs {
    type Call: Copy;

    type Answer;

    // The part as a machine of plain values.
    ghost machine: { Machine Self.Call Self.Answer };

    // The state that the value is in.
    ghost state: { Self → machine.State };

    fn perform(&mut self, call: Self::Call) -> Self::Answer
        ensures answer { result ≡ (machine.step call (state self.old)).0 }
        ensures leaves { state self.new ≡ (machine.step call (state self.old)).1 };
}

// Performs as many of the calls as the vector has room for, in turn, and adds their answers to it.
pub fn perform_all<P: Performs>(part: &mut P, calls: &[P::Call], all: &mut Vec<P::Answer>)
    ensures answer { all.new.items ≡ all.old.items ++ answers P.Performs.machine.step (take (vec_capacity all.old - vec_len all.old) calls.now) (P.Performs.state part.old) }
    ensures leaves { P.Performs.state part.new ≡ after P.Performs.machine.step (take (vec_capacity all.old - vec_len all.old) calls.now) (P.Performs.state part.old) }
{
    let room = all.capacity().saturating_sub(all.len());
    for call in calls.iter().take(room) {
        all.push_reserved(part.perform(*call));
    }
}
