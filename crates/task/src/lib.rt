// Actions, states and keys as values: what an action does to a state, and how keys of paths compare.
#![tactic(auto)]

ghost use Rattle.std.specs.Prelude.{◌≡◌, ◌+◌, ◌-◌, ◌*◌, ◌≤◌, ◌<◌, ◌^◌, length, get_or, map};
ghost use Rattle.std.specs.Int.Bits.{bit_and};
ghost use Rattle.model.specs.Bits.{digit};
ghost use Rattle.model.specs.job.Job.{no_action};
ghost use Rattle.model.specs.task.State.{within, applicable, after};
ghost use Rattle.model.specs.exploration.Key.{extend};
ghost use Rattle.task.specs.Meaning.{action_is, key_is};
ghost use Rattle.task.specs.Applicable.{applicable_set};

// Document 01 calls an action a step. Each of the four sets is a number whose bit i is fact i.
#[derive(Clone, Copy, Debug, PartialEq, Eq)]
pub struct Action {
    pub pre: u64,
    pub add: u64,
    pub del: u64,
    pub forbidden: u64,
    pub cost: u64,
}

// The facts of xs that are none of ys.
fn without(xs: u64, ys: u64) -> u64
    ensures { result ≡ xs - bit_and xs ys }
{
    xs & !ys
}

// The facts that are true. A struct, since methods on a state by value are asked for (docs/DECISIONS.md); where residuals are progressed, the facts are
// a number.
#[derive(Clone, Copy, Debug, PartialEq, Eq)]
pub struct State {
    pub facts: u64,
}

impl State {
    #[tactic(auto, unfolding(model::specs::task::State::applicable, model::specs::task::State::apart))]
    pub fn applicable(self, a: Action) -> bool
        ensures { result ≡ applicable (action_is a) self.facts }
    {
        self.has(a.pre) && a.forbidden & self.facts == 0
    }

    // Deleted facts go first, so that a fact that is deleted and added is true afterwards.
    pub fn after(self, a: Action) -> State
        ensures { result.facts ≡ after (action_is a) self.facts }
    {
        State {
            facts: without(self.facts, a.del) | a.add,
        }
    }

    #[tactic(auto, unfolding(model::specs::task::State::within))]
    pub fn has(self, goal: u64) -> bool
        ensures { result ≡ within goal self.facts }
    {
        goal & self.facts == goal
    }
}

// The cost of a path, and its number of actions. Cost decides, and where it is equal the number of actions.
#[derive(Clone, Copy, Debug, PartialEq, Eq, PartialOrd, Ord)]
pub struct Key {
    pub cost: u64,
    pub steps: u64,
}

impl Key {
    // The key of the path with no action, the zero_key of the model.
    pub const ZERO: Key = Key { cost: 0, steps: 0 };

    // The key of a path with one more action.
    pub fn extended(self, cost: u64) -> Key
        requires { (self.cost + cost < 2 ^ 64) × (self.steps + 1 < 2 ^ 64) }
        ensures { key_is result ≡ extend (key_is self) cost }
    {
        Key {
            cost: self.cost + cost,
            steps: self.steps + 1,
        }
    }
}

// One action of a lent list, which is read and never written. Such a lookup is asked for (docs/DECISIONS.md).
pub fn action_at(actions: &[Action], i: usize) -> Action
    requires { i < length actions.now }
    ensures { action_is result ≡ get_or (map action_is actions.now) i no_action }
{
    actions[i]
}

// Those actions of a lent list that are applicable in a state: bit i is action i.
pub fn applicable_in(actions: &[Action], facts: u64) -> u64
    requires { length actions.now ≤ 64 }
    ensures { result ≡ applicable_set (map action_is actions.now) facts }
{
    let state = State { facts };
    bits::set_of(actions.len(), |i| state.applicable(action_at(actions, i)))
}

// The same of eight actions that are held, which are lent. Since their number is fixed, the compiler unrolls the loop and copies no array.
pub fn applicable_set(actions: [Action; 8], facts: u64) -> u64
    ensures { result ≡ applicable_set (map action_is actions) facts }
{
    applicable_in(&actions, facts)
}
