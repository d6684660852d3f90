// The states of a record. Cites `specs/State.antt` of the crate `laws`.
//     UNSCORED, SCORED     the states of a cluster without a score, and with one
//     is_scored     the state is that of a scored cluster
//     is_state      the number is a state
ghost use Rattle.std.specs.Prelude.{◌≡◌};
ghost use Rattle.laws.specs.State.{scored, is_state};

// The state of a cluster without a score.
pub(crate) const UNSCORED: u8 = 0;

// The state of a cluster with a score.
pub const SCORED: u8 = 1;

// Whether the state is that of a scored cluster.
#[tactic(auto, unfolding(laws::specs::State::scored))]
pub fn is_scored(state: u8) -> bool
    ensures { result ≡ scored state }
{
    state == SCORED
}

// Whether a number is a state.
pub(crate) fn is_state(state: u8) -> bool
    ensures { result ≡ is_state state }
{
    state == UNSCORED || is_scored(state)
}
