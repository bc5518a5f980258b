// Whether a call on a record as bytes would be taken, with no byte altered: the bytes' refusals first, then the call's own.
ghost use Rattle.std.specs.Prelude.{◌≡◌, ℕ};
ghost use Rattle.coordinator.specs.declared.Coordinator.{Coordinator};
ghost use Rattle.coordinator.specs.System.{tree};
ghost use Rattle.coordinator.specs.Calls.{begin_of, open_of, set_of, found_of, reselect_of, request_commit_of, abort_of};
ghost use Rattle.record.specs.Call.{called_of};
ghost use Rattle.numbers.specs.Outcome.{number_of};

use coordinator::BeginWith;
use numbers::{NODES, Refusal};
use quorum::{Kind, Quorum};
use record::check;

// Whether a transaction may begin, or why not. Ruled out: 5 for a damaged record; 9 where no quorum is live.
#[tactic(auto, unfolding(record::specs::Call::called_of, coordinator::specs::Calls::begin_of, coordinator::specs::State::step_of))]
pub fn may_begin(bytes: &[u8], me: u8, w: BeginWith) -> Result<Quorum, Refusal>
    ensures { number_of result ≡ (called_of (λ (c : Coordinator). begin_of tree c me w) bytes.now).number }
{
    check(bytes)?;
    let distances = w.distances;
    let chosen = quorum::nearest(Kind::Read, me, w.live, &distances);
    deeds::may_begin(bytes, me, w, chosen)
}

// Whether an object may be opened, the same in either mode. Ruled out: one that is open already taken; 7 for a ninth one that is open already.
#[tactic(auto, unfolding(record::specs::Call::called_of, coordinator::specs::Calls::open_of, coordinator::specs::State::step_of))]
pub fn may_open(bytes: &[u8], me: u8, object: u8) -> Result<(), Refusal>
    ensures { (mode : ℕ) → number_of result ≡ (called_of (λ (c : Coordinator). open_of c me object mode) bytes.now).number }
{
    check(bytes)?;
    deeds::may_open(bytes, me, object)
}

// Whether an object may be given a value, the same for every value. Ruled out: one that is only read taken; 6 before 5.
#[tactic(auto, unfolding(record::specs::Call::called_of, coordinator::specs::Calls::set_of, coordinator::specs::State::step_of))]
pub fn may_set(bytes: &[u8], me: u8, object: u8) -> Result<(), Refusal>
    ensures { (value : ℕ) → number_of result ≡ (called_of (λ (c : Coordinator). set_of c me object value) bytes.now).number }
{
    check(bytes)?;
    deeds::may_set(bytes, me, object)
}

// Whether the value found for an object may be told. Ruled out: 11 for an object that is ready; 11 for one that is not open.
#[tactic(auto, unfolding(record::specs::Call::called_of, coordinator::specs::Calls::found_of, coordinator::specs::State::step_of))]
pub fn may_tell(bytes: &[u8], me: u8, object: u8) -> Result<(), Refusal>
    ensures { number_of result ≡ (called_of (λ (c : Coordinator). found_of tree c me object) bytes.now).number }
{
    check(bytes)?;
    deeds::may_tell(bytes, me, object)
}

// Whether the read quorum may be chosen anew. Ruled out: taken where the live nodes have none; 4 for a mask of nodes alone.
#[tactic(auto, unfolding(record::specs::Call::called_of, coordinator::specs::Calls::reselect_of, coordinator::specs::State::step_of))]
pub fn may_reselect(
    bytes: &[u8],
    me: u8,
    live: u16,
    distances: [u16; NODES],
) -> Result<Quorum, Refusal>
    ensures { number_of result ≡ (called_of (λ (c : Coordinator). reselect_of tree c me live distances) bytes.now).number }
{
    check(bytes)?;
    let chosen = quorum::nearest(Kind::Read, me, live, &distances);
    deeds::may_reselect(bytes, me, live, chosen)
}

// Whether votes may be asked for. Ruled out: 8 before 11; taken with an object that is not ready.
#[tactic(auto, unfolding(record::specs::Call::called_of, coordinator::specs::Calls::request_commit_of, coordinator::specs::State::step_of))]
pub fn may_request(bytes: &[u8], me: u8) -> Result<Quorum, Refusal>
    ensures { number_of result ≡ (called_of (λ (c : Coordinator). request_commit_of tree c me) bytes.now).number }
{
    check(bytes)?;
    deeds::may_request(bytes, me)
}

// Whether the transaction may be given up. Ruled out: taken while finishing; 5 while voting.
#[tactic(auto, unfolding(record::specs::Call::called_of, coordinator::specs::Calls::abort_of, coordinator::specs::State::step_of))]
pub fn may_abort(bytes: &[u8], me: u8) -> Result<(), Refusal>
    ensures { number_of result ≡ (called_of (λ (c : Coordinator). abort_of c me) bytes.now).number }
{
    check(bytes)?;
    deeds::may_abort(bytes, me)
}
