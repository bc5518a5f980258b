// Each call on a record as bytes: 1 and 2 of the bytes first, else the deed on them.
ghost use Rattle.std.specs.Prelude.{◌≡◌};
ghost use Rattle.coordinator.specs.declared.Coordinator.{Coordinator};
ghost use Rattle.coordinator.specs.System.{tree};
ghost use Rattle.coordinator.specs.Calls.{begin_of, open_of, set_of, found_of, reselect_of, request_commit_of, abort_of};
ghost use Rattle.record.specs.Call.{told, called_of, record_after};

use coordinator::BeginWith;
use deeds::open;
use numbers::{NODES, Refusal};
use record::{SIZE, check};

// Begins a transaction; answers the chosen read quorum. Ruled out: the record written back at a refusal; a serial that does not rise.
#[tactic(auto, using(crate::proofs::Whole::whole), unfolding(record::specs::Call::called_of, record::specs::Call::record_after))]
pub fn begin(bytes: &mut [u8], me: u8, w: BeginWith) -> Result<u64, Refusal>
    ensures value { told result ≡ called_of (λ (c : Coordinator). begin_of tree c me w) bytes.old }
    ensures bytes_after { bytes.new ≡ record_after (λ (c : Coordinator). begin_of tree c me w) bytes.old }
{
    check(bytes)?;
    deeds::begin(&mut bytes[..SIZE], me, w)
}

// Opens an object, to read it or to write it. Ruled out: a read opened as a write; a byte of another object altered.
#[tactic(auto, using(crate::proofs::Whole::whole), unfolding(record::specs::Call::called_of, record::specs::Call::record_after))]
pub fn open_read(bytes: &mut [u8], me: u8, object: u8) -> Result<u64, Refusal>
    ensures value { told result ≡ called_of (λ (c : Coordinator). open_of c me object 0) bytes.old }
    ensures bytes_after { bytes.new ≡ record_after (λ (c : Coordinator). open_of c me object 0) bytes.old }
{
    check(bytes)?;
    open(&mut bytes[..SIZE], me, object, 0)
}

// Ruled out: it is opened to be read; a ninth object taken.
#[tactic(auto, using(crate::proofs::Whole::whole), unfolding(record::specs::Call::called_of, record::specs::Call::record_after))]
pub fn open_write(bytes: &mut [u8], me: u8, object: u8) -> Result<u64, Refusal>
    ensures value { told result ≡ called_of (λ (c : Coordinator). open_of c me object 1) bytes.old }
    ensures bytes_after { bytes.new ≡ record_after (λ (c : Coordinator). open_of c me object 1) bytes.old }
{
    check(bytes)?;
    open(&mut bytes[..SIZE], me, object, 1)
}

// Gives a written object its new value. Ruled out: the value found overwritten; a damaged record taken.
#[tactic(auto, using(crate::proofs::Whole::whole), unfolding(record::specs::Call::called_of, record::specs::Call::record_after))]
pub fn set_value(bytes: &mut [u8], me: u8, object: u8, value: u64) -> Result<u64, Refusal>
    ensures value { told result ≡ called_of (λ (c : Coordinator). set_of c me object value) bytes.old }
    ensures bytes_after { bytes.new ≡ record_after (λ (c : Coordinator). set_of c me object value) bytes.old }
{
    check(bytes)?;
    deeds::set_value(&mut bytes[..SIZE], me, object, value)
}

// Answers the value found for a ready object. Ruled out: the new value; a byte altered.
#[tactic(auto, using(crate::proofs::Whole::whole), unfolding(record::specs::Call::called_of, record::specs::Call::record_after))]
pub fn found(bytes: &mut [u8], me: u8, object: u8) -> Result<u64, Refusal>
    ensures value { told result ≡ called_of (λ (c : Coordinator). found_of tree c me object) bytes.old }
    ensures bytes_after { bytes.new ≡ record_after (λ (c : Coordinator). found_of tree c me object) bytes.old }
{
    check(bytes)?;
    deeds::found(&bytes[..SIZE], me, object)
}

// Takes a fresh live mask and distances. Ruled out: the old quorum answered; the distances kept as they were.
// Inlined: called, it would take the distances once more on the stack.
#[tactic(auto, using(crate::proofs::Whole::whole), unfolding(record::specs::Call::called_of, record::specs::Call::record_after))]
#[inline(always)]
pub fn reselect(
    bytes: &mut [u8],
    me: u8,
    live: u16,
    distances: [u16; NODES],
) -> Result<u64, Refusal>
    ensures value { told result ≡ called_of (λ (c : Coordinator). reselect_of tree c me live distances) bytes.old }
    ensures bytes_after { bytes.new ≡ record_after (λ (c : Coordinator). reselect_of tree c me live distances) bytes.old }
{
    check(bytes)?;
    deeds::reselect(&mut bytes[..SIZE], me, live, distances)
}

// Asks for votes; answers the participants. Ruled out: 8 before 11; a phase that stays open.
#[tactic(auto, using(crate::proofs::Whole::whole), unfolding(record::specs::Call::called_of, record::specs::Call::record_after))]
pub fn request_commit(bytes: &mut [u8], me: u8) -> Result<u64, Refusal>
    ensures value { told result ≡ called_of (λ (c : Coordinator). request_commit_of tree c me) bytes.old }
    ensures bytes_after { bytes.new ≡ record_after (λ (c : Coordinator). request_commit_of tree c me) bytes.old }
{
    check(bytes)?;
    deeds::request_commit(&mut bytes[..SIZE], me)
}

// Gives the transaction up. Ruled out: a finishing one aborted; number 0 with the record left as it was.
#[tactic(auto, using(crate::proofs::Whole::whole), unfolding(record::specs::Call::called_of, record::specs::Call::record_after))]
pub fn abort(bytes: &mut [u8], me: u8) -> Result<u64, Refusal>
    ensures value { told result ≡ called_of (λ (c : Coordinator). abort_of c me) bytes.old }
    ensures bytes_after { bytes.new ≡ record_after (λ (c : Coordinator). abort_of c me) bytes.old }
{
    check(bytes)?;
    deeds::abort(&mut bytes[..SIZE], me)
}
