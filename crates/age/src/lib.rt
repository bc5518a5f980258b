// Which of two transactions is older, and which timestamp comes too early for a node's next one.
#![tactic(auto)]

ghost use Rattle.std.specs.Prelude.{◌≡◌};
ghost use Rattle.age.specs.Age.{older, too_early};

// Whether a transaction with this timestamp and owner is older than another one.
// Ruled out: equal timestamps taken as 'not older' both ways; the higher owner taken as the older one.
pub fn is_older(timestamp: u32, owner: u8, other: u32, other_owner: u8) -> bool
    ensures { result ≡ older timestamp owner other other_owner }
{
    timestamp < other || timestamp == other && owner < other_owner
}

// Whether a timestamp comes too early for a node's next transaction, after one with the last timestamp that was sent back (aborted) or not.
// Ruled out: the last timestamp taken after a commit; a lower one taken after an abort.
pub fn is_early(sent_back: bool, last: u32, timestamp: u32) -> bool
    ensures { result ≡ too_early sent_back last timestamp }
{
    if sent_back {
        timestamp < last
    } else {
        timestamp <= last
    }
}
