// Answers of node `me`, each with the message's owner, serial and stamp.
ghost use Rattle.std.specs.Prelude.{◌≡◌, length};
ghost use Rattle.wire.specs.Decode.{decode};
ghost use Rattle.letters.specs.Write.{written_of, buffer_after};
ghost use Rattle.replica.specs.Steps.{silent, copy_to, vote_to, done_to};
ghost use Rattle.replica.specs.Given.{written_as};

use numbers::NODES;

// The copy that a fetch asked for.
#[tactic(auto, unfolding(wire::specs::Decode::decode))]
pub(crate) fn say_copy(
    answer: &mut [u8],
    me: u8,
    message: &[u8],
    e: wire::Entry,
) -> letters::Written
    ensures value { result ≡ written_of (length answer.old) (copy_to me (decode message.now) e) }
    ensures answer_after { answer.new ≡ buffer_after (copy_to me (decode message.now) e) answer.old }
{
    let o = wire::owner(message);
    let s = wire::serial(message);
    let u = wire::stamp(message);
    letters::write_copy(answer, me, o, s, u, e)
}

// A vote: the rivals' serials by owner, and the word.
#[tactic(auto, unfolding(wire::specs::Decode::decode))]
pub(crate) fn say_vote(
    answer: &mut [u8],
    me: u8,
    message: &[u8],
    serials: [u32; NODES],
    word: u8,
) -> letters::Written
    ensures value { result ≡ written_of (length answer.old) (vote_to me (decode message.now) serials word) }
    ensures answer_after { answer.new ≡ buffer_after (vote_to me (decode message.now) serials word) answer.old }
{
    let o = wire::owner(message);
    let s = wire::serial(message);
    let u = wire::stamp(message);
    letters::write_vote(answer, me, o, s, u, serials, word)
}

// Done.
#[tactic(auto, unfolding(wire::specs::Decode::decode))]
pub(crate) fn say_done(answer: &mut [u8], me: u8, message: &[u8]) -> letters::Written
    ensures value { result ≡ written_of (length answer.old) (done_to me (decode message.now)) }
    ensures answer_after { answer.new ≡ buffer_after (done_to me (decode message.now)) answer.old }
{
    let o = wire::owner(message);
    let s = wire::serial(message);
    let u = wire::stamp(message);
    letters::write_done(answer, me, o, s, u)
}

// No answer.
#[tactic(auto, unfolding(crate::specs::Given::written_as))]
pub(crate) fn silence() -> letters::Written
    ensures { result ≡ written_as 0 silent }
{
    letters::Written {
        number: 0,
        length: 0,
    }
}
