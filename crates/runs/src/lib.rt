// A step of any kind at the service over its five lent buffers, a host's call or another; and what is claimed of every list of steps from an origin, in its
// contract.
#![tactic(auto)]

ghost use Rattle.std.specs.Prelude.{◌≡◌, List, [], ℕ};
ghost use Rattle.service_calls.specs.Lent.{lent, blank_number, blank_after};
ghost use Rattle.accounts.specs.Accounts.{blank_origin};
ghost use Rattle.runs.specs.Order.{is_host, act_of, ask_of, call_of};
ghost use Rattle.runs.specs.Left.{told_of, left_of, host_told, host_left, other_told, other_left};
ghost use Rattle.runs.specs.Held.{Holds, Claimed, GoesOn};
ghost use Rattle.station_intake.specs.Convert.{convert_number, convert_after};

use buffers::{Answer, refused};
use frontend::{Act, Ask};
use orders::{Kind, Order};

// Starts anew: a blank service whose nodes of a mask are on. Ruled out: a record that is kept; another mask.
pub fn start(
    images: &mut [u8],
    records: &mut [u8],
    pool: &mut [u8],
    own: &mut [u8],
    settings: &mut [u8],
    on: u16,
) -> u8
    ensures value { result ≡ blank_number
        (lent images.old records.old pool.old own.old settings.old) on }
    ensures settings_after { lent images.new records.new pool.new own.new settings.new
        ≡ blank_after (lent images.old records.old pool.old own.old settings.old) on }
    ensures holds { result ≡ 0 → Holds (blank_origin on) []
        (lent images.new records.new pool.new own.new settings.new) }
{
    numbers::number(service_calls::blank(images, records, pool, own, settings, on))
}

// Takes in all thirteen images of an older length; the other buffers are as they are. Where they held an origin at rest, the running goes on from it: every
// step from there has demand 3, and what was committed before comes first, in its order. Ruled out: the images before a damaged one written; a node that
// gets the image of the node behind it.
pub fn take_in(old: &[u8], images: &mut [u8]) -> u8
    ensures value { result ≡ convert_number old.now images.old }
    ensures images_after { images.new ≡ convert_after old.now images.old }
    ensures goes_on { GoesOn old.now result images.old images.new }
{
    numbers::number(station_intake::take_in_all(old, images))
}

// Whether a kind is a host's call at a node.
fn is_host(kind: Kind) -> bool
    ensures { result ≡ is_host kind }
{
    match kind {
        Kind::Send => false,
        Kind::Deliver => false,
        Kind::Drop => false,
        Kind::Switch => false,
        _ => true,
    }
}

// What a front end is asked by an order: 7 acts, and of every other kind the last.
fn act_of(kind: Kind) -> Act
    ensures { result ≡ act_of kind }
{
    match kind {
        Kind::Begin => Act::Begin,
        Kind::Batch => Act::Batch,
        Kind::OpenRead => Act::OpenRead,
        Kind::OpenWrite => Act::OpenWrite,
        Kind::SetValue => Act::SetValue,
        Kind::RequestCommit => Act::RequestCommit,
        _ => Act::LoadClasses,
    }
}

fn ask_of(o: Order) -> Ask
    ensures { result ≡ ask_of o }
{
    let kind = o.kind;
    let with = o.with;
    Ask {
        act: act_of(kind),
        with,
        object: o.object,
        value: o.value,
        day: o.day,
        minute: o.minute,
    }
}

// A host's call at a node, over what it needs, whatever images there are and whatever waits; 5 for any other kind. Ruled out: a begin that does not go by
// the hours; a send that is taken here.
pub fn host_step(
    records: &mut [u8],
    own: &[u8],
    settings: &mut [u8],
    list: &[u8],
    o: Order,
) -> Answer
    ensures by_index { (images pool : List ℕ) → result ≡ host_told
        (lent images records.old pool own.now settings.old) o list.now }
    ensures by_index_2 { (images pool : List ℕ) → lent images records.new pool own.now settings.new ≡ host_left
        (lent images records.old pool own.now settings.old) o list.now }
{
    let kind = o.kind;
    let with = o.with;
    match kind {
        Kind::Found => station_calls::found(records, own, o.node, o.object),
        Kind::Reselect => {
            let distances = with.distances;
            station_calls::reselect(records, own, o.node, with.live, distances)
        }
        Kind::Abort => station_calls::abort(records, own, o.node),
        Kind::LoadHours => service_calls::load_hours(own, settings, o.node, list),
        Kind::Send => refused(numbers::OUT_OF_TURN),
        Kind::Deliver => refused(numbers::OUT_OF_TURN),
        Kind::Drop => refused(numbers::OUT_OF_TURN),
        Kind::Switch => refused(numbers::OUT_OF_TURN),
        _ => service_calls::front(records, own, settings, o.node, ask_of(o), list),
    }
}

// A send, a delivery, a drop or a switch, over what it needs, whatever the settings are; 5 for a host's call. Ruled out: a delivery that alters a record
// of a node that is off; a begin that is taken here.
pub fn other_step(
    images: &mut [u8],
    records: &mut [u8],
    pool: &mut [u8],
    own: &mut [u8],
    o: Order,
) -> Answer
    ensures by_index { (settings list : List ℕ) → result ≡ other_told
        (lent images.old records.old pool.old own.old settings) o list }
    ensures by_index_2 { (settings list : List ℕ) → lent images.new records.new pool.new own.new settings ≡ other_left
        (lent images.old records.old pool.old own.old settings) o list }
{
    let kind = o.kind;
    match kind {
        Kind::Send => station::send(records, pool, own, o.node, o.to, o.object),
        Kind::Deliver => station::deliver(images, records, pool, own, o.place, o.flag),
        Kind::Drop => station::drop(pool, o.place),
        Kind::Switch => station_calls::switch(own, o.node, o.flag),
        _ => refused(numbers::OUT_OF_TURN),
    }
}

// Takes one step, and demand 3 holds of the longer list. Ruled out: a step of another kind; a buffer altered that this kind of step leaves alone;
// a committed transaction that found another value than it finds in replay.
pub fn step(
    images: &mut [u8],
    records: &mut [u8],
    pool: &mut [u8],
    own: &mut [u8],
    settings: &mut [u8],
    list: &[u8],
    o: Order,
) -> Answer
    ensures value { result ≡ told_of
        (lent images.old records.old pool.old own.old settings.old) (call_of o list.now) }
    ensures settings_after { lent images.new records.new pool.new own.new settings.new ≡ left_of
        (lent images.old records.old pool.old own.old settings.old) (call_of o list.now) }
    ensures claimed { Claimed (lent images.old records.old pool.old own.old settings.old)
        (call_of o list.now) result
        (lent images.new records.new pool.new own.new settings.new) }
{
    let kind = o.kind;
    if is_host(kind) {
        return host_step(records, own, settings, list, o);
    }
    other_step(images, records, pool, own, o)
}
