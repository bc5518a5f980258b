// The tree of thirteen nodes, its read and write quorums, and the nearest of them within the live nodes.
#![tactic(auto)]

ghost use Rattle.std.specs.Prelude.{◌≡◌, cond, ◌+◌, ◌*◌, ◌^◌, ◌<◌, ◌≤◌};
ghost use Rattle.numbers.specs.Sizes.{nodes};
ghost use Rattle.numbers.specs.Numbers.{no_quorum};
ghost use Rattle.mask.specs.Mask.{contains};
ghost use Rattle.quorum.specs.Tree.{last};
ghost use Rattle.quorum.specs.Quorum.{two_of, rooted_by, in_subtree, is_quorum};
ghost use Rattle.quorum.specs.Counts.{leaf_counts};
ghost use Rattle.quorum.specs.Smallest.{smallest};
ghost use Rattle.quorum.specs.Nearest.{nearest_of, distance, number_of, mask_of, sum_of};
ghost use Rattle.quorum.specs.Levels.{turns_of, alone_of};
ghost use Rattle.quorum.specs.Key.{Means, height_of, AllMean, AllSmall, pair_key, root_key, best_key, best_pair_key};

use numbers::NODES;

// Which quorums are meant.
#[derive(Clone, Copy)]
pub enum Kind {
    Read,
    Write,
}

// A quorum that was chosen: its nodes, and the sum of their distances.
#[derive(Clone, Copy, PartialEq, Eq)]
pub struct Quorum {
    pub mask: u16,
    pub sum: u32,
}

// Two of three.
fn two_of(a: bool, b: bool, c: bool) -> bool
    ensures { result ≡ two_of a b c }
{
    if a { b || c } else { b && c }
}

// For a read quorum the root or a pair, for a write quorum the root and a pair.
fn rooted_by(kind: Kind, own: bool, pair: bool) -> bool
    ensures { result ≡ rooted_by kind own pair }
{
    match kind {
        Kind::Read => own || pair,
        Kind::Write => own && pair,
    }
}

// Bits 0, 3 and 6: one of three that follow each other, three times.
const THIRDS: u16 = 73;

// How many leaves of each hall are in m, three bits a hall: hall 1's at bit 0, hall 2's at bit 3, hall 3's at bit 6. All nine are counted by two additions.
fn leaf_counts(m: u16) -> u16
    ensures { result ≡ leaf_counts m }
{
    let leaves = m >> 4;
    (leaves & THIRDS) + ((leaves >> 1) & THIRDS) + ((leaves >> 2) & THIRDS)
}

// Whether m has a quorum of the subtree of one of the three nodes below the root (its halls), by the counts of its leaves: two or three have bit 1.
fn in_hall(kind: Kind, m: u16, counts: u16, hall: u8) -> bool
    requires { (1 ≤ hall) × (hall ≤ 3) × (counts ≡ leaf_counts m) }
    ensures { result ≡ in_subtree kind (contains m) 1 hall }
{
    rooted_by(kind, mask::has(m, hall), mask::has(counts, 3 * hall - 2))
}

// Whether m contains a quorum of the whole tree; bits above node 12 do not matter.
// Ruled out: a write quorum without the root; a read quorum of two leaves of one hall.
#[tactic(auto, unfolding(crate::specs::Quorum::is_quorum))]
pub fn is_quorum(kind: Kind, m: u16) -> bool
    ensures { result ≡ is_quorum kind m }
{
    let counts = leaf_counts(m);
    let a = in_hall(kind, m, counts, 1);
    let b = in_hall(kind, m, counts, 2);
    let c = in_hall(kind, m, counts, 3);
    rooted_by(kind, mask::has(m, 0), two_of(a, b, c))
}

// A choice as one number, its key: the sum, below it the turns (they put the asker's sets first), below them the mask. The lesser key is the nearer set; keys
// of sets that share no node add. A node that is not live has this key; that of every set is below it.
const ABSENT: u64 = 72057594037927936;

// What the sum and the turns are multiplied by in a key.
const ABOVE: u64 = 4294967296;

const TURN: u64 = 16777216;

// The turns of a node as the top of a subtree of this height: twice as many with each level, so that all sets which are compared have equally many, but for
// the asker, who has one less.
fn turns(asker: u8, node: u8, height: u8) -> u64
    requires { height ≤ 2 }
    ensures { (result ≡ turns_of asker height node) × (result ≤ 4) }
{
    let all: u64 = 1 << height;
    if node == asker { all - 1 } else { all }
}

// One node by itself, if it is live, as the top of a subtree of this height.
fn alone(asker: u8, live: u16, distances: &[u16; NODES], node: u8, height: u8) -> u64
    requires { (node < nodes) × (height ≤ 2) }
    ensures means { Means 65535 result (alone_of asker live distances.now height node) }
    ensures upper_bound { result ≤ 72057594037927936 }
{
    if mask::has(live, node) {
        let i = node as usize;
        let sum = u64::from(distances[i]);
        ABOVE * sum + TURN * turns(asker, node, height) + u64::from(mask::single(node))
    } else {
        ABSENT
    }
}

// The height of a node: 2 of the root, 1 of a hall, 0 of a leaf.
fn height_of(node: u8) -> u8
    ensures { (result ≡ height_of node) × (result ≤ 2) }
{
    if node == 0 {
        return 2;
    }
    if node < 4 { 1 } else { 0 }
}

// The keys of the thirteen nodes, each by itself.
fn keys_of(asker: u8, live: u16, distances: &[u16; NODES]) -> [u64; NODES]
    ensures { AllMean asker live distances.now result }
{
    let mut keys = [ABSENT; NODES];
    for i in 0..NODES {
        let node = i as u8;
        keys[i] = alone(asker, live, distances, node, height_of(node));
    }
    keys
}

// The nearest join of two of three keys.
fn choose_pair(a: u64, b: u64, c: u64) -> u64
    requires { (a < 2 ^ 62) × (b < 2 ^ 62) × (c < 2 ^ 62) }
    ensures { result ≡ pair_key a b c }
{
    (a + b).min((a + c).min(b + c))
}

// For a read quorum the nearer of the root and the pair, for a write quorum the two joined.
fn with_root(kind: Kind, own: u64, pair: u64) -> u64
    requires { own + pair < 2 ^ 64 }
    ensures { result ≡ root_key kind own pair }
{
    match kind {
        Kind::Read => own.min(pair),
        Kind::Write => own + pair,
    }
}

// The key of the nearest quorum of the subtree of this height at this root, from the keys of the nodes.
#[cycle(best_best_pair)]
fn best(kind: Kind, keys: &[u64; NODES], root: u8, height: u8) -> u64
    requires { (last height root < nodes) × (height ≤ 2) × AllSmall keys.now }
    ensures { result ≡ best_key kind keys.now height root }
{
    let i = root as usize;
    let own = keys[i];
    if height == 0 {
        return own;
    }
    let pair = best_pair(kind, keys, root, height - 1);
    with_root(kind, own, pair)
}

// The key of the nearest pair of quorums of two of a root's child subtrees, which have this height.
#[cycle(best_best_pair)]
fn best_pair(kind: Kind, keys: &[u64; NODES], root: u8, height: u8) -> u64
    requires { (last height (3 * root + 3) < nodes) × (height ≤ 1) × AllSmall keys.now }
    ensures { result ≡ best_pair_key kind keys.now height root }
{
    let at = 3 * root;
    let a = best(kind, keys, at + 1, height);
    let b = best(kind, keys, at + 2, height);
    let c = best(kind, keys, at + 3, height);
    choose_pair(a, b, c)
}

// The nearest quorum within the live nodes, for the node that asks: of the smallest quorums inside live the one with the least sum; of equal sums one with the
// asker first, and then the lowest mask. Its number is 8 exactly where live has no quorum, and its sum is that of its mask. An asker above 12 is in no set.
// Ruled out: a tie that goes to the lower mask although only the other set has the asker; the asker's set where another is nearer.
pub fn nearest(kind: Kind, asker: u8, live: u16, distances: &[u16; NODES]) -> Option<Quorum>
    ensures value { result ≡ nearest_of asker live distances.now (smallest kind) }
    ensures result_value { number_of result ≡ cond (is_quorum kind live) 0 no_quorum }
    ensures result_value_2 { sum_of result ≡ distance distances.now (mask_of result) }
{
    let keys = keys_of(asker, live, distances);
    let pair = best_pair(kind, &keys, 0, 1);
    let key = with_root(kind, keys[0], pair);
    if key < ABSENT {
        Some(Quorum {
            mask: (key % 65536) as u16,
            sum: (key / ABOVE) as u32,
        })
    } else {
        None
    }
}
