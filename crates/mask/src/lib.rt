// Sets of nodes (document 01: controllers) as 16-bit masks, bit i for node i.
#![tactic(auto)]

ghost use Rattle.std.specs.Prelude.{◌≡◌};
ghost use Rattle.mask.specs.Mask.{contains, only, joined, minus, within};

// Whether node `node` is in m; a node above 15 is in no mask.
// Ruled out: the test of the neighbouring bit; a test that takes node 16 for node 0.
pub fn has(m: u16, node: u8) -> bool
    ensures { result ≡ contains m node }
{
    node < 16 && (m >> node) % 2 == 1
}

// The set of one node; empty for a node above 15, which no mask can hold.
// Ruled out: the set of all nodes below it; node 16 wrapped to node 0.
pub fn single(node: u8) -> u16
    ensures { result ≡ only node }
{
    if node < 16 { 1 << node } else { 0 }
}

// The nodes of a and those of b. Ruled out: a sum, which carries where both have a node; the nodes of a alone.
pub fn join(a: u16, b: u16) -> u16
    ensures { result ≡ joined a b }
{
    a | b
}

// The nodes of a that are not in b. Ruled out: a difference of numbers, which borrows; the nodes of b that are not in a.
pub fn without(a: u16, b: u16) -> u16
    ensures { result ≡ minus a b }
{
    a & !b
}

// Whether every node of a is in b. Ruled out: 'they share a node'; 'every node of b is in a'.
pub fn subset(a: u16, b: u16) -> bool
    ensures { result ≡ within a b }
{
    a & b == a
}
