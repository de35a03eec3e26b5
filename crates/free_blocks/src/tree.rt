//! A winner tree in one array: node 1 is the root, nodes 2n and 2n + 1 stand under node n, the lowest nodes
//! are the blocks. Each inner node holds the least number below it.

ghost use Rattle.std.specs.Prelude.{◌≡◌, ℕ, ◌+◌, ◌*◌, ◌<◌, ◌≤◌, length, drop, slice_set, IfSome, IfNone};
ghost use Rattle.free_blocks.specs.Numbers.{number_at, lesser, is_at_most, AreBeyond, IsLowest};
ghost use Rattle.free_blocks.specs.Tree.{leftmost, AreWinners};

/// How many blocks a tree of these places has room for, a power of two, and the depth of its blocks.
#[derive(Clone, Copy)]
pub(crate) struct Shape {
    pub(crate) size: u32,
    pub(crate) depth: u32,
    ghost full: { size ≡ leftmost 1 depth },
}

impl Shape {
    /// The least tree that has this number of places.
    pub(crate) fn new(places: u32) -> Shape
        requires few { places ≤ 65536 }
        ensures places { places ≤ result.size }
        ensures small { result.size ≤ 131072 }
    {
        let mut size = 1;
        let mut depth = 0;
        while size < places {
            size *= 2;
            depth += 1;
        }
        Shape { size, depth }
    }
}

/// The lesser of two numbers; none is the greatest.
pub fn lesser(a: Option<u64>, b: Option<u64>) -> Option<u64>
    ensures { result ≡ lesser a b }
{
    match (a, b) {
        (None, other) => other,
        (Some(first), None) => Some(first),
        (Some(first), Some(second)) => Some(first.min(second)),
    }
}

// Whether there is a number, and it is at most this, if there is one.
fn is_at_most(most: Option<u64>, number: Option<u64>) -> bool
    ensures { result ≡ is_at_most most number }
{
    match (most, number) {
        (_, None) => false,
        (None, Some(_)) => true,
        (Some(most), Some(number)) => number <= most,
    }
}

/// The number of a node; none beyond the last.
pub(crate) fn number_at(tree: &[Option<u64>], node: usize) -> Option<u64>
    ensures { result ≡ number_at tree.now node }
{
    if node < tree.len() { tree[node] } else { None }
}

/// Puts the number at its block, and at each node above the lesser of the two under it.
pub(crate) fn put(tree: &mut [Option<u64>], shape: Shape, block: u32, number: Option<u64>)
    requires place { shape.size + block < length tree.old }
    requires places { length tree.old ≤ 2 * shape.size }
    requires winners { AreWinners shape.size tree.old }
    ensures winners { AreWinners shape.size tree.new }
    ensures blocks { drop shape.size tree.new ≡ slice_set (drop shape.size tree.old) block number }
{
    let mut node = shape.size as usize + block as usize;
    tree[node] = number;
    while node > 1 {
        node /= 2;
        tree[node] = lesser(number_at(tree, 2 * node), number_at(tree, 2 * node + 1));
    }
}

/// The lowest block whose number is at most this.
pub(crate) fn lowest(tree: &[Option<u64>], shape: Shape, most: Option<u64>) -> Option<u32>
    requires places { length tree.now ≤ 2 * shape.size }
    requires winners { AreWinners shape.size tree.now }
    ensures found { IfSome result (IsLowest most (drop shape.size tree.now)) }
    ensures none { IfNone result (AreBeyond most (drop shape.size tree.now)) }
{
    if !is_at_most(most, number_at(tree, 1)) {
        return None;
    }
    let mut node = 1;
    for _ in 0..shape.depth {
        let left = 2 * node;
        node = if is_at_most(most, number_at(tree, left)) {
            left
        } else {
            left + 1
        };
    }
    Some((node - shape.size as usize) as u32)
}
