//! The steps on the nodes of the tree: node 1 is the root, the children of `p` are `2 p` and `2 p + 1`.
//!
//! Each walk begins at two leaves, one on each side of a span, and goes up from both until they meet. What lies between
//! the two on a level and has its parent on neither's way is covered from above: the right neighbour of a left child on
//! the left way, and the left neighbour of a right child on the right way.
ghost use Rattle.std.specs.Prelude.{
  ◌≡◌,
  ◌≢◌,
  ℕ,
  ◌+◌,
  ◌-◌,
  ◌*◌,
  ◌/◌,
  ◌%◌,
  ◌<◌,
  ◌≤◌,
  ◌^◌,
  min,
  true,
  false,
  length,
  slice_index,
  slice_set,
  IfOk,
};
ghost use Rattle.bp_ledger.specs.Tree.{
  width,
  IsOnLevel,
  above,
  on_way,
  over,
  kept_at,
  least_at,
  IsInner,
  SameLeaves,
  IsTaken,
  SameWays,
  IsPushed,
  share_left,
  share_right,
  IsShared,
  IsAmple,
  left_on,
};

use bp_types::Memory;

/// The levels below the root and the leaves of the least tree that has a leaf for each night and two more. There is no
/// memory for one whose nodes cannot be numbered.
pub(crate) fn shape(nights: usize) -> Result<(u32, usize), Memory>
    ensures { IfOk result (λ s. (s.1 ≡ width s.0) × (nights + 2 ≤ s.1) × (s.1 ≤ 2 ^ 62)) }
{
    let mut leaves = 1;
    for levels in 0..62 {
        if nights < leaves - 1 {
            return Ok((levels, leaves));
        }
        leaves *= 2;
    }
    Err(Memory)
}

/// Writes numbers side by side, from a node on.
pub(crate) fn lay(numbers: &mut [u64], values: &[u64], first: usize)
    requires { first + length values.now ≤ length numbers.old }
    ensures len { length numbers.new ≡ length numbers.old }
    ensures laid { (n : ℕ) → n < length values.now → slice_index numbers.new (first + n) ≡ slice_index values.now n }
    ensures before { (k : ℕ) → k < first → slice_index numbers.new k ≡ slice_index numbers.old k }
    ensures past { (k : ℕ) → first + length values.now ≤ k → slice_index numbers.new k ≡ slice_index numbers.old k }
{
    for n in 0..values.len() {
        numbers[first + n] = values[n];
    }
}

/// The sum of the amounts from a leaf to the root.
pub(crate) fn way(amounts: &[u64], levels: u32, leaf: usize) -> u64
    requires level { IsOnLevel levels leaf }
    requires within { length amounts.now ≡ width levels + width levels }
    requires fits { on_way levels amounts.now leaf < 2 ^ 64 }
    ensures { result ≡ on_way levels amounts.now leaf }
{
    let mut node = leaf;
    let mut sum = 0;
    for _level in 0..levels {
        sum += amounts[node];
        node /= 2;
    }
    sum + amounts[node]
}

/// What is left below a node once its own amount is taken.
fn kept(leasts: &[u64], amounts: &[u64], node: usize) -> u64
    requires leasts { node < length leasts.now }
    requires amounts { node < length amounts.now }
    ensures { result ≡ kept_at leasts.now amounts.now node }
{
    leasts[node].saturating_sub(amounts[node])
}

/// Brings the least number of a node up from its children.
fn refresh(leasts: &mut [u64], amounts: &[u64], node: usize)
    requires leasts { 2 * node + 1 < length leasts.old }
    requires amounts { 2 * node + 1 < length amounts.now }
    ensures { leasts.new ≡ slice_set leasts.old node (least_at leasts.old amounts.now node) }
{
    leasts[node] = kept(leasts, amounts, 2 * node).min(kept(leasts, amounts, 2 * node + 1));
}

/// Brings the least numbers up from a node to the root.
pub(crate) fn bring_up(leasts: &mut [u64], amounts: &[u64], levels: u32, from: usize)
    requires from { from < length leasts.old }
    requires leasts { length leasts.old ≡ width levels + width levels }
    requires amounts { length amounts.now ≡ width levels + width levels }
    requires inner { (x : ℕ) → 2 * x ≤ from → from ≤ 2 * x + 1 → IsInner levels leasts.old amounts.now x x }
    ensures len { length leasts.new ≡ length leasts.old }
    ensures leaves { SameLeaves levels leasts.old leasts.new }
    ensures inner { IsInner levels leasts.new amounts.now 0 0 }
{
    let _ = levels;
    let mut node = from;
    while node > 1 {
        node /= 2;
        refresh(leasts, amounts, node);
    }
}

/// Brings the least numbers of all inner nodes up.
pub(crate) fn build(leasts: &mut [u64], amounts: &[u64], levels: u32, leaves: usize)
    requires leaves { leaves ≡ width levels }
    requires leasts { length leasts.old ≡ width levels + width levels }
    requires amounts { length amounts.now ≡ width levels + width levels }
    ensures len { length leasts.new ≡ length leasts.old }
    ensures leaves { SameLeaves levels leasts.old leasts.new }
    ensures inner { IsInner levels leasts.new amounts.now 0 0 }
{
    let _ = levels;
    let mut node = leaves;
    while node > 1 {
        node -= 1;
        refresh(leasts, amounts, node);
    }
}

/// What the neighbour to the right is given.
fn beside_left(node: usize, units: u64) -> u64
    ensures { result ≡ share_left node units }
{
    if node.is_multiple_of(2) { units } else { 0 }
}

/// What the neighbour to the left is given.
fn beside_right(node: usize, units: u64) -> u64
    ensures { result ≡ share_right node units }
{
    if node.is_multiple_of(2) { 0 } else { units }
}

/// Leaves the units at the nodes between two on their level that no other level covers. They are added without a
/// branch, which could not be foreseen.
fn add_between(amounts: &mut [u64], left: usize, right: usize, units: u64)
    requires ordered { left < right }
    requires within { right < length amounts.old }
    requires apart { left / 2 ≢ right / 2 }
    requires left { 2 * (left / 2) ≡ left → slice_index amounts.old (left + 1) + units < 2 ^ 64 }
    requires right { 2 * (right / 2) + 1 ≡ right → slice_index amounts.old (right - 1) + units < 2 ^ 64 }
    ensures { IsShared left right units amounts.old amounts.new }
{
    amounts[left + 1] += beside_left(left, units);
    amounts[right - 1] += beside_right(right, units);
}

/// Takes the units off the nodes between two on their level that no other level covers.
fn subtract_between(amounts: &mut [u64], left: usize, right: usize, units: u64)
    requires ordered { left < right }
    requires within { right < length amounts.old }
    requires apart { left / 2 ≢ right / 2 }
    requires left { share_left left units ≤ slice_index amounts.old (left + 1) }
    requires right { share_right right units ≤ slice_index amounts.old (right - 1) }
    ensures { IsShared left right units amounts.new amounts.old }
{
    amounts[right - 1] -= beside_right(right, units);
    amounts[left + 1] -= beside_left(left, units);
}

/// Leaves the units to be taken at the nodes that cover the leaves between two, and brings the least numbers up.
pub(crate) fn take_between(
    leasts: &mut [u64],
    amounts: &mut [u64],
    levels: u32,
    low: usize,
    high: usize,
    units: u64,
)
    requires ordered { low < high }
    requires low { IsOnLevel levels low }
    requires high { IsOnLevel levels high }
    requires leasts { length leasts.old ≡ width levels + width levels }
    requires amounts { length amounts.old ≡ width levels + width levels }
    requires inner { IsInner levels leasts.old amounts.old 0 0 }
    requires left { (m : ℕ) → low < m → m < high → on_way levels amounts.old m + units < 2 ^ 64 }
    ensures taken { IsTaken levels low high units amounts.old amounts.new }
    ensures len { length leasts.new ≡ length leasts.old }
    ensures leaves { SameLeaves levels leasts.old leasts.new }
    ensures inner { IsInner levels leasts.new amounts.new 0 0 }
{
    let mut left = low;
    let mut right = high;
    while left / 2 != right / 2 {
        add_between(amounts, left, right, units);
        left /= 2;
        right /= 2;
        refresh(leasts, amounts, left);
        refresh(leasts, amounts, right);
    }
    let top = left;
    bring_up(leasts, amounts, levels, top);
}

/// Each node that covers leaves between two has so much to give back.
fn is_ample(amounts: &[u64], levels: u32, low: usize, high: usize, units: u64) -> bool
    requires ordered { low < high }
    requires low { IsOnLevel levels low }
    requires high { IsOnLevel levels high }
    requires amounts { length amounts.now ≡ width levels + width levels }
    ensures { result ≡ true → IsAmple low high units amounts.now }
{
    let _ = levels;
    let mut left = low;
    let mut right = high;
    while left / 2 != right / 2 {
        if amounts[left + 1] < beside_left(left, units) {
            return false;
        }
        if amounts[right - 1] < beside_right(right, units) {
            return false;
        }
        left /= 2;
        right /= 2;
    }
    true
}

/// Takes the units off the nodes that cover the leaves between two, and brings the least numbers up.
fn release_cover(
    leasts: &mut [u64],
    amounts: &mut [u64],
    levels: u32,
    low: usize,
    high: usize,
    units: u64,
)
    requires ordered { low < high }
    requires low { IsOnLevel levels low }
    requires high { IsOnLevel levels high }
    requires leasts { length leasts.old ≡ width levels + width levels }
    requires amounts { length amounts.old ≡ width levels + width levels }
    requires inner { IsInner levels leasts.old amounts.old 0 0 }
    requires ample { IsAmple low high units amounts.old }
    ensures taken { IsTaken levels low high units amounts.new amounts.old }
    ensures len { length leasts.new ≡ length leasts.old }
    ensures leaves { SameLeaves levels leasts.old leasts.new }
    ensures inner { IsInner levels leasts.new amounts.new 0 0 }
{
    let mut left = low;
    let mut right = high;
    while left / 2 != right / 2 {
        subtract_between(amounts, left, right, units);
        left /= 2;
        right /= 2;
        refresh(leasts, amounts, left);
        refresh(leasts, amounts, right);
    }
    bring_up(leasts, amounts, levels, left);
}

/// The least of this and, where the node is a left child, of what is left below its neighbour to the right. That one is
/// read in both cases: a branch could not be foreseen.
fn least_beside_left(leasts: &[u64], amounts: &[u64], node: usize, least: u64) -> u64
    requires leasts { node + 1 < length leasts.now }
    requires amounts { node + 1 < length amounts.now }
    ensures own { result ≤ least }
    ensures even { node % 2 ≡ 0 → result ≤ kept_at leasts.now amounts.now (node + 1) }
{
    let beside = kept(leasts, amounts, node + 1);
    if node.is_multiple_of(2) {
        least.min(beside)
    } else {
        least
    }
}

/// The least of this and, where the node is a right child, of what is left below its neighbour to the left.
fn least_beside_right(leasts: &[u64], amounts: &[u64], node: usize, least: u64) -> u64
    requires some { 0 < node }
    requires leasts { node < length leasts.now }
    requires amounts { node < length amounts.now }
    ensures own { result ≤ least }
    ensures odd { node % 2 ≡ 1 → result ≤ kept_at leasts.now amounts.now (node - 1) }
{
    let beside = kept(leasts, amounts, node - 1);
    if node.is_multiple_of(2) {
        least
    } else {
        least.min(beside)
    }
}

/// No leaf between two has fewer rooms left than this.
pub(crate) fn least_between(
    leasts: &[u64],
    amounts: &[u64],
    levels: u32,
    low: usize,
    high: usize,
) -> u64
    requires ordered { low < high }
    requires low { IsOnLevel levels low }
    requires high { IsOnLevel levels high }
    requires leasts { length leasts.now ≡ width levels + width levels }
    requires amounts { length amounts.now ≡ width levels + width levels }
    requires inner { IsInner levels leasts.now amounts.now 0 0 }
    ensures { (m : ℕ) → low < m → m < high → result ≤ left_on levels leasts.now amounts.now m }
{
    let _ = levels;
    let mut left = low;
    let mut right = high;
    let mut left_least = u64::MAX;
    let mut right_least = u64::MAX;
    while left / 2 != right / 2 {
        let with_left = least_beside_left(leasts, amounts, left, left_least);
        let with_right = least_beside_right(leasts, amounts, right, right_least);
        left /= 2;
        right /= 2;
        left_least = with_left.saturating_sub(amounts[left]);
        right_least = with_right.saturating_sub(amounts[right]);
    }
    let mut least = left_least.min(right_least);
    while left > 1 {
        left /= 2;
        least = least.saturating_sub(amounts[left]);
    }
    least
}

/// The first leaf below a node with fewer rooms left than the units, where the node has fewer: the left child first.
///
/// It is given the level of the node and the sum of the amounts above it.
fn first_below(
    leasts: &[u64],
    amounts: &[u64],
    levels: u32,
    top: u32,
    node: usize,
    higher: u64,
    units: u64,
) -> usize
    requires top { top ≤ levels }
    requires node { IsOnLevel top node }
    requires leasts { length leasts.now ≡ width levels + width levels }
    requires amounts { length amounts.now ≡ width levels + width levels }
    requires inner { IsInner levels leasts.now amounts.now 0 0 }
    requires higher { higher ≡ over top amounts.now node }
    requires short { kept_at leasts.now amounts.now node - higher < units }
    ensures below { above (levels - top) result ≡ node }
    ensures before { (m : ℕ) → IsOnLevel levels m → above (levels - top) m ≡ node → m < result →
        units ≤ left_on levels leasts.now amounts.now m }
    ensures short { left_on levels leasts.now amounts.now result < units }
{
    let mut at = node;
    let mut sum = higher;
    for _level in top..levels {
        sum = sum.saturating_add(amounts[at]);
        at *= 2;
        if kept(leasts, amounts, at).saturating_sub(sum) >= units {
            at += 1;
        }
    }
    at
}

/// The node to the right has fewer rooms left below it than the units, and the same parent.
///
/// It is given the sum of the amounts above both.
fn is_short_beside(leasts: &[u64], amounts: &[u64], node: usize, higher: u64, units: u64) -> bool
    requires leasts { node + 1 < length leasts.now }
    requires amounts { node + 1 < length amounts.now }
    ensures short { result ≡ true → (node % 2 ≡ 0) × (kept_at leasts.now amounts.now (node + 1) - higher < units) }
    ensures enough { result ≡ false → node % 2 ≡ 0 → units ≤ kept_at leasts.now amounts.now (node + 1) - higher }
{
    if node.is_multiple_of(2) {
        kept(leasts, amounts, node + 1).saturating_sub(higher) < units
    } else {
        false
    }
}

/// The first leaf between two with fewer rooms left than the units, or the second of the two where there is none or it
/// comes later.
///
/// It goes up from the leaf before, looks at each node to the right of its way, and goes down below the first that has
/// fewer left.
pub(crate) fn first_between(
    leasts: &[u64],
    amounts: &[u64],
    levels: u32,
    low: usize,
    high: usize,
    units: u64,
) -> usize
    requires ordered { low < high }
    requires low { IsOnLevel levels low }
    requires high { IsOnLevel levels high }
    requires leasts { length leasts.now ≡ width levels + width levels }
    requires amounts { length amounts.now ≡ width levels + width levels }
    requires inner { IsInner levels leasts.now amounts.now 0 0 }
    requires fits { on_way levels amounts.now low < 2 ^ 64 }
    ensures after { low < result }
    ensures before { (m : ℕ) → low < m → m < high → m < result → units ≤ left_on levels leasts.now amounts.now m }
    ensures short { result < high → left_on levels leasts.now amounts.now result < units }
{
    let mut level = levels;
    let mut left = low;
    let mut right = high;
    let mut higher = way(amounts, levels, low) - amounts[low];
    while left < right {
        if is_short_beside(leasts, amounts, left, higher, units) {
            return first_below(leasts, amounts, levels, level, left + 1, higher, units);
        }
        level -= 1;
        left /= 2;
        right /= 2;
        higher -= amounts[left];
    }
    high
}

/// Pushes the amount of a node to both children.
fn push(leasts: &mut [u64], amounts: &mut [u64], node: usize)
    requires node { 0 < node }
    requires leasts { node < length leasts.old }
    requires amounts { 2 * node + 1 < length amounts.old }
    requires left { slice_index amounts.old (2 * node) + slice_index amounts.old node < 2 ^ 64 }
    requires right { slice_index amounts.old (2 * node + 1) + slice_index amounts.old node < 2 ^ 64 }
    ensures leasts { leasts.new ≡ slice_set leasts.old node (kept_at leasts.old amounts.old node) }
    ensures amounts { IsPushed node amounts.old amounts.new }
{
    let amount = amounts[node];
    leasts[node] = leasts[node].saturating_sub(amount);
    amounts[2 * node] += amount;
    amounts[2 * node + 1] += amount;
    amounts[node] = 0;
}

/// Pushes the amounts above a node on this level down to it and to the nodes beside its way, from the root on.
fn push_above(leasts: &mut [u64], amounts: &mut [u64], levels: u32, level: u32, node: usize)
    requires level { level ≤ levels }
    requires node { IsOnLevel level node }
    requires leasts { length leasts.old ≡ width levels + width levels }
    requires amounts { length amounts.old ≡ width levels + width levels }
    requires inner { IsInner levels leasts.old amounts.old 0 0 }
    requires fits { (m : ℕ) → IsOnLevel levels m → on_way levels amounts.old m < 2 ^ 64 }
    ensures ways { SameWays levels amounts.old amounts.new }
    ensures none { over level amounts.new node ≡ 0 }
    ensures len { length leasts.new ≡ length leasts.old }
    ensures leaves { SameLeaves levels leasts.old leasts.new }
    ensures inner { IsInner levels leasts.new amounts.new 0 0 }
{
    if level > 0 {
        push_above(leasts, amounts, levels, level - 1, node / 2);
        push(leasts, amounts, node / 2);
    }
}

/// Takes the units off one leaf, once all amounts above it are pushed down.
fn release_at(leasts: &mut [u64], amounts: &mut [u64], levels: u32, leaf: usize, units: u64)
    requires leaf { IsOnLevel levels leaf }
    requires leasts { length leasts.old ≡ width levels + width levels }
    requires amounts { length amounts.old ≡ width levels + width levels }
    requires inner { IsInner levels leasts.old amounts.old 0 0 }
    requires fits { (m : ℕ) → IsOnLevel levels m → on_way levels amounts.old m < 2 ^ 64 }
    requires sold { units ≤ on_way levels amounts.old leaf }
    ensures taken { IsTaken levels (leaf - 1) (leaf + 1) units amounts.new amounts.old }
    ensures len { length leasts.new ≡ length leasts.old }
    ensures leaves { SameLeaves levels leasts.old leasts.new }
    ensures inner { IsInner levels leasts.new amounts.new 0 0 }
{
    push_above(leasts, amounts, levels, levels, leaf);
    amounts[leaf] -= units;
    bring_up(leasts, amounts, levels, leaf);
}

/// Takes the units off each leaf between two by itself.
fn release_each(
    leasts: &mut [u64],
    amounts: &mut [u64],
    levels: u32,
    low: usize,
    high: usize,
    units: u64,
)
    requires ordered { low < high }
    requires low { IsOnLevel levels low }
    requires high { IsOnLevel levels high }
    requires leasts { length leasts.old ≡ width levels + width levels }
    requires amounts { length amounts.old ≡ width levels + width levels }
    requires inner { IsInner levels leasts.old amounts.old 0 0 }
    requires fits { (m : ℕ) → IsOnLevel levels m → on_way levels amounts.old m < 2 ^ 64 }
    requires sold { (m : ℕ) → low < m → m < high → units ≤ on_way levels amounts.old m }
    ensures taken { IsTaken levels low high units amounts.new amounts.old }
    ensures len { length leasts.new ≡ length leasts.old }
    ensures leaves { SameLeaves levels leasts.old leasts.new }
    ensures inner { IsInner levels leasts.new amounts.new 0 0 }
{
    for leaf in low + 1..high {
        release_at(leasts, amounts, levels, leaf, units);
    }
}

/// Takes the units off the leaves between two: off the nodes that cover them, where a take left so much at each, and
/// otherwise off each leaf by itself.
pub(crate) fn release_between(
    leasts: &mut [u64],
    amounts: &mut [u64],
    levels: u32,
    low: usize,
    high: usize,
    units: u64,
)
    requires ordered { low < high }
    requires low { IsOnLevel levels low }
    requires high { IsOnLevel levels high }
    requires leasts { length leasts.old ≡ width levels + width levels }
    requires amounts { length amounts.old ≡ width levels + width levels }
    requires inner { IsInner levels leasts.old amounts.old 0 0 }
    requires fits { (m : ℕ) → IsOnLevel levels m → on_way levels amounts.old m < 2 ^ 64 }
    requires sold { (m : ℕ) → low < m → m < high → units ≤ on_way levels amounts.old m }
    ensures taken { IsTaken levels low high units amounts.new amounts.old }
    ensures len { length leasts.new ≡ length leasts.old }
    ensures leaves { SameLeaves levels leasts.old leasts.new }
    ensures inner { IsInner levels leasts.new amounts.new 0 0 }
{
    if is_ample(amounts, levels, low, high, units) {
        release_cover(leasts, amounts, levels, low, high, units);
    } else {
        release_each(leasts, amounts, levels, low, high, units);
    }
}
