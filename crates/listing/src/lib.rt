// Listings of trees in bytes: the tree reader, and document 01's refusals 1 to 4. No reader has a `requires`:
// each returns for every slice of any length.
#![tactic(auto)]

ghost use Rattle.std.specs.Prelude.{◌≡◌, ◌*◌, ◌+◌, ◌≤◌, length};
ghost use Rattle.format.specs.Format.{max_label, node_bytes};
ghost use Rattle.format.specs.Refusals.{broken};
ghost use Rattle.trees.specs.Listing.{children_at, label_at, whole_nodes, all_labelled, all_narrow, one_tree, listing_refusal};
ghost use Rattle.listing.specs.Measure.{measured};

use format::{LABEL_BYTES, MAX_ARITY, MAX_LISTING, NODE_BYTES, Refusal, label_from};

// The label of node i, and the number of its children.
pub fn label_at(s: &[u8], i: usize) -> u16
    requires { node_bytes * i + node_bytes ≤ length s.now }
    ensures value { result ≡ label_at s.now i }
    ensures upper_bound { result ≤ max_label }
{
    label_from(s[NODE_BYTES * i], s[NODE_BYTES * i + 1])
}

pub fn children_at(s: &[u8], i: usize) -> u8
    requires { node_bytes * i + node_bytes ≤ length s.now }
    ensures { result ≡ children_at s.now i }
{
    s[NODE_BYTES * i + LABEL_BYTES]
}

// Reads the tree that s starts with; the number of its bytes, if s starts with one.
#[cycle(children_tree)]
pub fn tree(s: &[u8]) -> Option<usize>
    ensures { result ≡ measured s.now 1 }
{
    if s.len() < NODE_BYTES {
        return None;
    }
    let count = usize::from(children_at(s, 0));
    let len = children(&s[NODE_BYTES..], count)?;
    Some(NODE_BYTES + len)
}

// Reads the count trees, one after the other, that s starts with.
#[cycle(children_tree)]
pub fn children(s: &[u8], count: usize) -> Option<usize>
    ensures { result ≡ measured s.now count }
{
    if count == 0 {
        return Some(0);
    }
    let len = tree(s)?;
    let more = children(&s[len..], count - 1)?;
    Some(len + more)
}

// Whether the length is that of 1 to 48 nodes (01, refusal 1).
fn whole_nodes(s: &[u8]) -> bool
    ensures { result ≡ whole_nodes s.now }
{
    if s.len() < NODE_BYTES {
        return false;
    }
    if s.len() > MAX_LISTING {
        return false;
    }
    s.len() % NODE_BYTES == 0
}

// Whether no label is 0, also after the first tree (01, refusal 2).
fn all_labelled(s: &[u8]) -> bool
    ensures { result ≡ all_labelled s.now }
{
    let nodes = s.len() / NODE_BYTES;
    for i in 0..nodes {
        if label_at(s, i) == 0 {
            return false;
        }
    }
    true
}

// Whether no child count is above 8, also after the first tree (01, refusal 3).
fn all_narrow(s: &[u8]) -> bool
    ensures { result ≡ all_narrow s.now }
{
    let nodes = s.len() / NODE_BYTES;
    for i in 0..nodes {
        if usize::from(children_at(s, i)) > MAX_ARITY {
            return false;
        }
    }
    true
}

// Whether the bytes are one tree and no more (01, refusal 4).
fn one_tree(s: &[u8]) -> bool
    ensures { result ≡ one_tree s.now }
{
    tree(s) == Some(s.len())
}

// Whether the bytes are a listing; the first of refusals 1 to 4 that applies, if any.
pub fn check(s: &[u8]) -> Result<(), Refusal>
    ensures { broken result ≡ listing_refusal s.now }
{
    if !whole_nodes(s) {
        return Err(Refusal::ListingLength);
    }
    if !all_labelled(s) {
        return Err(Refusal::ZeroLabel);
    }
    if !all_narrow(s) {
        return Err(Refusal::TooManyChildren);
    }
    if !one_tree(s) {
        return Err(Refusal::NotOneTree);
    }
    Ok(())
}
