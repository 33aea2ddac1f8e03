//! A node in a block, examined.

ghost use Rattle.std.specs.Prelude.{◌≡◌, ◌+◌, ◌*◌, ◌≤◌, ◌&&◌, length, drop, ◌==◌, nat_le};
ghost use Rattle.keys.specs.Rows.{rows_rise};
ghost use Rattle.page.specs.Rows.{flaw_of, links_fit};
ghost use Rattle.tree.specs.Fields.{u8_at};
ghost use Rattle.tree.specs.Nodes.{least, see_node, tag_of};

use crate::rows::{NUMBER, NodeView};
use crate::tag::Tag;
use keys::key::Key;
use keys::rows::rising;
use tree::rule::Rule;

/// Where the entries begin.
pub const ENTRIES: usize = 8;

/// The least entries of a node.
// Booleans, as the rules have them: a node is a leaf or not, and the first of its way or not.
pub fn least_entries(order: u8, top: bool, leaf: bool) -> u8
    ensures { result ≡ least order top leaf }
{
    match (top, leaf) {
        (true, true) => 0,
        (true, false) => 1,
        (false, true) => order.div_ceil(2),
        (false, false) => order / 2,
    }
}

/// Rule 2: the tag says what the node is.
// This and the next look at a page before there is a view of it, which asks room for as many entries as the count says.
fn has_tag(page: &[u8], leaf: bool) -> bool
    requires { 8 ≤ length page.now }
    ensures { result ≡ (u8_at 0 page.now == tag_of leaf) }
{
    page[0] == Tag::of_node(leaf) as u8
}

/// Rule 3: the count is within its bounds.
fn has_count(page: &[u8], low: u8, order: u8) -> bool
    requires { 8 ≤ length page.now }
    ensures { result ≡ nat_le low (u8_at 1 page.now) && nat_le (u8_at 1 page.now) order }
{
    low <= page[1] && page[1] <= order
}

/// Rule 4: the keys can be read and rise strictly.
fn has_keys<K: Key>(node: &NodeView<K>) -> bool
    ensures { result ≡ rows_rise K.Key.kind (K.Key.kind.width + 4) (u8_at 1 node.now.page.now) (drop 8 node.now.page.now) }
{
    let entries = node.entries();
    rising::<K>(entries.rows, K::key_width() + NUMBER, entries.count)
}

/// Rule 5: a leaf's link, or an inner node's children, are blocks of the store.
fn has_links<K: Key>(node: &NodeView<K>, leaf: bool, count: u32) -> bool
    ensures { result ≡ links_fit K.Key.kind count leaf node.now.page.now }
{
    let link = node.link();
    if leaf {
        return link < count;
    }
    0 < link && link < count && node.entries().all_blocks(count)
}

/// The first of rules 2 to 5 that a block breaks.
#[tactic(auto, using(crate::proofs::Seen::flaw_is, crate::proofs::Seen::count_fits))]
pub fn flaw<K: Key>(page: &[u8], leaf: bool, low: u8, order: u8, count: u32) -> Option<Rule>
    requires { 8 + order * (K.Key.kind.width + 4) ≤ length page.now }
    ensures { result ≡ flaw_of (see_node K.Key.kind count order leaf low page.now) }
{
    if !has_tag(page, leaf) {
        return Some(Rule::Tag);
    }
    if !has_count(page, low, order) {
        return Some(Rule::Count);
    }
    let node = NodeView::<K>::of(page);
    if !has_keys(&node) {
        return Some(Rule::Keys);
    }
    if !has_links(&node, leaf, count) {
        return Some(Rule::Links);
    }
    None
}
