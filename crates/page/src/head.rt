//! The head in a block: examined.

ghost use Rattle.std.specs.Prelude.{◌≡◌, ◌≤◌, length, ◌==◌};
ghost use Rattle.tree.specs.Fields.{u8_at};
ghost use Rattle.tree.specs.Heads.{has_letters, has_version, head_of, order_fits, rule_1, see_head};
ghost use Rattle.tree.specs.Walks.{is_fit};

use crate::fields::number_at;
use crate::rows::NUMBER;
use keys::key::Key;
use tree::head::Head;
use tree::refusal::Refusal;
use tree::rule::Rule;

/// The version of the format.
pub(crate) const VERSION: u32 = 1;

/// The head's numbers, whatever they are.
// Four functions look at one page in turn, for what the definitions say of the whole page: of a chunk of it each clause would
// have to be carried back to the page.
fn head_of(page: &[u8]) -> Head
    requires { 18 ≤ length page.now }
    ensures { result ≡ head_of page.now }
{
    Head {
        order: page[6],
        levels: page[7],
        root: number_at::<2>(page, 8),
        first_free: number_at::<2>(page, 10),
        free_count: number_at::<2>(page, 12),
        key_count: number_at::<4>(page, 14),
    }
}

fn has_letters(page: &[u8]) -> bool
    requires { 18 ≤ length page.now }
    ensures { result ≡ has_letters page.now }
{
    page.starts_with(b"PIX")
}

fn has_version(page: &[u8]) -> bool
    requires { 18 ≤ length page.now }
    ensures { result ≡ has_version page.now }
{
    number_at::<2>(page, 3) == VERSION
}

fn has_code<K: Key>(page: &[u8]) -> bool
    requires { 18 ≤ length page.now }
    ensures { result ≡ (u8_at 5 page.now == K.Key.kind.code) }
{
    page[5] == K::key_code()
}

/// Whether a node of that order has its place in a block of that size.
pub fn order_fits<K: Key>(order: u8, size: usize) -> bool
    requires { 64 ≤ size }
    ensures { result ≡ order_fits K.Key.kind size order }
{
    let most = (size - 8) / (K::key_width() + NUMBER);
    3 <= order && order as usize <= most
}

fn keeps_rule_1<K: Key>(head: &Head, count: u32, size: usize) -> bool
    requires { 64 ≤ size }
    ensures { result ≡ rule_1 K.Key.kind count size head.now }
{
    order_fits::<K>(head.order, size)
        && 1 <= head.levels
        && head.levels <= 10
        && 0 < head.root
        && head.root < count
        && head.first_free < count
}

/// The head, where it is one of this key kind and keeps rule 1.
#[tactic(auto, unfolding(tree::specs::Heads::see_head))]
pub fn examine_head<K: Key>(page: &[u8], count: u32) -> Result<Head, Refusal>
    requires { 64 ≤ length page.now }
    ensures { result ≡ see_head K.Key.kind count (length page.now) page.now }
{
    if !has_letters(page) {
        return Err(Refusal::NoLetters);
    }
    if !has_version(page) {
        return Err(Refusal::OtherVersion);
    }
    if !has_code::<K>(page) {
        return Err(Refusal::OtherKind);
    }
    let head = head_of(page);
    if !keeps_rule_1::<K>(&head, count, page.len()) {
        return Err(Refusal::Broken(Rule::HeadNumbers, 0));
    }
    Ok(head)
}

/// Whether a store has room for an index.
pub fn is_fit(count: u32, size: u32) -> bool
    ensures { result ≡ is_fit count size }
{
    2 <= count && 64 <= size
}
